// An actor's operations one after another, firing by firing.
ghost use Rattle.std.specs.Prelude.{ℕ, ◌≡◌, ◌↔◌, ◌+◌, ◌<◌, ◌≤◌, ◌^◌, List, [], ◌∷◌, ◌++◌, ℤ, length, replicate, slice_get, Some, IsTrue};
ghost use Rattle.lucy_stream.specs.Forms.{operands};
ghost use Rattle.lucy_stream.specs.Systems.{RingOp, Takes, Gives};
ghost use Rattle.lucy_stream.specs.Operations.{firing_ops};
ghost use Rattle.lucy_net.specs.Plans.{form_of, actor_ops};
ghost use Rattle.lucy_net.specs.Moves.{move_of};
ghost use Rattle.lucy_net.specs.Cursors.{IsCursor, HasCursor};
ghost use Rattle.lucy_net.specs.States.{IsUsable, IsActorState, IsOfActor, IsNext, IsPlain, operand_at, took_more};
ghost use Rattle.lucy_net.specs.Stepping.{IsMovedOn, IsSteppedOn};

use crate::cursor::{bit_under, first_cursor, next_bit};
use crate::firing::{Move, move_by, moves_by};
use crate::kind::ActorKind;
use crate::net::Actor;
use lucy_word::Word;

/// Where an actor stands in its list of operations, and what it took last. The calls on it go by a cursor in the word that
/// the actor reads, so that none of them divides or counts, however many firings there were.
#[derive(Clone, Copy)]
pub struct ActorState {
    /// How many firings it has to do.
    pub quota: u64,
    /// The firings that it has done.
    pub fired: u64,
    /// The operations that it has done in its next firing.
    pub step: u32,
    /// Where the bit of its next firing stands among the bits of prefix and period of a sampling's or a merge's word, from 1.
    pub cursor: u64,
    /// The item that it took last from its first operand, 0 where there is none.
    pub a: i64,
    /// The same from its second operand.
    pub b: i64,
    /// The same from its third operand.
    pub c: i64,
    /// What a delay gives next, once it has taken something: the item that it took last.
    pub kept: i64,
}

/// Nothing is done; up to so many instants the actor fires where its word has a one. An actor without rings has no operation,
/// and is at its end.
pub fn first_state(actor: &Actor, instants: u64) -> ActorState
    requires { IsUsable actor.now }
    ensures { IsActorState actor.now instants 0 (replicate (operands (form_of actor.now.kind)) []) result }
{
    let quota = actor.firing.ones(instants);
    let rings = actor.takes.list().len() as u64 + actor.gives.list().len() as u64;
    let cursor = first_cursor(&actor.kind);
    ActorState {
        quota,
        fired: if rings == 0 { quota } else { 0 },
        step: 0,
        cursor,
        a: 0,
        b: 0,
        c: 0,
        kept: 0,
    }
}

/// The actor's next operation, `Done` exactly where its quota of firings is done.
#[inline(always)]
pub fn next_move(actor: &Actor, state: &ActorState) -> Move
    requires usable { IsUsable actor.now }
    requires state { IsOfActor actor.now state.now }
    ensures next { (op : RingOp) → IsNext actor.now state.now op → result ≡ move_of (Some op) }
    ensures done { (result ≡ Move.Done) ↔ (state.now.quota ≤ state.now.fired) }
    ensures planned { (instants n : ℕ) (took : List (List ℤ)) → IsActorState actor.now instants n took state.now →
        result ≡ move_of (slice_get (actor_ops instants actor.now) n) }
{
    if state.fired < state.quota {
        move_by(actor, bit_under(&actor.kind, state.cursor), state.step)
    } else {
        Move::Done
    }
}

// One operation of a firing of so many more, and whether it was the last one: then the next firing begins.
#[inline(always)]
fn move_on(state: &mut ActorState, moves: u64) -> bool
    requires open { state.old.fired < state.old.quota }
    requires inside { state.old.step < moves }
    requires few { moves < 2 ^ 32 }
    ensures moved { IsMovedOn moves state.old state.new }
    ensures cursor { state.new.cursor ≡ state.old.cursor }
    ensures last { IsTrue result ↔ (moves ≤ state.old.step + 1) }
{
    let step = state.step + 1;
    if moves <= u64::from(step) {
        state.fired += 1;
        state.step = 0;
        true
    } else {
        state.step = step;
        false
    }
}

// The same of an actor that reads a word: behind the last operation its cursor goes one bit on.
#[inline(always)]
fn read_on(state: &mut ActorState, moves: u64, word: &Word)
    requires open { state.old.fired < state.old.quota }
    requires inside { state.old.step < moves }
    requires few { moves < 2 ^ 32 }
    requires cursor { IsCursor word.now state.old.fired state.old.cursor }
    ensures moved { IsMovedOn moves state.old state.new }
    ensures cursor { IsCursor word.now state.new.fired state.new.cursor }
{
    if move_on(state, moves) {
        state.cursor = next_bit(word, state.cursor);
    }
}

// One operation of the firing more; after its last one the next firing begins.
#[inline(always)]
fn step_on(actor: &Actor, state: &mut ActorState, plain: bool)
    requires plain { IsTrue plain → IsPlain (form_of actor.now.kind) }
    requires usable { IsUsable actor.now }
    requires open { state.old.fired < state.old.quota }
    requires inside { state.old.step < length (firing_ops (form_of actor.now.kind) actor.now.takes actor.now.gives state.old.fired) }
    requires cursor { HasCursor (form_of actor.now.kind) state.old.fired state.old.cursor }
    ensures { IsSteppedOn actor.now state.old state.new }
{
    if plain {
        let moves = actor.takes.list().len() as u64 + actor.gives.list().len() as u64;
        move_on(state, moves);
        return;
    }
    match &actor.kind {
        ActorKind::When(word) => {
            let moves = moves_by(actor, bit_under(&actor.kind, state.cursor));
            read_on(state, moves, word);
        }
        ActorKind::Merge(word) => {
            let moves = moves_by(actor, bit_under(&actor.kind, state.cursor));
            read_on(state, moves, word);
        }
        _ => {
            move_on(state, moves_by(actor, false));
        }
    }
}

// From which operand the actor takes next.
#[inline(always)]
fn operand_of(actor: &Actor, state: &ActorState, plain: bool) -> u32
    requires plain { IsTrue plain → IsPlain (form_of actor.now.kind) }
    requires cursor { HasCursor (form_of actor.now.kind) state.now.fired state.now.cursor }
    ensures { result ≡ operand_at (form_of actor.now.kind) state.now.fired state.now.step }
{
    if plain {
        return state.step;
    }
    match &actor.kind {
        ActorKind::Fby(_) => 0,
        ActorKind::Merge(_) => {
            if bit_under(&actor.kind, state.cursor) {
                0
            } else {
                1
            }
        }
        _ => state.step,
    }
}

// The item that was taken last from this operand, kept.
#[inline(always)]
fn keep(state: &mut ActorState, operand: u32, value: i64)
    requires { operand < 3 }
    ensures quota { state.new.quota ≡ state.old.quota }
    ensures fired { state.new.fired ≡ state.old.fired }
    ensures step { state.new.step ≡ state.old.step }
    ensures cursor { state.new.cursor ≡ state.old.cursor }
    ensures first { operand ≡ 0 → state.new ≡ record state.old { a = value; kept = value } }
    ensures second { operand ≡ 1 → state.new ≡ record state.old { b = value } }
    ensures third { operand ≡ 2 → state.new ≡ record state.old { c = value } }
{
    match operand {
        0 => {
            state.a = value;
            state.kept = value;
        }
        1 => state.b = value,
        _ => state.c = value,
    }
}

/// The actor takes this item. Where `plain` says that it is plain its kind isn't looked at.
#[inline(always)]
pub fn after_end_take(actor: &Actor, state: &mut ActorState, value: i64, plain: bool)
    requires plain { IsTrue plain → IsPlain (form_of actor.now.kind) }
    requires usable { IsUsable actor.now }
    requires state { IsOfActor actor.now state.old }
    requires next { (ring : ℕ) × IsNext actor.now state.old (Takes ring) }
    ensures { (instants n : ℕ) (took : List (List ℤ)) → IsActorState actor.now instants n took state.old →
        IsActorState actor.now instants (n + 1) (took_more took (operand_at (form_of actor.now.kind) state.old.fired state.old.step) value) state.new }
{
    let operand = operand_of(actor, state, plain);
    keep(state, operand, value);
    step_on(actor, state, plain);
}

/// The actor gives an item. Where `plain` says that it is plain its kind isn't looked at.
#[inline(always)]
pub fn after_end_give(actor: &Actor, state: &mut ActorState, plain: bool)
    requires plain { IsTrue plain → IsPlain (form_of actor.now.kind) }
    requires usable { IsUsable actor.now }
    requires state { IsOfActor actor.now state.old }
    requires next { (ring : ℕ) × IsNext actor.now state.old (Gives ring) }
    ensures { (instants n : ℕ) (took : List (List ℤ)) → IsActorState actor.now instants n took state.old →
        IsActorState actor.now instants (n + 1) took state.new }
{
    step_on(actor, state, plain);
}

/// The actor takes this item.
#[inline(always)]
pub fn after_take(actor: &Actor, state: &mut ActorState, value: i64)
    requires usable { IsUsable actor.now }
    requires state { IsOfActor actor.now state.old }
    requires next { (ring : ℕ) × IsNext actor.now state.old (Takes ring) }
    ensures { (instants n : ℕ) (took : List (List ℤ)) → IsActorState actor.now instants n took state.old →
        IsActorState actor.now instants (n + 1) (took_more took (operand_at (form_of actor.now.kind) state.old.fired state.old.step) value) state.new }
{
    after_end_take(actor, state, value, false);
}

/// The actor gives an item.
#[inline(always)]
pub fn after_give(actor: &Actor, state: &mut ActorState)
    requires usable { IsUsable actor.now }
    requires state { IsOfActor actor.now state.old }
    requires next { (ring : ℕ) × IsNext actor.now state.old (Gives ring) }
    ensures { (instants n : ℕ) (took : List (List ℤ)) → IsActorState actor.now instants n took state.old →
        IsActorState actor.now instants (n + 1) took state.new }
{
    after_end_give(actor, state, false);
}
