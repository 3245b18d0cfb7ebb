// The operations of one firing.
ghost use Rattle.std.specs.Prelude.{ℕ, ◌≡◌, ◌↔◌, IsTrue, ◌<◌, ◌≤◌, ◌+◌, ◌^◌, length, map, ◌++◌, slice_get};
ghost use Rattle.lucy_stream.specs.Forms.{operands};
ghost use Rattle.lucy_stream.specs.Systems.{Takes, Gives};
ghost use Rattle.lucy_stream.specs.Operations.{firing_ops};
ghost use Rattle.lucy_net.specs.Plans.{form_of};
ghost use Rattle.lucy_net.specs.Moves.{move_of};
ghost use Rattle.lucy_net.specs.Cursors.{Reads};
ghost use Rattle.lucy_net.specs.States.{IsPlain};

use crate::kind::ActorKind;
use crate::net::Actor;

/// What an actor does next, with the number of the ring.
#[derive(Clone, Copy, PartialEq, Eq)]
pub enum Move {
    /// It takes an item.
    Take(u32),
    /// It gives an item.
    Give(u32),
    /// There is nothing left to do.
    Done,
}

// The take of this number, counted from 0.
#[inline(always)]
fn take_at(takes: &[u32], step: usize) -> Move
    ensures { result ≡ move_of (slice_get (map Takes takes.now) step) }
{
    match takes.get(step) {
        Some(ring) => Move::Take(*ring),
        None => Move::Done,
    }
}

// The give of this number, counted from 0.
#[inline(always)]
fn give_at(gives: &[u32], step: usize) -> Move
    ensures { result ≡ move_of (slice_get (map Gives gives.now) step) }
{
    match gives.get(step) {
        Some(ring) => Move::Give(*ring),
        None => Move::Done,
    }
}

// In takes that gives follow, the operation of this number.
#[inline(always)]
fn take_then_give(takes: &[u32], gives: &[u32], step: usize) -> Move
    ensures { result ≡ move_of (slice_get (map Takes takes.now ++ map Gives gives.now) step) }
{
    if step < takes.len() {
        take_at(takes, step)
    } else {
        give_at(gives, step - takes.len())
    }
}

// In gives that takes follow, the operation of this number.
#[inline(always)]
fn give_then_take(takes: &[u32], gives: &[u32], step: usize) -> Move
    ensures { result ≡ move_of (slice_get (map Gives gives.now ++ map Takes takes.now) step) }
{
    if step < gives.len() {
        give_at(gives, step)
    } else {
        take_at(takes, step - gives.len())
    }
}

// The operation of this number in a firing in which a sampling or a merge reads this bit.
#[inline(always)]
pub(crate) fn move_by(actor: &Actor, bit: bool, step: u32) -> Move
    requires arity { length actor.now.takes ≡ operands (form_of actor.now.kind) }
    ensures { (fired : ℕ) → Reads (form_of actor.now.kind) fired bit →
        result ≡ move_of (slice_get (firing_ops (form_of actor.now.kind) actor.now.takes actor.now.gives fired) step) }
{
    let takes = actor.takes.list();
    let gives = actor.gives.list();
    let step = step as usize;
    match &actor.kind {
        ActorKind::Fby(_) => give_then_take(takes, gives, step),
        ActorKind::When(_) if !bit => take_at(takes, step),
        ActorKind::Merge(_) => {
            let operand = if bit { 0 } else { 1 };
            take_then_give(&takes[operand..operand + 1], gives, step)
        }
        _ => take_then_give(takes, gives, step),
    }
}

// How many operations there are in a firing in which a sampling or a merge reads this bit.
#[inline(always)]
pub(crate) fn moves_by(actor: &Actor, bit: bool) -> u64
    requires arity { length actor.now.takes ≡ operands (form_of actor.now.kind) }
    ensures { (fired : ℕ) → Reads (form_of actor.now.kind) fired bit →
        result ≡ length (firing_ops (form_of actor.now.kind) actor.now.takes actor.now.gives fired) }
{
    let takes = actor.takes.list().len() as u64;
    let gives = actor.gives.list().len() as u64;
    match &actor.kind {
        ActorKind::When(_) if !bit => takes,
        ActorKind::Merge(_) => 1 + gives,
        _ => takes + gives,
    }
}

/// Whether an actor of this kind is plain: in each firing it takes from all of its rings, and then gives to all.
pub fn is_plain(kind: &ActorKind) -> bool
    ensures { IsTrue result ↔ IsPlain (form_of kind.now) }
{
    match kind {
        ActorKind::When(_) | ActorKind::Merge(_) | ActorKind::Fby(_) => false,
        _ => true,
    }
}

// The bit that a sampling or a merge reads in its firing after `fired` others.
fn bit_of(kind: &ActorKind, fired: u64) -> bool
    requires { fired + 1 < 2 ^ 64 }
    ensures { Reads (form_of kind.now) fired result }
{
    match kind {
        ActorKind::When(word) => word.bit(fired + 1),
        ActorKind::Merge(word) => word.bit(fired + 1),
        _ => false,
    }
}

/// The operation of this number, counted from 0, in the actor's firing after `fired` others; `Done` past its last one.
pub fn firing_move(actor: &Actor, fired: u64, step: u32) -> Move
    requires arity { length actor.now.takes ≡ operands (form_of actor.now.kind) }
    requires fits { fired + 1 < 2 ^ 64 }
    ensures { result ≡ move_of (slice_get (firing_ops (form_of actor.now.kind) actor.now.takes actor.now.gives fired) step) }
{
    move_by(actor, bit_of(&actor.kind, fired), step)
}
