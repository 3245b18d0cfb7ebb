// One actor, and its moves.
ghost use Rattle.std.specs.Prelude.{ℕ, ◌≡◌, ◌+◌, ◌<◌, ◌≤◌, IsTrue, IsFalse, List, length, slice_get, Some, vec_capacity};
ghost use Rattle.lucy_host.specs.declared.kind.HostKind.{HostKind};
ghost use Rattle.lucy_host.specs.Host.{Serves, lent};
ghost use Rattle.lucy_host.specs.Operators.{kinds_of};
ghost use Rattle.lucy_stream.specs.Systems.{Takes, Gives};
ghost use Rattle.lucy_net.specs.Plans.{form_of};
ghost use Rattle.lucy_net.specs.States.{IsNext, IsPlain};
ghost use Rattle.lucy_worker.specs.Parts.{done_of, CanMove};
ghost use Rattle.lucy_worker.specs.Turns.{HasRun, IsServed};
ghost use Rattle.lucy_worker.specs.Readiness.{left_of, IsReady, HasSlot, out_after};

use lucy_host::Host;
use lucy_net::{
    Actor, ActorKind, ActorState, EndMove, after_end_give, after_end_take, give_value, is_plain,
    next_end_move,
};
use lucy_ring::{Giver, Taker};

/// An actor of a net, and all that it moves. What each move reads stands first and close together.
#[derive(Drop)]
pub struct Part {
    /// Where it stands.
    pub state: ActorState,
    /// The ends of the rings that it gives to, in order of the actor's `gives`.
    pub givers: Vec<Giver>,
    /// The ends of the rings that it takes from, in order of the actor's `takes`.
    pub takers: Vec<Taker>,
    /// The actor.
    pub actor: Actor,
    /// The items of an input, oldest first.
    pub input: Vec<i64>,
    /// What an output took, oldest first.
    pub output: Vec<i64>,
    /// The number of the actor in the net, from 0.
    pub number: u32,
}

impl Part {
    // Does all moves that are possible in a row, and answers how many.
    #[inline(always)]
    pub(crate) fn go_on<F: Fn(u32, i64, i64) -> i64 + Sync>(&mut self, host: &Host<F>) -> u64
        requires ready { IsReady self.old }
        requires serves { Serves F.pre F.post host.now }
        requires served { IsServed (length (lent host.now)) self.old }
        ensures ready { IsReady self.new }
        ensures run { HasRun (kinds_of (lent host.now)) self.old self.new }
        ensures moves { done_of self.new ≡ done_of self.old + result }
        ensures left { left_of self.new + result ≡ left_of self.old }
        ensures moved { CanMove self.old → 0 < result }
        ensures rests { CanMove self.new → ⊥ }
    {
        // the compiler makes two loops of this, in one of which the kind is looked at no more
        if is_plain(&self.actor.kind) {
            self.go(host, true)
        } else {
            self.go(host, false)
        }
    }

    // The same; where `plain` says that the actor is plain its kind tells no moves.
    #[inline(always)]
    #[tactic(auto, using(crate::proofs::Runs::goes_on, crate::proofs::Runs::stays))]
    fn go<F: Fn(u32, i64, i64) -> i64 + Sync>(&mut self, host: &Host<F>, plain: bool) -> u64
        requires plain { IsTrue plain → IsPlain (form_of self.old.actor.kind) }
        requires ready { IsReady self.old }
        requires serves { Serves F.pre F.post host.now }
        requires served { IsServed (length (lent host.now)) self.old }
        ensures ready { IsReady self.new }
        ensures run { HasRun (kinds_of (lent host.now)) self.old self.new }
        ensures moves { done_of self.new ≡ done_of self.old + result }
        ensures left { left_of self.new + result ≡ left_of self.old }
        ensures moved { CanMove self.old → 0 < result }
        ensures rests { CanMove self.new → ⊥ }
    {
        let mut moves = 0;
        while self.step(host, plain) {
            moves += 1;
        }
        moves
    }

    // Tries the next move.
    #[inline(always)]
    fn step<F: Fn(u32, i64, i64) -> i64 + Sync>(&mut self, host: &Host<F>, plain: bool) -> bool
        requires plain { IsTrue plain → IsPlain (form_of self.old.actor.kind) }
        requires ready { IsReady self.old }
        requires serves { Serves F.pre F.post host.now }
        requires served { IsServed (length (lent host.now)) self.old }
        ensures ready { IsReady self.new }
        ensures run { HasRun (kinds_of (lent host.now)) self.old self.new }
        ensures moved { IsTrue result → (done_of self.new ≡ done_of self.old + 1) × (left_of self.new + 1 ≡ left_of self.old) }
        ensures stayed { IsFalse result → (done_of self.new ≡ done_of self.old) × (left_of self.new ≡ left_of self.old) }
        ensures rests { IsFalse result → CanMove self.new → ⊥ }
        ensures possible { CanMove self.old → IsTrue result }
    {
        match next_end_move(&self.actor, &self.state, plain) {
            EndMove::Take(end) => self.take(end, plain),
            EndMove::Give(end) => self.give(host, end, plain),
            EndMove::Done => false,
        }
    }

    // Takes from this one of its ends, where an item is found.
    #[inline(always)]
    fn take(&mut self, end: u32, plain: bool) -> bool
        requires plain { IsTrue plain → IsPlain (form_of self.old.actor.kind) }
        requires ready { IsReady self.old }
        requires next { (ring : ℕ) × IsNext self.old.actor self.old.state (Takes ring) × (slice_get self.old.actor.takes end ≡ Some ring) }
        ensures ready { IsReady self.new }
        ensures run { (kinds : List HostKind) → HasRun kinds self.old self.new }
        ensures moved { IsTrue result → (done_of self.new ≡ done_of self.old + 1) × (left_of self.new + 1 ≡ left_of self.old) }
        ensures stayed { IsFalse result → (done_of self.new ≡ done_of self.old) × (left_of self.new ≡ left_of self.old) }
        ensures rests { IsFalse result → CanMove self.new → ⊥ }
        ensures possible { CanMove self.old → IsTrue result }
    {
        match self.takers[end as usize].take() {
            Some(value) => {
                after_end_take(&self.actor, &mut self.state, value, plain);
                put_out(&self.actor.kind, &mut self.output, value);
                true
            }
            None => false,
        }
    }

    // Gives to this one of its ends, where a slot is found.
    #[inline(always)]
    fn give<F: Fn(u32, i64, i64) -> i64 + Sync>(
        &mut self,
        host: &Host<F>,
        end: u32,
        plain: bool,
    ) -> bool
        requires plain { IsTrue plain → IsPlain (form_of self.old.actor.kind) }
        requires ready { IsReady self.old }
        requires next { (ring : ℕ) × IsNext self.old.actor self.old.state (Gives ring) × (slice_get self.old.actor.gives end ≡ Some ring) }
        requires serves { Serves F.pre F.post host.now }
        requires served { IsServed (length (lent host.now)) self.old }
        ensures ready { IsReady self.new }
        ensures run { HasRun (kinds_of (lent host.now)) self.old self.new }
        ensures moved { IsTrue result → (done_of self.new ≡ done_of self.old + 1) × (left_of self.new + 1 ≡ left_of self.old) }
        ensures stayed { IsFalse result → (done_of self.new ≡ done_of self.old) × (left_of self.new ≡ left_of self.old) }
        ensures rests { IsFalse result → CanMove self.new → ⊥ }
        ensures possible { CanMove self.old → IsTrue result }
    {
        let value = give_value(&self.actor, &self.state, &self.input, host);
        if self.givers[end as usize].give(value).is_err() {
            return false;
        }
        after_end_give(&self.actor, &mut self.state, plain);
        true
    }
}

// An output keeps what it takes.
fn put_out(kind: &ActorKind, output: &mut Vec<i64>, value: i64)
    requires room { HasSlot kind.now (length output.old.items) (vec_capacity output.old) }
    ensures kept { output.new.items ≡ out_after kind.now output.old.items value }
    ensures room { vec_capacity output.old ≤ vec_capacity output.new }
{
    if let ActorKind::Output(_) = kind {
        match output.push(value) {
            Ok(()) => (),
            Err(_) => unreachable!(),
        }
    }
}
