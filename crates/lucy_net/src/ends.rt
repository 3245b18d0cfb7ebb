// On which end of an actor its next operation is.
ghost use Rattle.std.specs.Prelude.{ℕ, ◌≡◌, ◌↔◌, ◌-◌, ◌<◌, ◌≤◌, nat_lt, slice_get, if◌then◌else◌, Some, IsTrue};
ghost use Rattle.lucy_stream.specs.Systems.{Takes, Gives};
ghost use Rattle.lucy_net.specs.Plans.{form_of};
ghost use Rattle.lucy_net.specs.Cursors.{HasCursor};
ghost use Rattle.lucy_net.specs.States.{IsUsable, IsOfActor, IsNext, IsPlain, end_move_at};

use crate::cursor::bit_under;
use crate::kind::ActorKind;
use crate::net::Actor;
use crate::state::ActorState;

/// What an actor does next, by the end that it does it on.
#[derive(Clone, Copy)]
pub enum EndMove {
    /// It takes from this one of its takes, counted from 0.
    Take(u32),
    /// It gives to this one of its gives, counted from 0.
    Give(u32),
    /// There is nothing left to do.
    Done,
}

// The operation of this number where so many takes come first, and then gives.
#[inline(always)]
fn take_then_give(step: u32, takes: u32) -> EndMove
    ensures { result ≡ (if nat_lt step takes then EndMove.Take step else EndMove.Give (step - takes)) }
{
    if step < takes {
        EndMove::Take(step)
    } else {
        EndMove::Give(step - takes)
    }
}

// The operation of this number where so many gives come first, and then takes.
#[inline(always)]
fn give_then_take(step: u32, gives: u32) -> EndMove
    ensures { result ≡ (if nat_lt step gives then EndMove.Give step else EndMove.Take (step - gives)) }
{
    if step < gives {
        EndMove::Give(step)
    } else {
        EndMove::Take(step - gives)
    }
}

// The next operation of the firing, of an actor of so many takes and gives.
#[inline(always)]
fn end_move(actor: &Actor, state: &ActorState, takes: u32, gives: u32, plain: bool) -> EndMove
    requires plain { IsTrue plain → IsPlain (form_of actor.now.kind) }
    requires cursor { HasCursor (form_of actor.now.kind) state.now.fired state.now.cursor }
    ensures { result ≡ end_move_at (form_of actor.now.kind) takes gives state.now.fired state.now.step }
{
    if plain {
        return take_then_give(state.step, takes);
    }
    match &actor.kind {
        ActorKind::Fby(_) => give_then_take(state.step, gives),
        ActorKind::Merge(_) if state.step > 0 => EndMove::Give(state.step - 1),
        ActorKind::Merge(_) => {
            let operand = if bit_under(&actor.kind, state.cursor) {
                0
            } else {
                1
            };
            EndMove::Take(operand)
        }
        _ => take_then_give(state.step, takes),
    }
}

/// The actor's next operation, by which of its takes, or of its gives, it is on; `Done` exactly where its quota of firings is done. Where
/// `plain` says that the actor is plain its kind isn't looked at.
#[inline(always)]
pub fn next_end_move(actor: &Actor, state: &ActorState, plain: bool) -> EndMove
    requires plain { IsTrue plain → IsPlain (form_of actor.now.kind) }
    requires usable { IsUsable actor.now }
    requires state { IsOfActor actor.now state.now }
    ensures take { (end : ℕ) → result ≡ EndMove.Take end → (ring : ℕ) × IsNext actor.now state.now (Takes ring) × (slice_get actor.now.takes end ≡ Some ring) }
    ensures give { (end : ℕ) → result ≡ EndMove.Give end → (ring : ℕ) × IsNext actor.now state.now (Gives ring) × (slice_get actor.now.gives end ≡ Some ring) }
    ensures done { (result ≡ EndMove.Done) ↔ (state.now.quota ≤ state.now.fired) }
{
    if state.fired < state.quota {
        let takes = actor.takes.list().len() as u32;
        let gives = actor.gives.list().len() as u32;
        end_move(actor, state, takes, gives, plain)
    } else {
        EndMove::Done
    }
}
