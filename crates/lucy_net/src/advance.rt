// One event of an actor, by counts.
ghost use Rattle.std.specs.Prelude.{◌≡◌, ◌+◌, ◌<◌, ◌^◌, length, slice_get};
ghost use Rattle.lucy_word.specs.Bits.{ones_to};
ghost use Rattle.lucy_stream.specs.Forms.{operands};
ghost use Rattle.lucy_net.specs.Plans.{form_of};
ghost use Rattle.lucy_net.specs.Instants.{firing_of};
ghost use Rattle.lucy_net.specs.Play.{Becomes, IsWithinRings};

use crate::firing::{Move, firing_move};
use crate::net::Actor;

/// What an actor did or waits for. Rings count from 0.
#[derive(Clone, Copy)]
pub(crate) enum Event {
    /// It took an item.
    Took,
    /// It gave an item to this ring.
    Gave(u32),
    /// It wants an item of this ring, which holds none.
    Waits(u32),
    /// Its firing has no operation left.
    Over,
}

/// The next operation of an actor in its firing past the first `before` instants, of which it has done the first `step`:
/// done, unless it is a take from an empty ring. There is always room for a give.
pub(crate) fn advance(actor: &Actor, before: u64, step: &mut u32, held: &mut [u64]) -> Event
    requires arity { length actor.now.takes ≡ operands (form_of actor.now.kind) }
    requires fits { before + 1 < 2 ^ 64 }
    requires small { step.old + 1 < 2 ^ 32 }
    requires rings { IsWithinRings (slice_get (firing_of actor.now (ones_to actor.now.firing before)) step.old) held.old }
    ensures { Becomes (slice_get (firing_of actor.now (ones_to actor.now.firing before)) step.old) step.old step.new held.old held.new result }
{
    match firing_move(actor, actor.firing.ones(before), *step) {
        Move::Done => Event::Over,
        Move::Give(ring) => {
            held[ring as usize] += 1;
            *step += 1;
            Event::Gave(ring)
        }
        Move::Take(ring) if held[ring as usize] == 0 => Event::Waits(ring),
        Move::Take(ring) => {
            held[ring as usize] -= 1;
            *step += 1;
            Event::Took
        }
    }
}
