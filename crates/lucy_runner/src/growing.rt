// A block more for the parts of all workers: first room for it, and then more to do.
ghost use Rattle.std.specs.Prelude.{◌≡◌, ◌-◌, ◌^◌, ◌<◌, ◌≤◌, All, length, OnOk, OnErr};
ghost use Rattle.lucy_word.specs.Bits.{ones_to};
ghost use Rattle.lucy_runner.specs.Crews.{crew_of};
ghost use Rattle.lucy_runner.specs.Growths.{added_for, HaveGrown, room_for, MayGrow, HasSpace, AreSpared, AreExtended, OfEach, AreFew, HaveSpared};

use crate::seat::Seat;
use lucy_host::Inputs;
use lucy_net::ActorKind;
use lucy_worker::Part;
use std::alloc::{AllocError, Global};

// The items that follow those of an input's actor, none for any other.
fn added_to<'a>(kind: &ActorKind, inputs: &'a Inputs) -> &'a [i64]
    ensures { result.now ≡ added_for kind.now inputs.now }
{
    match kind {
        ActorKind::Input(input) => inputs.get(*input),
        _ => &[],
    }
}

// How many items more an output puts out up to the horizon, 0 for all others.
fn room_of(part: &Part, instants: u64) -> u64
    requires { part.now.state.quota ≤ ones_to part.now.actor.firing instants }
    ensures { result ≡ room_for part.now.actor.kind (ones_to part.now.actor.firing instants - part.now.state.quota) }
{
    match &part.actor.kind {
        ActorKind::Output(_) => part.actor.firing.ones(instants) - part.state.quota,
        _ => 0,
    }
}

impl Seat {
    // Makes room for what each part gets.
    fn reserve(&mut self, alloc: Global, inputs: &Inputs, instants: u64) -> Result<(), AllocError>
        requires few { length self.old.worker.parts < 2 ^ 32 }
        requires may { All (MayGrow inputs.now instants) self.old.worker.parts }
        ensures spared { AreSpared self.old.worker.parts self.new.worker.parts }
        ensures ok { OnOk result (All (HasSpace inputs.now instants) self.new.worker.parts) }
    {
        for k in 0..self.worker.parts().len() {
            let part = &self.worker.parts()[k];
            let items = added_to(&part.actor.kind, inputs).len() as u64;
            let room = room_of(part, instants);
            self.worker.reserve(alloc, k as u32, items, room)?;
        }
        Ok(())
    }

    // Gives each part what it gets.
    fn extend(&mut self, inputs: &Inputs, instants: u64)
        requires few { length self.old.worker.parts < 2 ^ 32 }
        requires may { All (MayGrow inputs.now instants) self.old.worker.parts }
        requires space { All (HasSpace inputs.now instants) self.old.worker.parts }
        ensures { AreExtended inputs.now instants self.old.worker.parts self.new.worker.parts }
    {
        for k in 0..self.worker.parts().len() {
            let items = added_to(&self.worker.parts()[k].actor.kind, inputs);
            self.worker.extend(k as u32, items, instants);
        }
    }
}

// Makes room for what all parts get.
fn reserve_all(
    alloc: Global,
    seats: &mut [Seat],
    inputs: &Inputs,
    instants: u64,
) -> Result<(), AllocError>
    requires few { AreFew (crew_of seats.old) }
    requires may { OfEach (MayGrow inputs.now instants) (crew_of seats.old) }
    ensures spared { HaveSpared (crew_of seats.old) (crew_of seats.new) }
    ensures ok { OnOk result (OfEach (HasSpace inputs.now instants) (crew_of seats.new)) }
{
    for seat in seats.iter_mut() {
        seat.reserve(alloc, inputs, instants)?;
    }
    Ok(())
}

// Gives all parts what they get.
fn extend_all(seats: &mut [Seat], inputs: &Inputs, instants: u64)
    requires few { AreFew (crew_of seats.old) }
    requires may { OfEach (MayGrow inputs.now instants) (crew_of seats.old) }
    requires space { OfEach (HasSpace inputs.now instants) (crew_of seats.old) }
    ensures { HaveGrown (crew_of seats.old) (crew_of seats.new) inputs.now instants }
{
    for seat in seats.iter_mut() {
        seat.extend(inputs, instants);
    }
}

/// Appends to the inputs the items that follow, empties the outputs, and gives every actor the firings up to the horizon. Room for
/// all of it is made first, so a refusal leaves all as it was but for the room.
pub(crate) fn grow_all(
    alloc: Global,
    seats: &mut [Seat],
    inputs: &Inputs,
    instants: u64,
) -> Result<(), AllocError>
    requires few { AreFew (crew_of seats.old) }
    requires may { OfEach (MayGrow inputs.now instants) (crew_of seats.old) }
    ensures ok { OnOk result (HaveGrown (crew_of seats.old) (crew_of seats.new) inputs.now instants) }
    ensures refused { OnErr result (HaveSpared (crew_of seats.old) (crew_of seats.new)) }
{
    reserve_all(alloc, seats, inputs, instants)?;
    extend_all(seats, inputs, instants);
    Ok(())
}
