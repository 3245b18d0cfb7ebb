// What a runner is made of.
ghost use Rattle.std.specs.Prelude.{◌≡◌, ◌≤◌, ◌<◌, length, All, IfOk};
ghost use Rattle.lucy_word.specs.Limits.{limit_number};
ghost use Rattle.lucy_word.specs.declared.limit.Limit.TheVariants as limit;
ghost use Rattle.lucy_net.specs.Proper.{IsProper, IsSupplied};
ghost use Rattle.lucy_runner.specs.Views.{most_workers};
ghost use Rattle.lucy_runner.specs.Homes.{crew_by, actors_by};
ghost use Rattle.lucy_runner.specs.Crews.{crew_of};
ghost use Rattle.lucy_runner.specs.Making.{AreMade};
ghost use Rattle.lucy_runner.specs.Standing.{AreOutputs};

use crate::beginning::first_parts;
use crate::joining::join_all;
use crate::outputs::outputs_of;
use crate::place::{Ends, Place};
use crate::route::route_of;
use crate::seat::Seat;
use crate::sitting::seat_parts;
use lucy_core::CoreParts;
use std::alloc::{AllocError, Global};

/// The actors of a net in the seats of their homes, where they, their rings' ends and the outputs are, and a route over all.
#[derive(Drop)]
pub(crate) struct Crew {
    pub seats: Vec<Seat>,
    pub places: Vec<Place>,
    pub ends: Vec<Ends>,
    pub outputs: Vec<u32>,
    pub route: Vec<Place>,
}

/// The actors of a net, each in the worker of its home, at their beginning, with empty rings of size plus one slots and the items
/// of the inputs; with them the numbers of the outputs, and the route along all.
pub(crate) fn seat_all(
    alloc: Global,
    core: &CoreParts,
    workers: u32,
    homes: &[u32],
) -> Result<Crew, AllocError>
    requires proper { IsProper core.now.net }
    requires supplied { IsSupplied core.now.inputs core.now.net core.now.instants }
    requires early { core.now.instants ≤ limit_number limit.Instants }
    requires workers { workers ≤ most_workers }
    requires homes { length homes.now ≡ length core.now.net.actors }
    requires each { All (λ home. home < workers) homes.now }
    ensures made { IfOk result (λ crew. AreMade core.now.net core.now.inputs core.now.instants (crew_of crew.seats.items) crew.places.items crew.ends.items) }
    ensures homed { IfOk result (λ crew. actors_by (crew_of crew.seats.items) ≡ crew_by workers homes.now) }
    ensures outputs { IfOk result (λ crew. AreOutputs core.now.net.actors crew.outputs.items) }
{
    let mut parts = first_parts(alloc, core.net.actors.list(), &core.inputs, core.instants)?;
    let ends = join_all(alloc, core.net.rings.list(), parts.as_mut_slice())?;
    let (seats, places) = seat_parts(alloc, parts, workers, homes)?;
    let outputs = outputs_of(alloc, core.net.actors.list())?;
    let route = route_of(alloc, &core.schedule, &places)?;
    Ok(Crew {
        seats,
        places,
        ends,
        outputs,
        route,
    })
}
