// A route over all parts, and passes along it by one thread.
ghost use Rattle.std.specs.Prelude.{◌<◌, ◌≤◌, IsTrue, length, slice_index_or};
ghost use Rattle.lucy_host.specs.Host.{Serves, lent};
ghost use Rattle.lucy_host.specs.Operators.{kinds_of};
ghost use Rattle.lucy_runner.specs.declared.seat.Seat.{Seat};
ghost use Rattle.lucy_runner.specs.Crews.{seated, crew_of};
ghost use Rattle.lucy_runner.specs.Turns.{AreServed, HaveAllRun};
ghost use Rattle.lucy_runner.specs.Seats.{full_round, most_passed, most_along};

use crate::place::Place;
use crate::seat::Seat;
use lucy_host::Host;
use lucy_net::Schedule;
use lucy_worker::Heading;
use std::alloc::{AllocError, Global};

// Puts the place of an actor behind those that are there, if it is missing.
fn visit(
    route: &mut Vec<Place>,
    missing: &mut [bool],
    places: &[Place],
    actor: usize,
) -> Result<(), AllocError> {
    if actor < missing.len() && actor < places.len() && missing[actor] {
        missing[actor] = false;
        route.push(places[actor])?;
    }
    Ok(())
}

// Those of the actors of an instant's events, by their last events in it: with its last event an actor has all that it needs there.
fn visit_each(
    route: &mut Vec<Place>,
    missing: &mut [bool],
    places: &[Place],
    actors: &[u32],
) -> Result<(), AllocError> {
    let from = route.len();
    for actor in actors.iter().rev() {
        visit(route, missing, places, *actor as usize)?;
    }
    let list = route.as_mut_slice();
    if from < list.len() {
        list[from..].reverse();
    }
    Ok(())
}

/// The places of all actors by the first instants in which they have events, and there by their last ones, those without events last. So
/// one pass along it mostly moves an item as far as it goes in an instant. Nothing is claimed of it.
pub(crate) fn route_of(
    alloc: Global,
    schedule: &Schedule,
    places: &[Place],
) -> Result<Vec<Place>, AllocError> {
    let mut missing = vec![in alloc; true; places.len()]?;
    let mut route = Vec::with_capacity(alloc, places.len())?;
    let (prefix, period) = schedule.lengths();
    'instants: for before in 0..prefix.saturating_add(period) {
        if route.len() >= places.len() {
            break;
        }
        let actors = schedule.events(before + 1);
        visit_each(&mut route, &mut missing, places, actors)?;
    }
    for actor in 0..places.len() {
        visit(&mut route, &mut missing, places, actor)?;
    }
    Ok(route)
}

/// Behind so many moves along the route a round makes no pass more.
pub(crate) const FULL_ROUND: u64 = 1 << 40;

// A route has no more places, as a net has no more actors.
const MOST_PLACES: usize = 16_384;

/// Passes over the route, back and on, until one moves nothing, or so many moves are made. Answers the number of moves.
pub(crate) fn passes_along<F: Fn(u32, i64, i64) -> i64 + Sync>(
    seats: &mut [Seat],
    route: &[Place],
    host: &Host<F>,
    most: u64,
) -> u64
    requires serves { Serves F.pre F.post host.now }
    requires most { most ≤ full_round }
    requires served { AreServed (length (lent host.now)) (crew_of seats.old) }
    ensures run { HaveAllRun (kinds_of (lent host.now)) (crew_of seats.old) (crew_of seats.new) result }
    ensures few { result ≤ most_along }
{
    let mut moves = 0;
    let mut more = 1;
    let mut heading = Heading::first();
    while more > 0 && moves < most {
        more = pass_along(seats, route, host, heading.back);
        moves += more;
        heading = heading.after(more);
    }
    moves
}

// All possible moves of the part at each place of the route, from the first to the last or, if `back`, from the last to the first.
fn pass_along<F: Fn(u32, i64, i64) -> i64 + Sync>(
    seats: &mut [Seat],
    route: &[Place],
    host: &Host<F>,
    back: bool,
) -> u64
    requires serves { Serves F.pre F.post host.now }
    requires served { AreServed (length (lent host.now)) (crew_of seats.old) }
    ensures run { HaveAllRun (kinds_of (lent host.now)) (crew_of seats.old) (crew_of seats.new) result }
    ensures few { result ≤ most_passed }
{
    let count = route.len().min(MOST_PLACES);
    let mut moves = 0;
    for k in 0..count {
        let at = if back { count - 1 - k } else { k };
        let place = route[at];
        if is_there(seats, place) {
            moves += seats[place.seat as usize].worker.go_on(host, place.part);
        }
    }
    moves
}

// Whether there is a part at a place.
#[inline]
fn is_there(seats: &[Seat], place: Place) -> bool
    ensures { IsTrue result → (place.seat < length seats.now) × ((d : Seat) → place.part < length (seated (slice_index_or seats.now place.seat d))) }
{
    let seat = place.seat as usize;
    seat < seats.len() && (place.part as usize) < seats[seat].worker.parts().len()
}
