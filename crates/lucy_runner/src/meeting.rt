// Meetings of the ends of rings.
ghost use Rattle.std.specs.Prelude.{◌≡◌, ◌≤◌, ◌<◌, length};
ghost use Rattle.lucy_worker.specs.Meets.{HasGiver, HasTaker, AreOfOneRing};
ghost use Rattle.lucy_runner.specs.Crews.{crew_of, AreJoined};
ghost use Rattle.lucy_runner.specs.Turns.{HaveAllMet};
ghost use Rattle.lucy_runner.specs.Seats.{parts_at, HaveMetAt};

use crate::place::{Ends, Place};
use crate::seat::Seat;
use lucy_net::RingSpec;
use lucy_worker::{EndPlace, meet_between};

/// Lets the two ends of every ring meet.
pub(crate) fn meet_all(seats: &mut [Seat], rings: &[RingSpec], places: &[Place], ends: &[Ends])
    requires joined { AreJoined (crew_of seats.old) places.now ends.now rings.now }
    ensures { HaveAllMet (crew_of seats.old) (crew_of seats.new) places.now ends.now rings.now }
{
    for (r, ring) in rings.iter().enumerate() {
        let from = places[ring.from as usize];
        let to = places[ring.to as usize];
        let at = ends[r];
        let giver = EndPlace {
            part: from.part,
            number: at.giver,
        };
        let taker = EndPlace {
            part: to.part,
            number: at.taker,
        };
        meet_at(seats, from.seat as usize, giver, to.seat as usize, taker);
    }
}

// Lets a giver of the worker of one seat and a taker of that of another, or of the same, meet. They are the ends of one ring.
fn meet_at(seats: &mut [Seat], from: usize, giver: EndPlace, to: usize, taker: EndPlace)
    requires seats { (from < length seats.old) × (to < length seats.old) }
    requires giver { HasGiver (parts_at (crew_of seats.old) from) giver }
    requires taker { HasTaker (parts_at (crew_of seats.old) to) taker }
    requires ring { AreOfOneRing (parts_at (crew_of seats.old) from) giver (parts_at (crew_of seats.old) to) taker }
    ensures { HaveMetAt (crew_of seats.old) from giver to taker (crew_of seats.new) }
{
    if from == to {
        seats[from].worker.meet_own(giver, taker);
    } else if from < to {
        let (left, right) = seats.split_at_mut(to);
        meet_between(&mut left[from].worker, giver, &mut right[0].worker, taker);
    } else {
        let (left, right) = seats.split_at_mut(from);
        meet_between(&mut right[0].worker, giver, &mut left[to].worker, taker);
    }
}
