// Ends of one list of parts.
ghost use Rattle.std.specs.Prelude.{◌≡◌};
ghost use Rattle.lucy_ring.specs.Views.{GiverView, TakerView};
ghost use Rattle.lucy_worker.specs.Meets.{HasGiver, HasTaker, AreOfOneRing, HaveMet, MetWithin, with_giver, with_taker};
ghost use Rattle.lucy_worker.specs.Readiness.{AreReady, AreTwoEnds};

use crate::part::Part;
use crate::place::EndPlace;
use lucy_ring::meet;

// Lets a giver and a taker of these parts meet.
pub(crate) fn meet_within(parts: &mut [Part], giver: EndPlace, taker: EndPlace)
    requires ready { AreReady parts.old }
    requires giver { HasGiver parts.old giver }
    requires taker { HasTaker parts.old taker }
    requires ring { AreOfOneRing parts.old giver parts.old taker }
    ensures { AreReady parts.new × MetWithin parts.old giver taker parts.new }
{
    let (from, to) = (giver.part as usize, taker.part as usize);
    if from == to {
        let part = &mut parts[from];
        meet(
            &mut part.givers[giver.number as usize],
            &mut part.takers[taker.number as usize],
        );
    } else if from < to {
        let (left, right) = parts.split_at_mut(to);
        meet_two(&mut left[from], giver.number, &mut right[0], taker.number);
    } else {
        let (left, right) = parts.split_at_mut(from);
        meet_two(&mut right[0], giver.number, &mut left[to], taker.number);
    }
}

// Lets a giver of one part and a taker of another meet.
fn meet_two(first: &mut Part, giver: u32, second: &mut Part, taker: u32)
    requires { (g : GiverView) × (t : TakerView) × AreTwoEnds first.old giver second.old taker g t }
    ensures { (g : GiverView) (t : TakerView) → AreTwoEnds first.old giver second.old taker g t →
        (h : GiverView) × (u : TakerView) × HaveMet g t h u × (first.new ≡ with_giver first.old giver h) × (second.new ≡ with_taker second.old taker u) }
{
    meet(
        &mut first.givers[giver as usize],
        &mut second.takers[taker as usize],
    );
}
