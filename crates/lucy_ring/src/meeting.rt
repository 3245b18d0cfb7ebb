ghost use Rattle.std.specs.Prelude.{◌≡◌, ◌+◌, ◌≤◌, [], ◌++◌, length};
ghost use Rattle.rtrb.specs.Ring.{producer_capacity, consumer_capacity};
ghost use Rattle.lucy_ring.specs.Ring.{given, held, taken, known_slots, known, ring_of_giver, ring_of_taker, AreEnds};

use crate::giver::Giver;
use crate::giver_end::GiverEnd;
use crate::taker::Taker;
use crate::taker_end::TakerEnd;

/// Lets the two ends of one ring see each other: both then know all items that are held and all slots that are free. It
/// moves every held item once, and none where nothing was given or taken since the last meeting.
pub fn meet(giver: &mut Giver, taker: &mut Taker)
    requires ends { giver.old.ring ≡ taker.old.ring }
    ensures ends { giver.new.ring ≡ taker.new.ring }
    ensures fifo { taker.old.held ++ giver.old.given ≡ taker.old.taken ++ taker.new.held }
    ensures within { length taker.new.held ≤ taker.new.ring.capacity }
    ensures all_items { taker.new.known ≡ taker.new.held }
    ensures all_slots { giver.new.slots + length taker.new.held ≡ giver.new.ring.capacity }
    ensures anew { (giver.new.given ≡ []) × (taker.new.taken ≡ []) × (taker.new.returned ≡ 0) }
    ensures capacity { (giver.new.ring.capacity ≡ giver.old.ring.capacity) × (giver.new.ring.numbers_capacity ≡ giver.old.ring.numbers_capacity) }
{
    meet_ends(&mut giver.end, &mut taker.end);
}

#[tactic(auto, using(crate::proofs::Names::one_ring, crate::proofs::Names::one_name))]
fn meet_ends(giver: &mut GiverEnd, taker: &mut TakerEnd)
    requires ends { ring_of_giver giver.old ≡ ring_of_taker taker.old }
    ensures ends { ring_of_giver giver.new ≡ ring_of_taker taker.new }
    ensures fifo { held taker.old ++ given giver.old ≡ taken taker.old ++ held taker.new }
    ensures within { length (held taker.new) ≤ (ring_of_taker taker.new).capacity }
    ensures all_items { known taker.new ≡ held taker.new }
    ensures all_slots { known_slots giver.new + length (held taker.new) ≡ (ring_of_giver giver.new).capacity }
    ensures anew { (given giver.new ≡ []) × (taken taker.new ≡ []) × (taker.new.returned ≡ 0) }
    ensures capacity { ((ring_of_giver giver.new).capacity ≡ (ring_of_giver giver.old).capacity) × ((ring_of_giver giver.new).numbers_capacity ≡ (ring_of_giver giver.old).numbers_capacity) }
{
    bring_together(giver, taker);
}

fn bring_together(giver: &mut GiverEnd, taker: &mut TakerEnd)
    requires ends { AreEnds giver.old taker.old }
    ensures ends { AreEnds giver.new taker.new }
    ensures fifo { held taker.old ++ given giver.old ≡ taken taker.old ++ held taker.new }
    ensures all_items { known taker.new ≡ held taker.new }
    ensures within { length (held taker.new) ≤ consumer_capacity taker.new.items }
    ensures all_slots { known_slots giver.new + length (held taker.new) ≡ producer_capacity giver.new.items }
    ensures anew { (given giver.new ≡ []) × (taken taker.new ≡ []) × (taker.new.returned ≡ 0) }
    ensures capacity { (producer_capacity giver.new.items ≡ producer_capacity giver.old.items) × (consumer_capacity giver.new.numbers ≡ consumer_capacity giver.old.numbers) }
{
    if giver.is_still() && taker.is_still() {
        return;
    }
    look(giver, taker);
    taker.gather(&mut giver.items, giver.side.as_slice());
    let held = taker.side.len() as u32;
    giver.renew(&mut taker.numbers, held);
}

// Looks at the numbers alone, which shows that no more were fetched than were sent back, so that all items have room.
#[tactic(auto, using(crate::proofs::Names::giver_keeps, crate::proofs::Names::taker_keeps))]
fn look(giver: &mut GiverEnd, taker: &mut TakerEnd)
    requires ends { AreEnds giver.old taker.old }
    ensures ends { AreEnds giver.new taker.new }
    ensures lists { (given giver.new ≡ given giver.old) × (taken taker.new ≡ taken taker.old) × (held taker.new ≡ held taker.old) }
    ensures counts { giver.new.fetched ≤ taker.new.returned }
    ensures capacity { (producer_capacity giver.new.items ≡ producer_capacity giver.old.items) × (consumer_capacity giver.new.numbers ≡ consumer_capacity giver.old.numbers) }
{
    giver.numbers.slots_beside(&mut taker.numbers);
}
