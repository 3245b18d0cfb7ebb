ghost use Rattle.std.specs.Prelude.{◌≡◌, ◌≤◌, [], IfOk};
ghost use Rattle.lucy_ring.specs.Ring.{given, held, taken, known_slots, known, return_slots, ring_of_giver, ring_of_taker};
ghost use Rattle.lucy_word.specs.Limits.{limit_number};
ghost use Rattle.lucy_word.specs.declared.limit.Limit.TheVariants as limit;

use crate::giver::Giver;
use crate::giver_end::GiverEnd;
use crate::taker::Taker;
use crate::taker_end::TakerEnd;
use rtrb::RingBuffer;
use std::alloc::{AllocError, Global};

/// An empty ring with room for `capacity` items, from 1 to the number of `Limit::Slots`, and for as many numbers that go
/// back, by its two ends. All memory that they ever use is taken here.
pub fn ring(alloc: Global, capacity: u32) -> Result<(Giver, Taker), AllocError>
    requires within { (1 ≤ capacity) × (capacity ≤ limit_number limit.Slots) }
    ensures ends { IfOk result (λ r. r.0.ring ≡ r.1.ring) }
    ensures slots { IfOk result (λ r. (r.0.ring.capacity ≡ capacity) × (r.0.ring.numbers_capacity ≡ capacity)) }
    ensures giver { IfOk result (λ r. (r.0.given ≡ []) × (r.0.slots ≡ capacity)) }
    ensures taker { IfOk result (λ r. (r.1.held ≡ []) × (r.1.taken ≡ []) × (r.1.known ≡ []) × (r.1.returned ≡ 0) × (r.1.return_slots ≡ capacity)) }
{
    let (giver, taker) = ends(alloc, capacity)?;
    Ok((Giver { end: giver }, Taker { end: taker }))
}

fn ends(alloc: Global, capacity: u32) -> Result<(GiverEnd, TakerEnd), AllocError>
    requires within { (1 ≤ capacity) × (capacity ≤ limit_number limit.Slots) }
    ensures ends { IfOk result (λ r. ring_of_giver r.0 ≡ ring_of_taker r.1) }
    ensures slots { IfOk result (λ r. ((ring_of_giver r.0).capacity ≡ capacity) × ((ring_of_giver r.0).numbers_capacity ≡ capacity)) }
    ensures giver { IfOk result (λ r. (given r.0 ≡ []) × (known_slots r.0 ≡ capacity)) }
    ensures taker { IfOk result (λ r. (held r.1 ≡ []) × (taken r.1 ≡ []) × (known r.1 ≡ []) × (r.1.returned ≡ 0) × (return_slots r.1 ≡ capacity)) }
{
    let room = capacity as usize;
    let (items_in, items_out) = RingBuffer::new(alloc, room)?;
    let (numbers_in, numbers_out) = RingBuffer::new(alloc, room)?;
    let given = Vec::with_capacity(alloc, room)?;
    let held = Vec::with_capacity(alloc, room)?;
    let giver = GiverEnd::new(items_in, numbers_out, given);
    let taker = TakerEnd::new(items_out, numbers_in, held);
    Ok((giver, taker))
}
