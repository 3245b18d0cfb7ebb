// The two ends of a ring.
ghost use Rattle.std.specs.Prelude.{◌≡◌, ◌≤◌, [], IfOk, ◌+◌, ◌<◌, ◌++◌, ◌∷◌, length, IfErr, OnOk, OnErr, IsOk, ◌⊎◌, IfSome, IfNone, IsSome};
ghost use Rattle.lucy_word.specs.Limits.{limit_number};
ghost use Rattle.lucy_word.specs.declared.limit.Limit.TheVariants as limit;
ghost use Rattle.lucy_ring.specs.Views.{most_between};
ghost use mathlib.Core.List.{IsPrefix};

use lucy_ring::{Giver, Taker};
use std::alloc::{AllocError, Global};

/// Pins `lucy_ring::ring`.
pub fn ring(alloc: Global, capacity: u32) -> Result<(Giver, Taker), AllocError>
    requires within { (1 ≤ capacity) × (capacity ≤ limit_number limit.Slots) }
    ensures ends { IfOk result (λ r. r.0.ring ≡ r.1.ring) }
    ensures slots { IfOk result (λ r. (r.0.ring.capacity ≡ capacity) × (r.0.ring.numbers_capacity ≡ capacity)) }
    ensures giver { IfOk result (λ r. (r.0.given ≡ []) × (r.0.slots ≡ capacity)) }
    ensures taker { IfOk result (λ r. (r.1.held ≡ []) × (r.1.taken ≡ []) × (r.1.known ≡ []) × (r.1.returned ≡ 0) × (r.1.return_slots ≡ capacity)) }
{
    lucy_ring::ring(alloc, capacity)
}

/// Pins `lucy_ring::Giver::give`.
pub fn give(giver: &mut Giver, item: i64) -> Result<(), i64>
    requires few { length giver.old.given < most_between }
    ensures ring { giver.new.ring ≡ giver.old.ring }
    ensures given { OnOk result (giver.new.given ≡ giver.old.given ++ item ∷ []) }
    ensures slots { OnOk result (giver.old.slots ≤ giver.new.slots + 1) }
    ensures handed_back { IfErr result (λ e. e ≡ item) }
    ensures unchanged { OnErr result (giver.new ≡ giver.old) }
    ensures succeeds { 0 < giver.old.slots → IsOk result }
{
    giver.give(item)
}

/// Pins `lucy_ring::Taker::take`.
pub fn take(taker: &mut Taker) -> Option<i64>
    requires few { length taker.old.taken < most_between }
    ensures ring { taker.new.ring ≡ taker.old.ring }
    ensures held { taker.new.held ≡ taker.old.held }
    ensures taken { IfSome result (λ x. taker.new.taken ≡ taker.old.taken ++ x ∷ []) }
    ensures oldest { IfSome result (λ x. IsPrefix taker.old.known (x ∷ taker.new.known)) }
    ensures sent_back { IfSome result (λ _. (taker.new.returned ≡ taker.old.returned + 1) ⊎ (taker.new.return_slots ≡ 0)) }
    ensures unchanged { IfNone result (taker.new ≡ taker.old) }
    ensures succeeds { 0 < length taker.old.known → IsSome result }
{
    taker.take()
}

/// Pins `lucy_ring::meet`.
pub fn meet(giver: &mut Giver, taker: &mut Taker)
    requires ends { giver.old.ring ≡ taker.old.ring }
    ensures ends { giver.new.ring ≡ taker.new.ring }
    ensures fifo { taker.old.held ++ giver.old.given ≡ taker.old.taken ++ taker.new.held }
    ensures within { length taker.new.held ≤ taker.new.ring.capacity }
    ensures all_items { taker.new.known ≡ taker.new.held }
    ensures all_slots { giver.new.slots + length taker.new.held ≡ giver.new.ring.capacity }
    ensures anew { (giver.new.given ≡ []) × (taker.new.taken ≡ []) × (taker.new.returned ≡ 0) }
    ensures capacity { (giver.new.ring.capacity ≡ giver.old.ring.capacity) × (giver.new.ring.numbers_capacity ≡ giver.old.ring.numbers_capacity) }
{
    lucy_ring::meet(giver, taker);
}
