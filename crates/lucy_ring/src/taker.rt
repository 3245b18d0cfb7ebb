ghost use Rattle.std.specs.Prelude.{◌≡◌, ◌⊎◌, ◌+◌, ◌<◌, ◌++◌, ◌∷◌, [], length, IfSome, IfNone, IsSome};
ghost use mathlib.Core.List.{IsPrefix};
ghost use Rattle.lucy_ring.specs.Views.{most_between};

use crate::taker_end::TakerEnd;
use std::marker::Model;

/// The end of a ring that takes. It may be moved to another thread. It counts from the last meeting of the two ends, or
/// from the making of the ring.
#[derive(Drop)]
pub struct Taker {
    pub(crate) end: TakerEnd,
}

impl Model for Taker {
    ghost use Rattle.lucy_ring.specs.Views.{TakerView};

    ghost Value = { TakerView };

    ghost use Rattle.lucy_ring.specs.Ring.{taker_view};

    ghost view = { λ t. taker_view t.end };
}

impl Taker {
    /// Takes the oldest item, or answers None where none is found. An item that is not known yet may be found here. For an
    /// item that is taken a number goes back, unless no slot for one is found.
    #[inline(always)]
    pub fn take(&mut self) -> Option<i64>
        requires few { length self.old.taken < most_between }
        ensures ring { self.new.ring ≡ self.old.ring }
        ensures held { self.new.held ≡ self.old.held }
        ensures taken { IfSome result (λ x. self.new.taken ≡ self.old.taken ++ x ∷ []) }
        ensures oldest { IfSome result (λ x. IsPrefix self.old.known (x ∷ self.new.known)) }
        ensures sent_back { IfSome result (λ _. (self.new.returned ≡ self.old.returned + 1) ⊎ (self.new.return_slots ≡ 0)) }
        ensures unchanged { IfNone result (self.new ≡ self.old) }
        ensures succeeds { 0 < length self.old.known → IsSome result }
    {
        self.end.take()
    }
}
