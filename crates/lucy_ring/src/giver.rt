ghost use Rattle.std.specs.Prelude.{◌≡◌, ◌+◌, ◌<◌, ◌≤◌, ◌++◌, ◌∷◌, [], length, IfErr, OnOk, OnErr, IsOk};
ghost use Rattle.lucy_ring.specs.Views.{most_between};

use crate::giver_end::GiverEnd;
use std::marker::Model;

/// The end of a ring that gives. It may be moved to another thread. It counts from the last meeting of the two ends, or
/// from the making of the ring.
#[derive(Drop)]
pub struct Giver {
    pub(crate) end: GiverEnd,
}

impl Model for Giver {
    ghost use Rattle.lucy_ring.specs.Views.{GiverView};

    ghost Value = { GiverView };

    ghost use Rattle.lucy_ring.specs.Ring.{giver_view};

    ghost view = { λ g. giver_view g.end };
}

impl Giver {
    /// Gives an item, or hands it back where no free slot is found. A slot that is not known yet may be found here.
    #[inline(always)]
    pub fn give(&mut self, item: i64) -> Result<(), i64>
        requires few { length self.old.given < most_between }
        ensures ring { self.new.ring ≡ self.old.ring }
        ensures given { OnOk result (self.new.given ≡ self.old.given ++ item ∷ []) }
        ensures slots { OnOk result (self.old.slots ≤ self.new.slots + 1) }
        ensures handed_back { IfErr result (λ e. e ≡ item) }
        ensures unchanged { OnErr result (self.new ≡ self.old) }
        ensures succeeds { 0 < self.old.slots → IsOk result }
    {
        self.end.give(item)
    }
}
