ghost use Rattle.std.specs.Prelude.{◌≡◌, ◌≤◌, ◌↔◌, IsTrue, Contains};
ghost use Rattle.lucy_text.specs.Outside.{one_more, after_call};

use crate::Failed;

/// The calls so far, of which the ones with listed numbers fail. Numbers begin at 1, and past the
/// greatest u64 the number stands still.
#[derive(Drop)]
pub(crate) struct Calls {
    pub(crate) fails: Vec<u64>,
    pub(crate) made: u64,
    pub(crate) faults: u64,
    /// Those from the first on that met the end or failed.
    pub(crate) since_stop: u64,
}

impl Calls {
    pub(crate) fn new(fails: Vec<u64>) -> Calls
        ensures { result ≡ record { fails = fails; made = 0; faults = 0; since_stop = 0 } }
    {
        Calls {
            fails,
            made: 0,
            faults: 0,
            since_stop: 0,
        }
    }

    /// Counts a call, and says whether it is one that fails.
    pub(crate) fn next_fails(&mut self) -> bool
        ensures listed { IsTrue result ↔ Contains self.old.fails.items (one_more self.old.made) }
        ensures counted { self.new ≡ record self.old { made = one_more self.old.made } }
    {
        self.made = self.made.saturating_add(1);
        self.fails.contains(&self.made)
    }

    /// Counts a fault.
    pub(crate) fn fault(&mut self) -> Failed
        ensures counted { self.new ≡ record self.old {
          faults = one_more self.old.faults;
          since_stop = one_more self.old.since_stop;
        } }
        ensures never_falls { self.old.faults ≤ self.new.faults }
    {
        self.faults = self.faults.saturating_add(1);
        self.since_stop = self.since_stop.saturating_add(1);
        Failed
    }

    /// Notes a call that went well, and whether it met the end.
    pub(crate) fn went(&mut self, ends: bool)
        ensures { self.new ≡ record self.old { since_stop = after_call ends self.old.since_stop } }
    {
        if ends || self.since_stop > 0 {
            self.since_stop = self.since_stop.saturating_add(1);
        }
    }
}
