ghost use Rattle.std.specs.Prelude.{◌≡◌};

use lucy_word::Limit;
use std::alloc::{AllocError, AllocFailed};

/// An item: the actor that gives it, counted from 0, and its number among those that the actor gives, counted from 1.
#[derive(Clone, Copy)]
pub struct Item {
    pub actor: u32,
    pub number: u64,
}

/// Why there is no schedule.
#[derive(Drop)]
pub enum CauseFault {
    /// The limit `Schedule` or `Events` is passed.
    Limit(Limit),
    /// Items of this instant depend on each other: each on the next one, and the last one on the first, which is the one of the
    /// least actor number. No item of an earlier instant reaches itself.
    Cycle { instant: u64, items: Vec<Item> },
    /// Memory ran out.
    OutOfMemory,
}

impl From<AllocError> for CauseFault {
    ghost use Rattle.lucy_net.specs.declared.error.CauseFault.TheVariants.{OutOfMemory};

    ghost from_gives = { λ _ e. e ≡ OutOfMemory };

    fn from(_: AllocError) -> Self {
        CauseFault::OutOfMemory
    }
}

impl<T: Drop> From<AllocFailed<T>> for CauseFault {
    ghost use Rattle.lucy_net.specs.declared.error.CauseFault.TheVariants.{OutOfMemory};

    ghost from_gives = { λ _ e. e ≡ OutOfMemory };

    fn from(_: AllocFailed<T>) -> Self {
        CauseFault::OutOfMemory
    }
}
