// Why words are refused.
ghost use Rattle.std.specs.Prelude.{◌≡◌};

use lucy_word::Limit;
use std::alloc::{AllocError, AllocFailed};

/// Why words are refused, with the number of the first need that refuses them. Needs count from 0, instants from 1.
#[derive(Clone, Copy)]
pub enum CheckFault {
    /// The terms of an equation have different bits, at this instant first.
    Differs { need: u32, instant: u64 },
    /// The terms of an adaptability have different rates.
    Rates { need: u32 },
    /// The second term of an adaptability has had more ones than the first, at this instant first.
    Late { need: u32, instant: u64 },
    /// The computed length of a term passes `Word`; else the instants that decide about the words of the two terms, their
    /// greater prefix length and the least common multiple of the lengths of their periods, pass `Compare`.
    Limit { need: u32, limit: Limit },
    /// Memory ran out, which says nothing of the needs.
    OutOfMemory,
}

impl From<AllocError> for CheckFault {
    ghost use Rattle.lucy_check.specs.declared.fault.CheckFault.TheVariants.{OutOfMemory};

    ghost from_gives = { λ _ e. e ≡ OutOfMemory };

    fn from(_: AllocError) -> Self {
        CheckFault::OutOfMemory
    }
}

impl<T: Drop> From<AllocFailed<T>> for CheckFault {
    ghost use Rattle.lucy_check.specs.declared.fault.CheckFault.TheVariants.{OutOfMemory};

    ghost from_gives = { λ _ e. e ≡ OutOfMemory };

    fn from(_: AllocFailed<T>) -> Self {
        CheckFault::OutOfMemory
    }
}
