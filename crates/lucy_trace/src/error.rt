// Why a log is refused.
ghost use Rattle.std.specs.Prelude.{◌≡◌};
ghost use Rattle.lucy_trace.specs.declared.error.TraceError.TheVariants.{OutOfMemory};

use std::alloc::{AllocError, AllocFailed};

/// Why a log is refused.
#[derive(Clone, Copy)]
pub enum TraceError {
    /// A field is no number of an actor. Its place is the offset of its first byte, from 0.
    BadNumber(u64),
    /// The event of this number, which counts from 1, isn't possible behind those before it; it is this actor's.
    NotPossible { event: u64, actor: u32 },
    /// Memory ran out.
    OutOfMemory,
}

impl From<AllocError> for TraceError {
    ghost from_gives = { λ _ e. e ≡ OutOfMemory };

    fn from(_: AllocError) -> Self {
        TraceError::OutOfMemory
    }
}
