ghost use Rattle.std.specs.Prelude.{◌≡◌};

use lucy_text::Failed;
use std::alloc::{AllocError, AllocFailed};

/// Why not all output lines were written.
#[derive(Clone, Copy, Debug, PartialEq, Eq)]
pub enum OutputError {
    /// A write failed, and the sink counted a fault.
    Failed,
    /// Memory ran out, before anything was written.
    OutOfMemory,
}

impl From<AllocError> for OutputError {
    ghost use Rattle.lucy_lines.specs.declared.error.OutputError.TheVariants.{OutOfMemory};

    ghost from_gives = { λ _ e. e ≡ OutOfMemory };

    fn from(_: AllocError) -> Self {
        OutputError::OutOfMemory
    }
}

impl<T: Drop> From<AllocFailed<T>> for OutputError {
    ghost use Rattle.lucy_lines.specs.declared.error.OutputError.TheVariants.{OutOfMemory};

    ghost from_gives = { λ _ e. e ≡ OutOfMemory };

    fn from(_: AllocFailed<T>) -> Self {
        OutputError::OutOfMemory
    }
}

impl From<Failed> for OutputError {
    ghost use Rattle.lucy_lines.specs.declared.error.OutputError.TheVariants as error;

    ghost from_gives = { λ _ e. e ≡ error.Failed };

    fn from(_: Failed) -> Self {
        OutputError::Failed
    }
}
