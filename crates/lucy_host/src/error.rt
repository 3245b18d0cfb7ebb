ghost use Rattle.std.specs.Prelude.{◌≡◌};

use std::alloc::{AllocError, AllocFailed};

/// Why an operator was not added.
#[derive(Clone, Copy)]
pub enum OpsError {
    /// There is an operator of the name already.
    Twice,
    /// Memory ran out, which says nothing of the name.
    OutOfMemory,
}

impl From<AllocError> for OpsError {
    ghost use Rattle.lucy_host.specs.declared.error.OpsError.TheVariants.{OutOfMemory};

    ghost from_gives = { λ _ e. e ≡ OutOfMemory };

    fn from(_: AllocError) -> Self {
        OpsError::OutOfMemory
    }
}

impl<T: Drop> From<AllocFailed<T>> for OpsError {
    ghost use Rattle.lucy_host.specs.declared.error.OpsError.TheVariants.{OutOfMemory};

    ghost from_gives = { λ _ e. e ≡ OutOfMemory };

    fn from(_: AllocFailed<T>) -> Self {
        OpsError::OutOfMemory
    }
}
