// Why there are no lists.
ghost use Rattle.std.specs.Prelude.{◌≡◌};
ghost use Rattle.lucy_kahn.specs.declared.error.KahnError.TheVariants as error;

use lucy_word::Limit;
use std::alloc::{AllocError, AllocFailed};

/// Why an iterate isn't given.
#[derive(Clone, Copy)]
pub enum KahnError {
    /// A list has more items than `KahnItems` allows: 65,536.
    Limit(Limit),
    OutOfMemory,
}

impl From<AllocError> for KahnError {
    ghost from_gives = { λ _ e. e ≡ error.OutOfMemory };

    fn from(_: AllocError) -> Self {
        KahnError::OutOfMemory
    }
}

impl<T: Drop> From<AllocFailed<T>> for KahnError {
    ghost from_gives = { λ _ e. e ≡ error.OutOfMemory };

    fn from(_: AllocFailed<T>) -> Self {
        KahnError::OutOfMemory
    }
}
