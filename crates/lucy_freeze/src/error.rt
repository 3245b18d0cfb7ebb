// Why a text has no frozen text.
ghost use Rattle.std.specs.Prelude.{◌≡◌};
ghost use Rattle.lucy_freeze.specs.declared.error.FreezeError.TheVariants as error;

use lucy_front::Refusal;
use std::alloc::AllocError;

/// Why a text has no frozen text.
#[derive(Drop)]
pub enum FreezeError {
    /// The text is refused.
    Program(Refusal),
    /// The text with its clocks written out is refused: it passes a limit, or a word of it is longer than a written one may be.
    Text(Refusal),
    /// The text with its clocks written out is accepted, but not found to be the same program.
    Differs,
    /// Memory ran out.
    OutOfMemory,
}

impl From<AllocError> for FreezeError {
    ghost from_gives = { λ _ e. e ≡ error.OutOfMemory };

    fn from(_: AllocError) -> Self {
        FreezeError::OutOfMemory
    }
}
