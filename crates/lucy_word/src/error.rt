ghost use Rattle.std.specs.Prelude.{◌≡◌};

use std::alloc::{AllocError, AllocFailed};

/// Why there is no word.
#[derive(Clone, Copy)]
pub enum WordError {
    /// The text spells no word. The number is an offset in bytes from 0: that of the first byte that doesn't fit, or the
    /// text's length where more bytes are missing, or that of the first digit of a count that is 0, whichever is least.
    BadWord(u64),
    /// More bits than are allowed: `Limit::Written` for a written word, each digit as often as its count says, else
    /// `Limit::Word`.
    TooLong,
    /// The period has no one.
    NoOne,
    /// Memory ran out, which says nothing of the word.
    OutOfMemory,
}

impl From<AllocError> for WordError {
    ghost use Rattle.lucy_word.specs.declared.error.WordError.TheVariants.{OutOfMemory};

    ghost from_gives = { λ _ e. e ≡ OutOfMemory };

    fn from(_: AllocError) -> Self {
        WordError::OutOfMemory
    }
}
