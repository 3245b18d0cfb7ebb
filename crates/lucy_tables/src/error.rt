// Why a text is no table.
ghost use Rattle.std.specs.Prelude.{◌≡◌};
ghost use Rattle.lucy_tables.specs.declared.error.TableError.TheVariants.{OutOfMemory};

use lucy_word::Limit;
use std::alloc::AllocError;

/// Why a text is no table.
#[derive(Clone, Copy, Debug, PartialEq, Eq)]
pub enum TableError {
    /// A field is no number of 64 bits. Its place is the offset of its first byte, from 0.
    BadNumber(u64),
    /// A limit is passed: `TableItems`.
    Limit(Limit),
    /// Memory ran out, which says nothing of the text.
    OutOfMemory,
}

impl From<AllocError> for TableError {
    ghost from_gives = { λ _ e. e ≡ OutOfMemory };

    fn from(_: AllocError) -> Self {
        TableError::OutOfMemory
    }
}
