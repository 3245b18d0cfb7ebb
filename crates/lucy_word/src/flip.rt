ghost use Rattle.std.specs.Prelude.{◌≡◌, ◌⊎◌, ◌<◌, length, IfOk, IfErr};
ghost use Rattle.lucy_word.specs.Bits.{ones_in};
ghost use Rattle.lucy_word.specs.Shortest.{IsShortest};
ghost use Rattle.lucy_word.specs.Stored.{IsStored};
ghost use Rattle.lucy_word.specs.Complement.{IsComplement, turned};

use crate::{Word, WordError};
use std::alloc::{AllocError, Global};

/// The word with every bit turned, where its period has a zero.
pub fn turned(alloc: Global, word: &Word) -> Result<Word, AllocError>
    requires { ones_in word.now.period < length word.now.period }
    ensures is { IfOk result (λ w. w ≡ turned word.now) }
    ensures stored { IfOk result IsStored }
{
    let prefix = word.prefix.turned(alloc)?;
    let period = word.period.turned(alloc)?;
    Ok(Word { prefix, period })
}

/// The word `not a`, with every bit turned. `NoOne` comes where the period of `a` has no zero. It never answers `BadWord`
/// or `TooLong`.
pub fn complement(alloc: Global, a: &Word) -> Result<Word, WordError>
    ensures ok { IfOk result (IsComplement a.now) }
    ensures exact { IfOk result (λ w. w ≡ turned a.now) }
    ensures shortest { IfOk result IsShortest }
    ensures stored { IfOk result IsStored }
    ensures zeros { IfOk result (λ w. ones_in a.now.period ≡ length a.now.period → ⊥) }
    ensures refused { IfErr result (λ e. (e ≡ WordError.OutOfMemory) ⊎ ((e ≡ WordError.NoOne) × (ones_in a.now.period ≡ length a.now.period))) }
{
    if a.period.total() == a.period.len() as u64 {
        return Err(WordError::NoOne);
    }
    Ok(turned(alloc, a)?)
}
