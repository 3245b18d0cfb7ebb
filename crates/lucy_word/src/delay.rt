// Words of what comes late.
ghost use Rattle.std.specs.Prelude.{◌≡◌, ◌<◌, IfOk};
ghost use Rattle.lucy_word.specs.Always.{delayed};
ghost use Rattle.lucy_word.specs.Bits.{most_bits};
ghost use Rattle.lucy_word.specs.Stored.{IsStored};

use crate::Word;
use crate::limbs::Limbs;
use crate::packed::Packed;
use std::alloc::{AllocError, Global};

/// The word `0^n(1)`: so many zeros, fewer bits than `Limit::Word` allows, and then ones for ever.
pub fn delayed(alloc: Global, zeros: u64) -> Result<Word, AllocError>
    requires { zeros < most_bits }
    ensures is { IfOk result (λ w. w ≡ delayed zeros) }
    ensures stored { IfOk result IsStored }
{
    let mut made = Packed::new(alloc);
    made.push_run(false, zeros as usize)?;
    let prefix = Limbs::count(alloc, made)?;
    let period = Limbs::new(alloc, &[true])?;
    Ok(Word { prefix, period })
}
