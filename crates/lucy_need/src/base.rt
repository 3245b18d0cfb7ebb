// The word of the base clock.
ghost use Rattle.std.specs.Prelude.{◌≡◌, IfOk};
ghost use Rattle.lucy_word.specs.Always.{always};
ghost use Rattle.lucy_word.specs.Stored.{IsStored};

use lucy_word::{Word, delayed};
use std::alloc::{AllocError, Global};

/// The word (1), which has a one at every instant: that of the base, and of a term that is a clock alone.
pub fn always(alloc: Global) -> Result<Word, AllocError>
    ensures is { IfOk result (λ w. w ≡ always) }
    ensures stored { IfOk result IsStored }
{
    delayed(alloc, 0)
}
