// Why no tree is read.
ghost use Rattle.std.specs.Prelude.{◌≡◌};
ghost use Rattle.lucy_syntax.specs.declared.refusal.Refusal.TheVariants.{OutOfMemory};

use lucy_token::Token;
use std::alloc::AllocError;

/// The first of these tokens doesn't fit, or memory ran out.
pub(crate) enum Refusal<'a, 't> {
    At(&'a [Token<'t>]),
    OutOfMemory,
}

/// The tokens behind what was read, or why it wasn't.
pub(crate) type Read<'a, 't> = Result<&'a [Token<'t>], Refusal<'a, 't>>;

impl<'a, 't> From<AllocError> for Refusal<'a, 't> {
    ghost from_gives = { λ _ e. e ≡ OutOfMemory };

    fn from(_: AllocError) -> Self {
        Refusal::OutOfMemory
    }
}
