// Why a program has no types.
ghost use Rattle.std.specs.Prelude.{◌≡◌};
ghost use Rattle.lucy_types.specs.declared.error.TypeError.TheVariants as error;

use std::alloc::AllocError;

/// Why a program has no types.
#[derive(Drop)]
pub enum TypeError {
    /// The node, which counts from 0, is the first whose rules nothing meets. The path is a list of its places: the first is
    /// int by a rule and the last bool, and neighbours are alike by a rule. It is one place where two rules force that.
    Clash { node: u32, path: Vec<u32> },
    OutOfMemory,
}

impl From<AllocError> for TypeError {
    ghost from_gives = { λ _ e. e ≡ error.OutOfMemory };

    fn from(_: AllocError) -> Self {
        TypeError::OutOfMemory
    }
}
