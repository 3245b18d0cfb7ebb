// How a run ends.
ghost use Rattle.std.specs.Prelude.{◌≡◌};
ghost use Rattle.lucy_run.specs.declared.ending.Ending.TheVariants as ending;

use lucy_lines::TextFault;
use lucy_word::Limit;
use std::alloc::AllocError;

/// How a run ends.
#[derive(Drop)]
pub enum Ending {
    /// All that the input allows stands on the output, and the input was read to its end.
    Done,
    /// All that the items before this fault of the input allow stands on the output.
    Input(TextFault),
    /// A limit is passed: with `Instants` the lines of so many instants stand on the output, with `KahnTurns` and `KahnItems`
    /// nothing does.
    Limit(Limit),
    /// A write failed.
    WriteFault,
    /// Memory ran out.
    OutOfMemory,
}

impl From<AllocError> for Ending {
    ghost from_gives = { λ _ e. e ≡ ending.OutOfMemory };

    fn from(_: AllocError) -> Self {
        Ending::OutOfMemory
    }
}
