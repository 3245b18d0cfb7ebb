// A program with its clocks written out.
ghost use Rattle.std.specs.Prelude.{IfOk, IfErr};
ghost use Rattle.lucy_program.specs.Inferring.{AreOptions};
ghost use Rattle.lucy_freeze.specs.Freezing.{IsFrozen, IsUnfrozen};
ghost use Rattle.lucy_freeze.specs.Meaning.{FrozenProgramsMeanTheSame, FrozenProgramsAreWritten};

use lucy_freeze::{FreezeError, Frozen};
use lucy_host::Ops;
use lucy_program::Options;
use std::alloc::Global;

/// Pins `lucy_freeze::freeze`.
pub fn freeze(
    alloc: Global,
    text: &[u8],
    ops: &Ops,
    options: &Options,
) -> Result<Frozen, FreezeError>
    requires { AreOptions options.now }
    ensures ok { IfOk result (λ f. IsFrozen ops.now options.now text.now f.text.items f.program) }
    ensures refused { IfErr result (IsUnfrozen ops.now options.now text.now) }
{
    lucy_freeze::freeze(alloc, text, ops, options)
}

/// Pins `lucy_freeze::frozen_programs_mean_the_same`.
pub fn frozen_programs_mean_the_same()
    ensures streams { FrozenProgramsMeanTheSame }
    ensures written { FrozenProgramsAreWritten }
{
    lucy_freeze::frozen_programs_mean_the_same();
}
