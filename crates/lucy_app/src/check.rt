// The commands `check` and `clocks`: the clocks and the sizes of buffers of the program of a file.
ghost use Rattle.std.specs.Prelude.{◌∷◌, [], IfOk, IfErr};
ghost use Rattle.lucy_text.specs.Sources.{Unread};
ghost use Rattle.lucy_program.specs.Inferring.{AreOptions};
ghost use Rattle.lucy_app.specs.Check.{IsCheckOf, RefusesCheck};
ghost use Rattle.lucy_app.specs.Programs.{OwesText, OwesPrint};
ghost use Rattle.lucy_app.specs.Outcomes.{bytes_of, RefusesProgram, IsOwedOutcome, Tellable};

use crate::refusal::Refusal;
use lucy_front::accept;
use lucy_host::Ops;
use lucy_program::{Options, report};
use lucy_text::ShelfError;
use std::alloc::Global;

// The report of the program that a text is accepted as.
fn report_of(alloc: Global, text: &[u8], ops: &Ops, options: &Options) -> Result<Vec<u8>, Refusal>
    requires { AreOptions options.now }
    ensures ok { IfOk result (λ v. IsCheckOf ops.now options.now text.now v.items) }
    ensures refused { IfErr result (RefusesProgram (RefusesCheck ops.now options.now text.now)) }
{
    let accepted = accept(alloc, text, ops, options)?;
    Ok(report(alloc, &accepted)?)
}

/// What `check` or `clocks` prints of what the fetch gave, where the host has these operators and clocks are found so, or why
/// it has no answer.
pub(crate) fn answer(
    alloc: Global,
    fetched: Result<Vec<u8>, ShelfError>,
    ops: &Ops,
    options: &Options,
) -> Result<Vec<u8>, Refusal>
    requires { AreOptions options.now }
    ensures outcome { IsOwedOutcome (OwesText (RefusesCheck ops.now options.now) (OwesPrint (IsCheckOf ops.now options.now)) Unread (bytes_of fetched ∷ [])) result }
    ensures tellable { IfErr result Tellable }
{
    let text = fetched?;
    report_of(alloc, &text, ops, options)
}
