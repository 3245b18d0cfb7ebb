// The command `types`: the data types of the program of a file.
ghost use Rattle.std.specs.Prelude.{◌∷◌, [], IfOk, IfErr};
ghost use Rattle.lucy_text.specs.Sources.{Unread};
ghost use Rattle.lucy_front.specs.Refusing.{RefusesText};
ghost use Rattle.lucy_app.specs.Types.{IsReportOf};
ghost use Rattle.lucy_app.specs.Programs.{OwesText, OwesPrint};
ghost use Rattle.lucy_app.specs.Outcomes.{bytes_of, RefusesProgram, IsOwedOutcome, Tellable};

use crate::refusal::Refusal;
use crate::report::report;
use lucy_host::Ops;
use lucy_naming::place;
use lucy_syntax::parse;
use lucy_text::ShelfError;
use lucy_types::{TypeError, types};
use std::alloc::Global;

// The report of the program that a text is: its names are looked at first, and then its types.
fn report_of(alloc: Global, text: &[u8], ops: &Ops) -> Result<Vec<u8>, Refusal>
    ensures ok { IfOk result (λ v. IsReportOf ops.now text.now v.items) }
    ensures refused { IfErr result (RefusesProgram (RefusesText ops.now text.now)) }
{
    let program = parse(alloc, text)?;
    let placed = place(alloc, &program, ops)?;
    match types(alloc, &placed) {
        Ok(typed) => Ok(report(alloc, &placed, &typed)?),
        Err(TypeError::OutOfMemory) => Err(Refusal::OutOfMemory),
        Err(TypeError::Clash { node, path }) => Err(Refusal::Program(lucy_front::Refusal::Types {
            placed,
            node,
            path,
        })),
    }
}

/// What `types` prints of what the fetch gave, where the host has these operators, or why it has no answer.
pub(crate) fn answer(
    alloc: Global,
    fetched: Result<Vec<u8>, ShelfError>,
    ops: &Ops,
) -> Result<Vec<u8>, Refusal>
    ensures outcome { IsOwedOutcome (OwesText (RefusesText ops.now) (OwesPrint (IsReportOf ops.now)) Unread (bytes_of fetched ∷ [])) result }
    ensures tellable { IfErr result Tellable }
{
    let text = fetched?;
    report_of(alloc, &text, ops)
}
