// The command `show`: the program of a file, in print.
ghost use Rattle.std.specs.Prelude.{◌∷◌, [], IfOk, IfErr};
ghost use Rattle.lucy_text.specs.Sources.{Unread};
ghost use Rattle.lucy_front.specs.Refusing.{RefusesSyntax};
ghost use Rattle.lucy_app.specs.Show.{IsPrintOf};
ghost use Rattle.lucy_app.specs.Programs.{OwesText, OwesPrint};
ghost use Rattle.lucy_app.specs.Outcomes.{bytes_of, RefusesProgram, IsOwedOutcome, Tellable};

use crate::refusal::Refusal;
use lucy_syntax::{parse, print};
use lucy_text::ShelfError;
use std::alloc::Global;

// The print of the program that a text is.
fn print_of(alloc: Global, text: &[u8]) -> Result<Vec<u8>, Refusal>
    ensures ok { IfOk result (λ v. IsPrintOf text.now v.items) }
    ensures refused { IfErr result (RefusesProgram (RefusesSyntax text.now)) }
{
    let program = parse(alloc, text)?;
    Ok(print(alloc, &program)?)
}

/// What `show` prints of what the fetch gave, or why it has no answer.
pub(crate) fn answer(
    alloc: Global,
    fetched: Result<Vec<u8>, ShelfError>,
) -> Result<Vec<u8>, Refusal>
    ensures outcome { IsOwedOutcome (OwesText RefusesSyntax (OwesPrint IsPrintOf) Unread (bytes_of fetched ∷ [])) result }
    ensures tellable { IfErr result Tellable }
{
    let text = fetched?;
    print_of(alloc, &text)
}
