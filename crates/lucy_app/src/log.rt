// A log that was fetched: the events that it names, and the line of a log that is refused.
ghost use Rattle.std.specs.Prelude.{◌≡◌, IfOk, IfErr};
ghost use Rattle.lucy_app.specs.Answers as spec;
ghost use Rattle.lucy_app.specs.Outcomes.{bytes_of, IsLogRead, Tellable};

use crate::refusal::{Refusal, unfetched};
use lucy_text::ShelfError;
use lucy_trace::{TraceError, read_log};
use lucy_word::Limit;
use std::alloc::{AllocError, Global};

/// The actors of the log that a fetch gave, in order, or why there are none.
pub(crate) fn picks(
    alloc: Global,
    fetched: Result<Vec<u8>, ShelfError>,
) -> Result<Vec<u32>, Refusal>
    ensures read { IsLogRead (bytes_of fetched) result }
    ensures tellable { IfErr result Tellable }
{
    let text = match fetched {
        Ok(text) => text,
        Err(error) => return Err(unfetched(error, Limit::Log)),
    };
    match read_log(alloc, &text) {
        Ok(picks) => Ok(picks),
        Err(error) => Err(Refusal::from(error)),
    }
}

/// The line on the fault sink of a log that is refused.
pub(crate) fn log_line(alloc: Global, error: TraceError) -> Result<Vec<u8>, AllocError>
    ensures { IfOk result (λ v. v.items ≡ spec.log_line error) }
{
    let line = match error {
        TraceError::BadNumber(place) => format!(in alloc; "lucy: log: bad number at {place}\n"),
        TraceError::NotPossible { event, actor } => {
            format!(in alloc; "lucy: log: event {event} of actor {actor} is not possible\n")
        }
        TraceError::OutOfMemory => format!(in alloc; "lucy: out of memory\n"),
    };
    Ok(line?.into_bytes())
}
