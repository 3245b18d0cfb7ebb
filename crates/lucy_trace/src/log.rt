// The numbers of a log.
ghost use Rattle.std.specs.Prelude.{◌≡◌, ◌⊎◌, ℕ, IfOk, IfErr, OnOk, MatchResult, ◌++◌, ◌∷◌, []};
ghost use Rattle.lucy_fields.specs.Readings.{AreRead, IsFirstBad};
ghost use Rattle.lucy_trace.specs.Logs.{pick_of, picks_of};
ghost use Rattle.lucy_trace.specs.declared.error.TraceError.TheVariants.{BadNumber, OutOfMemory};

use crate::error::TraceError;
use lucy_fields::{Fields, number};
use std::alloc::{AllocError, Global};

// The actor that a field names.
fn pick(field: &[u8]) -> Option<u32>
    ensures { result ≡ pick_of field.now }
{
    Some(number(field, 10, 0, 4294967295)? as u32)
}

// Puts an actor behind the others.
fn push(picks: &mut Vec<u32>, pick: u32) -> Result<(), AllocError>
    ensures { OnOk result (picks.new.items ≡ picks.old.items ++ pick ∷ []) }
{
    picks.push(pick)?;
    Ok(())
}

/// The actors of a log, in order: numbers of one to ten digits and at most 4,294,967,295, parted by spaces, tabs, carriage returns
/// or line feeds. `BadNumber` tells the first field that is none, exactly where there is one; `NotPossible` isn't answered.
pub fn read_log(alloc: Global, text: &[u8]) -> Result<Vec<u32>, TraceError>
    ensures ok { IfOk result (λ v. AreRead (picks_of text.now) v.items) }
    ensures refused { IfErr result (λ e. (e ≡ OutOfMemory) ⊎ ((place : ℕ) × (e ≡ BadNumber place) × IsFirstBad (picks_of text.now) place)) }
    ensures only { (place : ℕ) → IsFirstBad (picks_of text.now) place → MatchResult result (λ _. ⊥) (λ e. (e ≡ OutOfMemory) ⊎ (e ≡ BadNumber place)) }
{
    let mut fields = Fields::new(text);
    let mut picks = Vec::new(alloc);
    'fields: while let Some((place, field)) = fields.next() {
        match pick(field) {
            Some(actor) => push(&mut picks, actor)?,
            None => return Err(TraceError::BadNumber(place)),
        }
    }
    Ok(picks)
}
