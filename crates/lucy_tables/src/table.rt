// The table of a text.
ghost use Rattle.std.specs.Prelude.{◌≡◌, ◌⊎◌, ◌++◌, ◌∷◌, [], IfOk, IfErr, OnOk, MatchResult};
ghost use Rattle.lucy_tables.specs.Tables.{IsTableText, RefusesTable};
ghost use Rattle.lucy_tables.specs.declared.error.TableError.{TableError};
ghost use Rattle.lucy_tables.specs.declared.error.TableError.TheVariants.{OutOfMemory};

use crate::error::TableError;
use lucy_fields::{Fields, int};
use lucy_host::Table;
use lucy_word::Limit;
use std::alloc::{AllocError, Global};

// Puts an item behind the others.
fn push(list: &mut Vec<i64>, item: i64) -> Result<(), AllocError>
    ensures { OnOk result (list.new.items ≡ list.old.items ++ item ∷ []) }
{
    list.push(item)?;
    Ok(())
}

/// The table of a text: its numbers in order, each an optional `-` and digits, of 64 bits, parted by spaces, tabs, carriage returns
/// or line feeds. There may be none.
///
/// `BadNumber` tells the first field that is no number, and `Limit(TableItems)` that there are more than 65,536 fields, whichever
/// comes first in the text. Each comes exactly there.
pub fn read_table(alloc: Global, text: &[u8]) -> Result<Table, TableError>
    ensures ok { IfOk result (IsTableText text.now) }
    ensures refused { IfErr result (λ e. (e ≡ OutOfMemory) ⊎ RefusesTable text.now e) }
    ensures only { (e : TableError) → RefusesTable text.now e → MatchResult result (λ _. ⊥) (λ f. (f ≡ OutOfMemory) ⊎ (f ≡ e)) }
{
    let mut fields = Fields::new(text);
    let mut list = Vec::new(alloc);
    'fields: while let Some((place, field)) = fields.next() {
        if list.len() as u64 == Limit::TableItems.number() {
            return Err(TableError::Limit(Limit::TableItems));
        }
        match int(field) {
            Some(item) => push(&mut list, item)?,
            None => return Err(TableError::BadNumber(place)),
        }
    }
    Ok(Table::new(list))
}
