// The tables of files.
ghost use Rattle.std.specs.Prelude.{ℕ, ◌≡◌, ◌⊎◌, ◌≤◌, ◌+◌, ◌∷◌, ◌++◌, [], List, Result, IfOk, IfErr, OnOk, length};
ghost use Rattle.lucy_text.specs.declared.shelf.ShelfError.{ShelfError as Fault};
ghost use Rattle.lucy_host.specs.Operators.{most_operators};
ghost use Rattle.lucy_app.specs.World.{bytes_of, Fetched};
ghost use Rattle.lucy_tables.specs.Loading.{file_of, table_operator};
ghost use Rattle.lucy_tables.specs.Named.{table_named, tables_named};
ghost use Rattle.lucy_tables.specs.Seen.{loading_answer, IsRead, Loads};
ghost use Rattle.lucy_tables.specs.declared.refusal.Refusal.TheVariants as refusal;

use crate::error::TableError;
use crate::refusal::Refusal;
use crate::table::read_table;
use crate::words::TableWords;
use lucy_app::fetch;
use lucy_host::{HostKind, Ops, Table};
use lucy_text::{Shelf, ShelfError};
use lucy_word::Limit;
use std::alloc::{AllocError, Global};

// The table of what was fetched for this name, or why there is none.
fn read<'a>(
    alloc: Global,
    name: &'a str,
    fetched: Result<Vec<u8>, ShelfError>,
) -> Result<Table, Refusal<'a>>
    ensures { IsRead name.now (bytes_of fetched) result }
{
    let text = match fetched {
        Ok(text) => text,
        Err(ShelfError::Failed | ShelfError::Missing) => return Err(Refusal::ReadFault),
        Err(ShelfError::TooLong) => return Err(Refusal::Limit(Limit::TableBytes)),
        Err(ShelfError::OutOfMemory) => return Err(Refusal::OutOfMemory),
    };
    match read_table(alloc, &text) {
        Ok(table) => Ok(table),
        Err(TableError::BadNumber(place)) => Err(Refusal::BadNumber { name, place }),
        Err(TableError::Limit(limit)) => Err(Refusal::Limit(limit)),
        Err(TableError::OutOfMemory) => Err(Refusal::OutOfMemory),
    }
}

// The table that words ask for: its file is fetched once.
fn table_of<'a, S: Shelf>(
    alloc: Global,
    words: TableWords<'a>,
    shelf: &mut S,
) -> Result<Table, Refusal<'a>>
    ensures fetched { (f : Result (List ℕ) Fault) × Fetched (file_of (table_named words.entry)) (S.seen shelf.old) (S.seen shelf.new) f
        × IsRead words.entry.name.now f result }
    ensures count { (S.seen shelf.old).faults ≤ (S.seen shelf.new).faults }
{
    let fetched = fetch(alloc, shelf, words.file, Limit::TableBytes);
    read(alloc, words.name, fetched)
}

// Puts the operator of a table behind the others, none of which has its name.
fn add(alloc: Global, ops: &mut Ops, name: &str, table: Table) -> Result<(), AllocError>
    requires { length ops.old + 1 ≤ most_operators }
    ensures { OnOk result (ops.new ≡ ops.old ++ table_operator name.now table ∷ []) }
{
    match ops.add(alloc, name, HostKind::Table(table)) {
        Ok(()) => Ok(()),
        Err(_) => Err(AllocError),
    }
}

/// Puts the operators of the tables behind those that are there. The files are fetched one by one, and none behind one that is
/// refused.
pub(crate) fn load<'a, S: Shelf>(
    alloc: Global,
    tables: &[TableWords<'a>],
    shelf: &mut S,
    ops: &mut Ops,
) -> Result<(), Refusal<'a>>
    requires { length ops.old + length tables.now ≤ most_operators }
    ensures loads { Loads (tables_named tables.now) (S.seen shelf.old) (S.seen shelf.new) ops.old ops.new result }
    ensures none { tables.now ≡ [] → shelf.new ≡ shelf.old }
    ensures count { (S.seen shelf.old).faults ≤ (S.seen shelf.new).faults }
{
    'each: for words in tables {
        let table = match table_of(alloc, *words, shelf) {
            Ok(table) => table,
            Err(refusal) => return Err(refusal),
        };
        add(alloc, ops, words.name, table)?;
    }
    Ok(())
}
