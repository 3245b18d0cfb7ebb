// The words that ask for tables, and those behind them.
ghost use Rattle.std.specs.Prelude.{◌≡◌, ◌∷◌, ◌↔◌, ◌<◌, None, IfOk, IfSome, IsTrue, length, map, string_bytes};
ghost use Rattle.lucy_tables.specs.Words.{table_word, BeginsTable, IsCut};
ghost use Rattle.lucy_tables.specs.Named.{tables_named};

use std::alloc::{AllocError, Global};

/// A table as words ask for it.
#[derive(Clone, Copy)]
pub(crate) struct TableWords<'a> {
    /// The name that programs call it by.
    pub(crate) name: &'a str,
    /// The name of its file.
    pub(crate) file: &'a str,
}

/// The tables that words ask for, as many as stand in front whole, and the words behind them.
#[derive(Drop)]
pub(crate) struct Front<'a> {
    pub(crate) tables: Vec<TableWords<'a>>,
    pub(crate) rest: &'a [String],
}

// The first table that the words ask for, and the words behind it.
fn first(words: &[String]) -> Option<(TableWords<'_>, &[String])>
    ensures some { IfSome result (λ f. map string_bytes words.now
        ≡ table_word ∷ f.0.name.now ∷ f.0.file.now ∷ map string_bytes f.1.now) }
    ensures none { result ≡ None → BeginsTable (map string_bytes words.now) → length words.now < 3 }
{
    let (word, behind) = words.split_first()?;
    if word.as_str() != "--table" {
        return None;
    }
    let (name, behind) = behind.split_first()?;
    let (file, rest) = behind.split_first()?;
    let name = name.as_str();
    let file = file.as_str();
    Some((TableWords { name, file }, rest))
}

/// Cuts the words behind the tables that they ask for.
pub(crate) fn cut(alloc: Global, words: &[String]) -> Result<Front<'_>, AllocError>
    ensures { IfOk result (λ front.
        IsCut (map string_bytes words.now) (tables_named front.tables.items) (map string_bytes front.rest.now)) }
{
    let mut tables = Vec::new(alloc);
    let mut rest = words;
    'tables: while let Some((table, behind)) = first(rest) {
        tables.push(table)?;
        rest = behind;
    }
    Ok(Front { tables, rest })
}

/// Whether a `--table` stands first.
pub(crate) fn begins_table(words: &[String]) -> bool
    ensures { IsTrue result ↔ BeginsTable (map string_bytes words.now) }
{
    match words.split_first() {
        Some((word, _)) => word.as_str() == "--table",
        None => false,
    }
}
