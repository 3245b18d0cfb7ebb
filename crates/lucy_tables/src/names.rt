// Whether tables have names that programs can call them by.
ghost use Rattle.std.specs.Prelude.{◌↔◌, Contains, IfOk, IsTrue, map};
ghost use Rattle.std.specs.BTreeSet.{IsFromIterResult};
ghost use Rattle.std.specs.Cmp.Lexicographic.{slice_cmp};
ghost use Rattle.std.specs.List.{All, IsDistinct};
ghost use Rattle.std.specs.Ordering.{nat_cmp};
ghost use Rattle.std.specs.Str.{bytes_eq};
ghost use Rattle.lucy_host.specs.Operators.{names_of};
ghost use Rattle.lucy_token.specs.Written.{IsNameText};
ghost use Rattle.lucy_tables.specs.Words.{AreNew};
ghost use Rattle.lucy_tables.specs.Named.{IsFree, names_named, tables_named};

use crate::words::TableWords;
use lucy_host::Ops;
use lucy_token::is_name;
use std::alloc::{AllocError, Global};
use std::collections::BTreeSet;

// Whether it is a name, and no operator has it.
fn is_free(name: &str, ops: &Ops) -> bool
    ensures { IsTrue result ↔ IsFree (names_of ops.now) name.now }
{
    is_name(name.as_bytes()) && ops.find(name.as_bytes()).is_none()
}

// Whether all are names, and no operator has one of them.
fn are_free(tables: &[TableWords<'_>], ops: &Ops) -> bool
    ensures { IsTrue result ↔ All (λ t. IsFree (names_of ops.now) t.name.now) tables.now }
{
    tables.iter().all(|table| is_free(table.name, ops))
}

// The names, in the order of their bytes.
fn set_of<'a>(alloc: Global, tables: &[TableWords<'a>]) -> Result<BTreeSet<&'a str>, AllocError>
    ensures { IfOk result (IsFromIterResult (λ x y. slice_cmp nat_cmp x.now y.now) (map (λ t. t.name) tables.now)) }
{
    tables.iter().map(|table| table.name).collect(alloc)
}

// Whether no two have the same name.
fn are_distinct(alloc: Global, tables: &[TableWords<'_>]) -> Result<bool, AllocError>
    ensures { IfOk result (λ distinct. IsTrue distinct ↔ IsDistinct bytes_eq (names_named tables.now)) }
{
    let set = set_of(alloc, tables)?;
    Ok(set.len() == tables.len())
}

/// Whether each table has a name, which no operator has, and no two have the same.
pub(crate) fn are_new(
    alloc: Global,
    tables: &[TableWords<'_>],
    ops: &Ops,
) -> Result<bool, AllocError>
    ensures { IfOk result (λ new. IsTrue new ↔ AreNew (names_of ops.now) (map (λ t. t.name) (tables_named tables.now))) }
{
    if !are_free(tables, ops) {
        return Ok(false);
    }
    are_distinct(alloc, tables)
}
