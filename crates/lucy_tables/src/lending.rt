// What words come to for their tables.
ghost use Rattle.std.specs.Prelude.{ℕ, ◌≡◌, ◌⊎◌, ◌≤◌, [], List, Result, IfOk, IfErr, OnOk, length, map, string_bytes};
ghost use Rattle.lucy_host.specs.Operators.{names_of};
ghost use Rattle.lucy_text.specs.declared.shelf.ShelfError.{ShelfError as Fault};
ghost use Rattle.lucy_app.specs.World.{Fetches};
ghost use Rattle.lucy_app.specs.Answers.{Answer};
ghost use Rattle.lucy_app.specs.Operators.{program_operators as the_operators};
ghost use Rattle.lucy_tables.specs.Words.{IsCut, AreWhole, most_tables};
ghost use Rattle.lucy_tables.specs.Loading.{file_of};
ghost use Rattle.lucy_tables.specs.Refusals.{RefusesTableWords};
ghost use Rattle.lucy_tables.specs.Ends.{AreRefused};
ghost use Rattle.lucy_tables.specs.Named.{tables_named};
ghost use Rattle.lucy_tables.specs.Seen.{loading_answer, IsBegun};
ghost use Rattle.lucy_tables.specs.Lent.{IsLent};
ghost use Rattle.lucy_tables.specs.declared.refusal.Refusal.TheVariants as refusal;

use crate::loading::load;
use crate::names::are_new;
use crate::refusal::Refusal;
use crate::words::{Front, begins_table, cut};
use lucy_app::program_operators;
use lucy_host::Ops;
use lucy_text::Shelf;
use lucy_word::Limit;
use std::alloc::{AllocError, Global};

/// The operators of the program and of its tables, twice, and the words behind those that ask for tables.
#[derive(Drop)]
pub(crate) struct Lent<'a> {
    pub(crate) ops: Ops,
    pub(crate) kinds: Ops,
    pub(crate) rest: &'a [String],
}

// Whether words may ask for these tables where these operators are there.
fn judge<'a>(alloc: Global, front: &Front<'a>, ops: &Ops) -> Result<(), Refusal<'a>>
    ensures ok { OnOk result (AreWhole (names_of ops.now) (tables_named front.now.tables.items) (map string_bytes front.now.rest.now)
        × (length front.now.tables.items ≤ most_tables)) }
    ensures refused { IfErr result (λ e. (e ≡ refusal.OutOfMemory) ⊎ RefusesTableWords (names_of ops.now) (tables_named front.now.tables.items)
        (map string_bytes front.now.rest.now) (loading_answer e)) }
{
    if begins_table(front.rest) {
        return Err(Refusal::Words);
    }
    if !are_new(alloc, &front.tables, ops)? {
        return Err(Refusal::Words);
    }
    if front.tables.len() as u64 > Limit::Tables.number() {
        return Err(Refusal::Limit(Limit::Tables));
    }
    Ok(())
}

// The operators that the program has without tables.
fn own_operators(alloc: Global) -> Result<Ops, AllocError>
    ensures { IfOk result (λ ops. ops ≡ the_operators) }
{
    match program_operators(alloc) {
        Ok(ops) => Ok(ops),
        Err(_) => Err(AllocError),
    }
}

// The operators of the program and of the tables.
fn operators<'a, S: Shelf>(
    alloc: Global,
    front: &Front<'a>,
    shelf: &mut S,
) -> Result<Ops, Refusal<'a>>
    ensures begun { (fetched : List (Result (List ℕ) Fault))
        × Fetches (map file_of (tables_named front.now.tables.items)) (S.seen shelf.old) (S.seen shelf.new) fetched
        × IsBegun (tables_named front.now.tables.items) (map string_bytes front.now.rest.now) fetched result }
    ensures refused { (answer : Answer)
        → RefusesTableWords (names_of the_operators) (tables_named front.now.tables.items) (map string_bytes front.now.rest.now) answer
        → shelf.new ≡ shelf.old }
    ensures none { front.now.tables.items ≡ [] → shelf.new ≡ shelf.old }
    ensures count { (S.seen shelf.old).faults ≤ (S.seen shelf.new).faults }
{
    let mut ops = own_operators(alloc)?;
    if let Err(refusal) = judge(alloc, front, &ops) {
        return Err(refusal);
    }
    load(alloc, &front.tables, shelf, &mut ops)?;
    Ok(ops)
}

/// What the words come to for their tables: the files of these are fetched where nothing refuses the words.
pub(crate) fn lend<'a, S: Shelf>(
    alloc: Global,
    words: &'a [String],
    shelf: &mut S,
) -> Result<Lent<'a>, Refusal<'a>>
    ensures begins { IsLent (map string_bytes words.now) (S.seen shelf.old) (S.seen shelf.new) result }
    ensures refused { AreRefused (names_of the_operators) (map string_bytes words.now) → shelf.new ≡ shelf.old }
    ensures none { (rest : List (List ℕ)) → IsCut (map string_bytes words.now) [] rest → shelf.new ≡ shelf.old }
    ensures count { (S.seen shelf.old).faults ≤ (S.seen shelf.new).faults }
{
    let front = cut(alloc, words)?;
    let ops = operators(alloc, &front, shelf)?;
    match ops.copy(alloc) {
        Ok(kinds) => Ok(Lent {
            ops,
            kinds,
            rest: front.rest,
        }),
        Err(_) => Err(Refusal::OutOfMemory),
    }
}
