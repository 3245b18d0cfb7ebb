// Reads declarations, parameters and results.
ghost use Rattle.std.specs.Prelude.{◌≡◌, ◌<◌, ◌≤◌, IfOk, IfErr, List, Option, length, unwrap_or, []};
ghost use Rattle.lucy_tree.specs.declared.decl.Decl.{Decl};
ghost use Rattle.lucy_grammar.specs.Symbols.{Part};
ghost use Rattle.lucy_grammar.specs.Reading.{Takes, BreaksAt, Reads, Unfit, ReadsOptional, UnfitOptional};
ghost use Rattle.lucy_syntax.specs.Refusals.{RefusedBy, behind_name};

use crate::cursor::{at, name, take, want, word};
use crate::make::{one, push};
use crate::refusal::Refusal;
use lucy_host::DataType;
use lucy_token::{Kind, Mark, Token};
use lucy_tree::{Decl, Name};
use lucy_word::Word;
use std::alloc::Global;

/// A written type, if one stands here.
fn typing<'a, 't>(
    ts: &'a [Token<'t>],
) -> Result<(Option<DataType>, &'a [Token<'t>]), Refusal<'a, 't>>
    ensures ok { IfOk result (λ p. ReadsOptional Part.Typing ts.now p.0 p.1.now) }
    ensures refused { IfErr result (RefusedBy (UnfitOptional Part.Typing ts.now)) }
    ensures shorter { IfOk result (λ p. length p.1.now ≤ length ts.now) }
{
    if let Some((_, ts)) = take(ts, Mark::Colon) {
        let (holds, ts) = type_name(ts)?;
        return Ok((Some(holds), ts));
    }
    Ok((None, ts))
}

fn type_name<'a, 't>(ts: &'a [Token<'t>]) -> Result<(DataType, &'a [Token<'t>]), Refusal<'a, 't>>
    ensures ok { IfOk result (λ p. Reads Part.TypeName ts.now p.0 p.1.now) }
    ensures refused { IfErr result (RefusedBy (Unfit Part.TypeName ts.now)) }
    ensures shorter { IfOk result (λ p. length p.1.now < length ts.now) }
{
    if let Some((_, ts)) = take(ts, Mark::Int) {
        return Ok((DataType::Int, ts));
    }
    let (_, ts) = want(ts, Mark::Bool)?;
    Ok((DataType::Bool, ts))
}

/// A written clock, if one stands here.
fn clock<'a, 't>(
    alloc: Global,
    ts: &'a [Token<'t>],
) -> Result<(Option<Word>, &'a [Token<'t>]), Refusal<'a, 't>>
    ensures ok { IfOk result (λ p. ReadsOptional Part.ClockOf ts.now p.0 p.1.now) }
    ensures refused { IfErr result (RefusedBy (UnfitOptional Part.ClockOf ts.now)) }
    ensures shorter { IfOk result (λ p. length p.1.now ≤ length ts.now) }
{
    if let Some((_, ts)) = take(ts, Mark::Colons) {
        let (word, ts) = word(alloc, ts)?;
        return Ok((Some(word), ts));
    }
    Ok((None, ts))
}

/// A declaration.
pub(crate) fn decl<'a, 't>(
    alloc: Global,
    ts: &'a [Token<'t>],
) -> Result<(Decl, &'a [Token<'t>]), Refusal<'a, 't>>
    ensures ok { IfOk result (λ p. Reads Part.Decl ts.now p.0 p.1.now) }
    ensures refused { IfErr result (RefusedBy (Unfit Part.Decl ts.now)) }
    ensures shorter { IfOk result (λ p. length p.1.now < length ts.now) }
{
    let (name, ts) = name(alloc, ts)?;
    let ((holds, word), ts) = typing_and_clock(alloc, ts)?;
    Ok((Decl { name, holds, word }, ts))
}

// What stands in a declaration behind its name.
fn typing_and_clock<'a, 't>(
    alloc: Global,
    ts: &'a [Token<'t>],
) -> Result<((Option<DataType>, Option<Word>), &'a [Token<'t>]), Refusal<'a, 't>>
    ensures ok { IfOk result (λ p. Takes Part.Decl behind_name ts.now (p.0.0, (p.0.1, tt)) p.1.now) }
    ensures refused { IfErr result (RefusedBy (BreaksAt Part.Decl behind_name ts.now)) }
    ensures shorter { IfOk result (λ p. length p.1.now ≤ length ts.now) }
{
    let (holds, ts) = typing(ts)?;
    let (word, ts) = clock(alloc, ts)?;
    Ok(((holds, word), ts))
}

/// Declarations with commas between.
pub(crate) fn decls<'a, 't>(
    alloc: Global,
    ts: &'a [Token<'t>],
) -> Result<(Vec<Decl>, &'a [Token<'t>]), Refusal<'a, 't>>
    ensures ok { IfOk result (λ p. Reads Part.Decls ts.now p.0.items p.1.now) }
    ensures refused { IfErr result (RefusedBy (Unfit Part.Decls ts.now)) }
    ensures shorter { IfOk result (λ p. length p.1.now < length ts.now) }
{
    let (head, mut over) = decl(alloc, ts)?;
    let mut list = one(alloc, head)?;
    'more: while let Some((_, rest)) = take(over, Mark::Comma) {
        let (next, rest) = decl(alloc, rest)?;
        push(&mut list, next)?;
        over = rest;
    }
    Ok((list, over))
}

/// The parameters of a node.
pub(crate) fn params<'a, 't>(
    alloc: Global,
    ts: &'a [Token<'t>],
) -> Result<(Vec<Decl>, &'a [Token<'t>]), Refusal<'a, 't>>
    ensures ok { IfOk result (λ p. Reads Part.Params ts.now p.0.items p.1.now) }
    ensures refused { IfErr result (RefusedBy (Unfit Part.Params ts.now)) }
    ensures shorter { IfOk result (λ p. length p.1.now < length ts.now) }
{
    if at(ts, Kind::Name) {
        let (name, ts) = name(alloc, ts)?;
        let list = one(
            alloc,
            Decl {
                name,
                holds: None,
                word: None,
            },
        )?;
        return Ok((list, ts));
    }
    let (_, ts) = want(ts, Mark::Open)?;
    let (list, ts) = given_decls(alloc, ts)?;
    let (_, ts) = want(ts, Mark::Close)?;
    Ok((list, ts))
}

// The declarations before a closing parenthesis, of which there may be none.
fn given_decls<'a, 't>(
    alloc: Global,
    ts: &'a [Token<'t>],
) -> Result<(Vec<Decl>, &'a [Token<'t>]), Refusal<'a, 't>>
    ensures ok { IfOk result (λ p. (o : Option (List Decl)) × ReadsOptional Part.Decls ts.now o p.1.now × (p.0.items ≡ unwrap_or o [])) }
    ensures refused { IfErr result (RefusedBy (UnfitOptional Part.Decls ts.now)) }
    ensures shorter { IfOk result (λ p. length p.1.now ≤ length ts.now) }
{
    if at(ts, Kind::Name) {
        return decls(alloc, ts);
    }
    Ok((Vec::new(alloc), ts))
}

/// Names with commas between.
fn names<'a, 't>(
    alloc: Global,
    ts: &'a [Token<'t>],
) -> Result<(Vec<Name>, &'a [Token<'t>]), Refusal<'a, 't>>
    ensures ok { IfOk result (λ p. Reads Part.Names ts.now p.0.items p.1.now) }
    ensures refused { IfErr result (RefusedBy (Unfit Part.Names ts.now)) }
    ensures shorter { IfOk result (λ p. length p.1.now < length ts.now) }
{
    let (head, mut over) = name(alloc, ts)?;
    let mut list = one(alloc, head)?;
    'more: while let Some((_, rest)) = take(over, Mark::Comma) {
        let (next, rest) = name(alloc, rest)?;
        push(&mut list, next)?;
        over = rest;
    }
    Ok((list, over))
}

/// The results of a node.
pub(crate) fn results<'a, 't>(
    alloc: Global,
    ts: &'a [Token<'t>],
) -> Result<(Vec<Name>, &'a [Token<'t>]), Refusal<'a, 't>>
    ensures ok { IfOk result (λ p. Reads Part.Results ts.now p.0.items p.1.now) }
    ensures refused { IfErr result (RefusedBy (Unfit Part.Results ts.now)) }
    ensures shorter { IfOk result (λ p. length p.1.now < length ts.now) }
{
    if at(ts, Kind::Name) {
        let (name, ts) = name(alloc, ts)?;
        return Ok((one(alloc, name)?, ts));
    }
    let (_, ts) = want(ts, Mark::Open)?;
    let (list, ts) = names(alloc, ts)?;
    let (_, ts) = want(ts, Mark::Close)?;
    Ok((list, ts))
}
