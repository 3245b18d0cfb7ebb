// Reads definitions, nodes and programs.
ghost use Rattle.std.specs.Prelude.{◌≡◌, ◌≢◌, ◌<◌, ◌≤◌, ◌∷◌, IfOk, IfErr, List, Option, length, map, unwrap_or, []};
ghost use Rattle.lucy_tree.specs.View.{DefTree, tree_of, def_tree, node_tree};
ghost use Rattle.lucy_token.specs.Tokens.{first};
ghost use Rattle.lucy_token.specs.declared.mark.Mark.TheVariants as mark;
ghost use Rattle.lucy_token.specs.declared.token.Kind.TheVariants as kind;
ghost use Rattle.lucy_token.specs.declared.token.Token.{Token};
ghost use Rattle.lucy_grammar.specs.Symbols.{Part};
ghost use Rattle.lucy_grammar.specs.Reading.{Takes, BreaksAt, Reads, Unfit, ReadsOptional, UnfitOptional};
ghost use Rattle.lucy_syntax.specs.Refusals.{RefusedBy, behind_first};

use crate::cursor::{at, name, take, want};
use crate::decl::{decl, decls, params, results};
use crate::descent::{call, expr};
use crate::make::{one, push};
use crate::refusal::Refusal;
use lucy_token::{Kind, Mark, Token};
use lucy_tree::{Decl, Decls, Def, Defs, Name, Names, Node};
use std::alloc::{AllocError, Global};

// Several names on the left, in parentheses.
fn lefts<'a, 't>(
    alloc: Global,
    ts: &'a [Token<'t>],
) -> Result<(Vec<Decl>, &'a [Token<'t>]), Refusal<'a, 't>>
    ensures ok { IfOk result (λ p. Reads Part.Lefts ts.now p.0.items p.1.now) }
    ensures refused { IfErr result (RefusedBy (Unfit Part.Lefts ts.now)) }
    ensures shorter { IfOk result (λ p. length p.1.now < length ts.now) }
{
    let (_, ts) = want(ts, Mark::Open)?;
    let (head, ts) = decl(alloc, ts)?;
    let (others, ts) = other_lefts(alloc, ts)?;
    Ok((joined(alloc, head, others)?, ts))
}

// What stands in several names on the left behind the first one.
fn other_lefts<'a, 't>(
    alloc: Global,
    ts: &'a [Token<'t>],
) -> Result<(Vec<Decl>, &'a [Token<'t>]), Refusal<'a, 't>>
    ensures ok { IfOk result (λ p. (c : Token) × (s : Token) × Takes Part.Lefts behind_first ts.now (c, (p.0.items, (s, tt))) p.1.now) }
    ensures refused { IfErr result (RefusedBy (BreaksAt Part.Lefts behind_first ts.now)) }
    ensures shorter { IfOk result (λ p. length p.1.now < length ts.now) }
{
    let (_, ts) = want(ts, Mark::Comma)?;
    let (others, ts) = decls(alloc, ts)?;
    let (_, ts) = want(ts, Mark::Close)?;
    Ok((others, ts))
}

fn joined(alloc: Global, head: Decl, mut others: Vec<Decl>) -> Result<Vec<Decl>, AllocError>
    ensures { IfOk result (λ list. list.items ≡ head ∷ others.items) }
{
    let mut list = one(alloc, head)?;
    list.append(&mut others)?;
    Ok(list)
}

// A definition of several names.
fn several<'a, 't>(
    alloc: Global,
    ts: &'a [Token<'t>],
) -> Result<(Def, &'a [Token<'t>]), Refusal<'a, 't>>
    requires { first ts.now ≡ kind.Mark mark.Open }
    ensures ok { IfOk result (λ p. Reads Part.Def ts.now (def_tree p.0) p.1.now) }
    ensures refused { IfErr result (RefusedBy (Unfit Part.Def ts.now)) }
    ensures shorter { IfOk result (λ p. length p.1.now < length ts.now) }
{
    let (left, ts) = lefts(alloc, ts)?;
    let (_, ts) = want(ts, Mark::Equals)?;
    let (right, ts) = call(alloc, ts)?;
    let left = Decls::new(left);
    Ok((Def { left, right }, ts))
}

// A definition of one name.
fn single<'a, 't>(
    alloc: Global,
    ts: &'a [Token<'t>],
) -> Result<(Def, &'a [Token<'t>]), Refusal<'a, 't>>
    requires { first ts.now ≢ kind.Mark mark.Open }
    ensures ok { IfOk result (λ p. Reads Part.Def ts.now (def_tree p.0) p.1.now) }
    ensures refused { IfErr result (RefusedBy (Unfit Part.Def ts.now)) }
    ensures shorter { IfOk result (λ p. length p.1.now < length ts.now) }
{
    let (left, ts) = decl(alloc, ts)?;
    let left = one(alloc, left)?;
    let (_, ts) = want(ts, Mark::Equals)?;
    let (right, ts) = expr(alloc, ts)?;
    let left = Decls::new(left);
    Ok((Def { left, right }, ts))
}

/// A definition.
fn def<'a, 't>(
    alloc: Global,
    ts: &'a [Token<'t>],
) -> Result<(Def, &'a [Token<'t>]), Refusal<'a, 't>>
    ensures ok { IfOk result (λ p. Reads Part.Def ts.now (def_tree p.0) p.1.now) }
    ensures refused { IfErr result (RefusedBy (Unfit Part.Def ts.now)) }
    ensures shorter { IfOk result (λ p. length p.1.now < length ts.now) }
{
    if at(ts, Kind::Mark(Mark::Open)) {
        return several(alloc, ts);
    }
    single(alloc, ts)
}

// Definitions with `and` between.
fn defs<'a, 't>(
    alloc: Global,
    ts: &'a [Token<'t>],
) -> Result<(Vec<Def>, &'a [Token<'t>]), Refusal<'a, 't>>
    ensures ok { IfOk result (λ p. Reads Part.Defs ts.now (map def_tree p.0.items) p.1.now) }
    ensures refused { IfErr result (RefusedBy (Unfit Part.Defs ts.now)) }
    ensures shorter { IfOk result (λ p. length p.1.now < length ts.now) }
{
    let (head, mut over) = def(alloc, ts)?;
    let mut list = one(alloc, head)?;
    'more: while let Some((_, rest)) = take(over, Mark::And) {
        let (next, rest) = def(alloc, rest)?;
        push(&mut list, next)?;
        over = rest;
    }
    Ok((list, over))
}

// The definitions of a node, of which there may be none.
fn body<'a, 't>(
    alloc: Global,
    ts: &'a [Token<'t>],
) -> Result<(Vec<Def>, &'a [Token<'t>]), Refusal<'a, 't>>
    ensures ok { IfOk result (λ p. (o : Option (List DefTree)) × ReadsOptional Part.Body ts.now o p.1.now × (map def_tree p.0.items ≡ unwrap_or o [])) }
    ensures refused { IfErr result (RefusedBy (UnfitOptional Part.Body ts.now)) }
    ensures shorter { IfOk result (λ p. length p.1.now ≤ length ts.now) }
{
    if let Some((_, ts)) = take(ts, Mark::Where) {
        let (_, ts) = want(ts, Mark::Rec)?;
        return defs(alloc, ts);
    }
    Ok((Vec::new(alloc), ts))
}

// `let node` and the name.
fn title<'a, 't>(
    alloc: Global,
    ts: &'a [Token<'t>],
) -> Result<(Name, &'a [Token<'t>]), Refusal<'a, 't>>
    ensures ok { IfOk result (λ p. Reads Part.Title ts.now p.0 p.1.now) }
    ensures refused { IfErr result (RefusedBy (Unfit Part.Title ts.now)) }
    ensures shorter { IfOk result (λ p. length p.1.now < length ts.now) }
{
    let (_, ts) = want(ts, Mark::Let)?;
    let (_, ts) = want(ts, Mark::Node)?;
    name(alloc, ts)
}

fn node<'a, 't>(
    alloc: Global,
    ts: &'a [Token<'t>],
) -> Result<(Node, &'a [Token<'t>]), Refusal<'a, 't>>
    ensures ok { IfOk result (λ p. Reads Part.Node ts.now (node_tree p.0) p.1.now) }
    ensures refused { IfErr result (RefusedBy (Unfit Part.Node ts.now)) }
    ensures shorter { IfOk result (λ p. length p.1.now < length ts.now) }
{
    let (name, ts) = title(alloc, ts)?;
    let (params, ts) = params(alloc, ts)?;
    let (_, ts) = want(ts, Mark::Equals)?;
    let (results, ts) = results(alloc, ts)?;
    let (defs, ts) = body(alloc, ts)?;
    let node = Node {
        name,
        params: Decls::new(params),
        results: Names::new(results),
        defs: Defs::new(defs),
    };
    Ok((node, ts))
}

/// The nodes of a program.
pub(crate) fn nodes<'a, 't>(
    alloc: Global,
    ts: &'a [Token<'t>],
) -> Result<(Vec<Node>, &'a [Token<'t>]), Refusal<'a, 't>>
    ensures ok { IfOk result (λ p. Reads Part.Program ts.now (map node_tree p.0.items) p.1.now) }
    ensures refused { IfErr result (RefusedBy (Unfit Part.Program ts.now)) }
    ensures shorter { IfOk result (λ p. length p.1.now < length ts.now) }
{
    let (head, mut over) = node(alloc, ts)?;
    let mut list = one(alloc, head)?;
    'more: while at(over, Kind::Mark(Mark::Let)) {
        let (next, rest) = node(alloc, over)?;
        push(&mut list, next)?;
        over = rest;
    }
    Ok((list, over))
}
