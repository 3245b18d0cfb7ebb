// Reads expressions by descent: a function for each part of the grammar, and one for the operators of all levels. What they read
// lies on a pile, so that none of them owns an expression.
ghost use Rattle.std.specs.Prelude.{◌≡◌, ◌+◌, ◌-◌, ◌<◌, IfOk, IfErr, MatchResult, length};
ghost use Rattle.lucy_tree.specs.View.{tree_of};
ghost use Rattle.lucy_grammar.specs.Symbols.{Part};
ghost use Rattle.lucy_grammar.specs.Meanings.{token_name};
ghost use Rattle.lucy_grammar.specs.Reading.{Reads, Unfit, UnfitOptional};
ghost use Rattle.lucy_syntax.specs.Levels.{ReadsAt, UnfitAt};
ghost use Rattle.lucy_syntax.specs.Piles.{Descends, DescendsAll, Samples};
ghost use Rattle.lucy_syntax.specs.Refusals.{RefusedBy, ReadsEach, UnfitEach, ReadsEnclosed, UnfitEnclosed, ReadsOperand, UnfitOperand, ReadsHeld, IsFollowed, IsApplied, ReadsArgs};

use crate::atoms::{at_applied, at_expr, at_sampling, base, bounded, literal, sampling};
use crate::cursor::{next, take, token, want};
use crate::level::Level;
use crate::make;
use crate::refusal::{Read, Refusal};
use lucy_host::Op;
use lucy_token::{Kind, Mark, Token};
use lucy_tree::{Expr, Lit, Span};
use std::alloc::Global;

/// An expression.
pub(crate) fn expr<'a, 't>(
    alloc: Global,
    ts: &'a [Token<'t>],
) -> Result<(Expr, &'a [Token<'t>]), Refusal<'a, 't>>
    ensures ok { IfOk result (λ p. Reads Part.Expr ts.now (tree_of p.0) p.1.now) }
    ensures refused { IfErr result (RefusedBy (Unfit Part.Expr ts.now)) }
    ensures shorter { IfOk result (λ p. length p.1.now < length ts.now) }
{
    let mut pile = Vec::new(alloc);
    let rest = whole(alloc, ts, &mut pile)?;
    Ok((make::only(pile), rest))
}

/// A call.
pub(crate) fn call<'a, 't>(
    alloc: Global,
    ts: &'a [Token<'t>],
) -> Result<(Expr, &'a [Token<'t>]), Refusal<'a, 't>>
    ensures ok { IfOk result (λ p. Reads Part.Call ts.now (tree_of p.0) p.1.now) }
    ensures refused { IfErr result (RefusedBy (Unfit Part.Call ts.now)) }
    ensures shorter { IfOk result (λ p. length p.1.now < length ts.now) }
{
    let (name, rest) = token(ts, Kind::Name)?;
    let mut pile = Vec::new(alloc);
    let rest = applied(alloc, name, rest, &mut pile)?;
    Ok((make::only(pile), rest))
}

// An expression.
#[cycle(descent)]
fn whole<'a, 't>(alloc: Global, ts: &'a [Token<'t>], pile: &mut Vec<Expr>) -> Read<'a, 't>
    ensures { Descends (Reads Part.Expr ts.now) (Unfit Part.Expr ts.now) (length ts.now) pile.old.items pile.new.items result }
{
    if let Some((span, _)) = take(ts, Mark::If) {
        let rest = each(alloc, ts, &[Mark::If, Mark::Then, Mark::Else], pile)?;
        return make::operator(Op::If, span, 3, pile, rest);
    }
    operation(alloc, ts, Level::Or, pile)
}

// Expressions, each behind its sign.
#[cycle(descent)]
fn each<'a, 't>(
    alloc: Global,
    ts: &'a [Token<'t>],
    signs: &[Mark],
    pile: &mut Vec<Expr>,
) -> Read<'a, 't>
    ensures { DescendsAll (ReadsEach signs.now ts.now) (UnfitEach signs.now ts.now) (length ts.now + 1 - length signs.now) pile.old.items pile.new.items result }
{
    let Some((sign, more)) = signs.split_first() else {
        return Ok(ts);
    };
    let (_, rest) = want(ts, *sign)?;
    let rest = whole(alloc, rest, pile)?;
    each(alloc, rest, more, pile)
}

// The same, and then a closing parenthesis.
#[cycle(descent)]
fn enclosed<'a, 't>(
    alloc: Global,
    ts: &'a [Token<'t>],
    signs: &[Mark],
    pile: &mut Vec<Expr>,
) -> Read<'a, 't>
    ensures { DescendsAll (ReadsEnclosed signs.now ts.now) (UnfitEnclosed signs.now ts.now) (length ts.now) pile.old.items pile.new.items result }
{
    let rest = each(alloc, ts, signs, pile)?;
    let (_, rest) = want(rest, Mark::Close)?;
    Ok(rest)
}

// Operands with operators between them, up to those that bind as loosely as the wanted level.
#[cycle(descent)]
fn operation<'a, 't>(
    alloc: Global,
    ts: &'a [Token<'t>],
    wanted: Level,
    pile: &mut Vec<Expr>,
) -> Read<'a, 't>
    ensures { Descends (ReadsAt wanted ts.now) (UnfitAt wanted ts.now) (length ts.now) pile.old.items pile.new.items result }
{
    let mut over = samp(alloc, ts, pile)?;
    let mut level = Level::Samp;
    'up: while level.is_below(wanted) {
        let Some(((op, span), rest)) = level.sign(over) else {
            level = level.looser();
            continue;
        };
        let rest = operation(alloc, rest, level, pile)?;
        over = make::operator(op, span, 2, pile, rest)?;
        level = level.behind();
    }
    Ok(over)
}

// An operand, sampled as often as words follow it.
#[cycle(descent)]
fn samp<'a, 't>(alloc: Global, ts: &'a [Token<'t>], pile: &mut Vec<Expr>) -> Read<'a, 't>
    ensures { Descends (Reads Part.Samp ts.now) (Unfit Part.Samp ts.now) (length ts.now) pile.old.items pile.new.items result }
{
    let mut over = pre(alloc, ts, pile)?;
    'more: while at_sampling(over) {
        over = sampled(alloc, over, pile)?;
    }
    Ok(over)
}

// The operand on the pile with one sampling behind it.
fn sampled<'a, 't>(alloc: Global, ts: &'a [Token<'t>], pile: &mut Vec<Expr>) -> Read<'a, 't>
    requires { 0 < length pile.old.items }
    ensures { MatchResult result (λ rest. Samples ts.now pile.old.items pile.new.items rest.now) (RefusedBy (Unfit Part.Sampling ts.now)) }
{
    let ((flip, word), rest) = sampling(alloc, ts)?;
    make::sampled(alloc, flip, word, pile, rest)
}

// An operand with the words before it; it may stand behind `buffer` too, unless it begins as a bound with its expression does.
#[cycle(descent)]
fn pre<'a, 't>(alloc: Global, ts: &'a [Token<'t>], pile: &mut Vec<Expr>) -> Read<'a, 't>
    ensures { Descends (ReadsOperand ts.now) (UnfitOperand ts.now) (length ts.now) pile.old.items pile.new.items result }
{
    if let Some(((lit, span), rest)) = literal(ts) {
        return behind_literal(alloc, lit, span, rest, pile);
    }
    form(alloc, ts, pile)
}

// The literal with the operand before which it stands, or alone.
#[cycle(descent)]
fn behind_literal<'a, 't>(
    alloc: Global,
    lit: Lit,
    span: Span,
    ts: &'a [Token<'t>],
    pile: &mut Vec<Expr>,
) -> Read<'a, 't>
    ensures { Descends (IsFollowed lit span ts.now) (UnfitOptional Part.Followed ts.now) (length ts.now + 1) pile.old.items pile.new.items result }
{
    if let Some((fby, rest)) = take(ts, Mark::Fby) {
        let rest = pre(alloc, rest, pile)?;
        return make::followed(alloc, lit, fby, pile, rest);
    }
    make::literal(lit, span, pile, ts)
}

// An operand that is no literal and begins with none.
#[cycle(descent)]
fn form<'a, 't>(alloc: Global, ts: &'a [Token<'t>], pile: &mut Vec<Expr>) -> Read<'a, 't>
    ensures { Descends (Reads Part.Form ts.now) (Unfit Part.Form ts.now) (length ts.now) pile.old.items pile.new.items result }
{
    if let Some((span, rest)) = take(ts, Mark::Not) {
        let rest = pre(alloc, rest, pile)?;
        return make::operator(Op::Not, span, 1, pile, rest);
    }
    if let Some((span, rest)) = take(ts, Mark::Buffer) {
        return buffered(alloc, span, rest, pile);
    }
    if let Some((span, rest)) = take(ts, Mark::Merge) {
        let (word, rest) = token(rest, Kind::Word)?;
        let rest = small(alloc, rest, pile)?;
        let rest = small(alloc, rest, pile)?;
        return make::merged(alloc, word, span, pile, rest);
    }
    atom(alloc, ts, pile)
}

// What stands behind `buffer`: a bound and an expression in parentheses, or an operand.
#[cycle(descent)]
fn buffered<'a, 't>(
    alloc: Global,
    span: Span,
    ts: &'a [Token<'t>],
    pile: &mut Vec<Expr>,
) -> Read<'a, 't>
    ensures { Descends (ReadsHeld span ts.now) (Unfit Part.Buffered ts.now) (length ts.now) pile.old.items pile.new.items result }
{
    if let Some((most, rest)) = bounded(ts) {
        let rest = enclosed(alloc, rest, &[Mark::Open], pile)?;
        return make::buffered(alloc, Some(most), span, pile, rest);
    }
    let rest = pre(alloc, ts, pile)?;
    make::buffered(alloc, None, span, pile, rest)
}

// A name, a call, an operator of the host, or an expression in parentheses.
#[cycle(descent)]
fn atom<'a, 't>(alloc: Global, ts: &'a [Token<'t>], pile: &mut Vec<Expr>) -> Read<'a, 't>
    ensures { Descends (Reads Part.Atom ts.now) (Unfit Part.Atom ts.now) (length ts.now) pile.old.items pile.new.items result }
{
    if let Some((name, rest)) = next(ts, Kind::Name) {
        if at_applied(rest) {
            return applied(alloc, name, rest, pile);
        }
        return make::variable(alloc, name, pile, rest);
    }
    if let Some((_, rest)) = take(ts, Mark::Host) {
        let (name, rest) = token(rest, Kind::Name)?;
        let rest = enclosed(alloc, rest, &[Mark::Open, Mark::Comma], pile)?;
        return make::hosted(alloc, name, pile, rest);
    }
    enclosed(alloc, ts, &[Mark::Open], pile)
}

// A small operand.
#[cycle(descent)]
fn small<'a, 't>(alloc: Global, ts: &'a [Token<'t>], pile: &mut Vec<Expr>) -> Read<'a, 't>
    ensures { Descends (Reads Part.Small ts.now) (Unfit Part.Small ts.now) (length ts.now) pile.old.items pile.new.items result }
{
    if let Some(((lit, span), rest)) = literal(ts) {
        return make::literal(lit, span, pile, rest);
    }
    if let Some((name, rest)) = next(ts, Kind::Name) {
        return make::variable(alloc, name, pile, rest);
    }
    enclosed(alloc, ts, &[Mark::Open], pile)
}

// A call by this name: its base, where it is written, and its arguments.
#[cycle(descent)]
fn applied<'a, 't>(
    alloc: Global,
    name: &Token,
    ts: &'a [Token<'t>],
    pile: &mut Vec<Expr>,
) -> Read<'a, 't>
    ensures { Descends (IsApplied (token_name name.now) ts.now) (Unfit Part.Applied ts.now) (length ts.now) pile.old.items pile.new.items result }
{
    let from = pile.len();
    let (base, rest) = base(ts)?;
    let (_, rest) = want(rest, Mark::Open)?;
    let rest = args(alloc, rest, pile)?;
    let (_, rest) = want(rest, Mark::Close)?;
    make::called(alloc, name, base, from, pile, rest)
}

// The arguments before a closing parenthesis, with commas between, of which there may be none.
#[cycle(descent)]
fn args<'a, 't>(alloc: Global, ts: &'a [Token<'t>], pile: &mut Vec<Expr>) -> Read<'a, 't>
    ensures { DescendsAll (ReadsArgs ts.now) (UnfitOptional Part.Args ts.now) (length ts.now + 1) pile.old.items pile.new.items result }
{
    if !at_expr(ts) {
        return Ok(ts);
    }
    let mut over = whole(alloc, ts, pile)?;
    'more: while let Some((_, rest)) = take(over, Mark::Comma) {
        over = whole(alloc, rest, pile)?;
    }
    Ok(over)
}
