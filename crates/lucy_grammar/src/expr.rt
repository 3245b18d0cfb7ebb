// Writes expressions.
ghost use Rattle.std.specs.Prelude.{◌≡◌, ◌∷◌, ◌++◌};
ghost use Rattle.lucy_token.specs.declared.mark.Mark.TheVariants as mark;
ghost use Rattle.lucy_tree.specs.Tree as tree;
ghost use Rattle.lucy_tree.specs.View.{tree_of, all_trees};
ghost use Rattle.lucy_grammar.specs.Spans.{nowhere};
ghost use Rattle.lucy_grammar.specs.PrintTokens.{blank, the, name_token, word_token, spaced_text, printed, operand, parens, operated, operands, commas, all_printed};
ghost use Rattle.lucy_grammar.specs.Sheets.{Adds, call_front};

use crate::sheet::{Sheet, when_mark};
use lucy_host::Op;
use lucy_token::{Mark, op_mark};
use lucy_tree::{Expr, Lit, Name};
use lucy_word::Word;

/// An expression, without parentheses round it.
#[cycle(printed)]
pub(crate) fn expr(expr: &Expr, out: &mut Sheet)
    ensures { Adds (spaced_text (printed (tree_of expr.now))) out.old out.new }
{
    match expr {
        Expr::Lit { lit, .. } => out.lit(*lit),
        Expr::Var { name } => out.name(name),
        Expr::Op { op, args, .. } => operated(*op, args.list(), out),
        Expr::Host { name, args } => {
            hosted(name, out);
            enclosed_all(args.list(), out);
        }
        Expr::When {
            flip,
            operand: inner,
            word,
        } => sampled(*flip, inner, word, out),
        Expr::Merge {
            word,
            one,
            zero,
            ..
        } => {
            merging(word, out);
            operand(one, out);
            out.blank();
            operand(zero, out);
        }
        Expr::Fby {
            first,
            operand: later,
            ..
        } => followed(*first, later, out),
        Expr::Buffer {
            most,
            operand: inner,
            ..
        } => buffered(*most, inner, out),
        Expr::Call { node, at, args } => {
            called(node, at, out);
            enclosed_all(args.list(), out);
        }
    }
}

// What stands in a call of the host's before its operands: `host NAME `
fn hosted(name: &Name, out: &mut Sheet)
    ensures { Adds (spaced_text (the mark.Host) ++ (32 ∷ (spaced_text (name_token name.now) ++ blank))) out.old out.new }
{
    out.leading(Mark::Host);
    out.name(name);
    out.blank();
}

// What stands in a merge before its operands: `merge W `
fn merging(word: &Word, out: &mut Sheet)
    ensures { Adds (spaced_text (the mark.Merge) ++ (32 ∷ (spaced_text (word_token word.now) ++ blank))) out.old out.new }
{
    out.leading(Mark::Merge);
    out.word(word);
    out.blank();
}

// `A when W`, or with `flip` `A whenot W`
#[cycle(printed)]
fn sampled(flip: bool, inner: &Expr, word: &Word, out: &mut Sheet)
    ensures { Adds (spaced_text (printed (tree.sampled flip (tree_of inner.now) word.now))) out.old out.new }
{
    operand(inner, out);
    out.between(when_mark(flip));
    out.word(word);
}

// `L fby A`
#[cycle(printed)]
fn followed(first: Lit, later: &Expr, out: &mut Sheet)
    ensures { Adds (spaced_text (printed (tree.followed first (tree_of later.now) nowhere))) out.old out.new }
{
    out.lit(first);
    out.between(Mark::Fby);
    operand(later, out);
}

// `buffer A`, or with a written bound `buffer B (E)`
#[cycle(printed)]
fn buffered(most: Option<u64>, inner: &Expr, out: &mut Sheet)
    ensures { Adds (spaced_text (printed (tree.buffered most (tree_of inner.now) nowhere))) out.old out.new }
{
    out.leading(Mark::Buffer);
    match most {
        None => operand(inner, out),
        Some(most) => {
            out.bound(most);
            out.blank();
            enclosed(inner, out);
        }
    }
}

// An operand: a literal or a name alone, all else in parentheses.
#[cycle(printed)]
fn operand(inner: &Expr, out: &mut Sheet)
    ensures { Adds (spaced_text (operand (tree_of inner.now) (printed (tree_of inner.now)))) out.old out.new }
{
    match inner {
        Expr::Lit { .. } => expr(inner, out),
        Expr::Var { .. } => expr(inner, out),
        _ => enclosed(inner, out),
    }
}

#[cycle(printed)]
fn enclosed(inner: &Expr, out: &mut Sheet)
    ensures { Adds (spaced_text (parens (printed (tree_of inner.now)))) out.old out.new }
{
    out.mark(Mark::Open);
    expr(inner, out);
    out.mark(Mark::Close);
}

// `not A`, `A + B`, `if A then B else C`, by the number of the operands.
#[cycle(printed)]
fn operated(op: Op, list: &[Expr], out: &mut Sheet)
    ensures { Adds (spaced_text (operated op (operands (all_trees list.now)))) out.old out.new }
{
    match list {
        [] => out.mark(op_mark(op)),
        [a] => {
            out.leading(op_mark(op));
            operand(a, out);
        }
        [a, b] => {
            operand(a, out);
            out.between(op_mark(op));
            operand(b, out);
        }
        [a, b, c, ..] => {
            out.leading(op_mark(op));
            operand(a, out);
            out.between(Mark::Then);
            operand(b, out);
            out.between(Mark::Else);
            operand(c, out);
        }
    }
}

// What stands in a call before its arguments: `NAME `, or with a written base `NAME at W `
fn called(node: &Name, at: &Option<Word>, out: &mut Sheet)
    ensures { Adds (call_front node.now at.now) out.old out.new }
{
    out.name(node);
    if let Some(base) = at {
        out.between(Mark::At);
        out.word(base);
    }
    out.blank();
}

// Arguments in parentheses.
#[cycle(printed)]
fn enclosed_all(list: &[Expr], out: &mut Sheet)
    ensures { Adds (spaced_text (parens (commas (all_printed (all_trees list.now))))) out.old out.new }
{
    out.mark(Mark::Open);
    separated(list, out);
    out.mark(Mark::Close);
}

// Expressions with commas between.
#[cycle(printed)]
fn separated(list: &[Expr], out: &mut Sheet)
    ensures { Adds (spaced_text (commas (all_printed (all_trees list.now)))) out.old out.new }
{
    let Some((first, more)) = list.split_first() else {
        return;
    };
    expr(first, out);
    'more: for next in more {
        out.comma();
        expr(next, out);
    }
}
