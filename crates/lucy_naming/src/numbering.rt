// Numbers the places of expressions in the order of the text, a form before its operands.
ghost use Rattle.std.specs.Prelude.{◌≡◌, ◌+◌, ◌^◌, ◌<◌, ◌≤◌, length, map, IfOk, OnOk};
ghost use Rattle.lucy_tree.specs.Tree.{trees_of};
ghost use Rattle.lucy_tree.specs.View.{tree_of};
ghost use Rattle.lucy_tree.specs.Shaped.{IsShaped, AreShaped};
ghost use Rattle.lucy_naming.specs.Phrases.{Called, headed, expr_phrase, expr_phrases};
ghost use Rattle.lucy_place.specs.Standing.{most_places};
ghost use Rattle.lucy_naming.specs.Numbering.{number, numbers, past, past_all};
ghost use Rattle.lucy_naming.specs.Drafts.{next_of, kind_of, phrase_operands, IsPlain, IsSmall, Draws, DrawsAll};
ghost use Rattle.lucy_naming.specs.Views.{known_of};

use crate::draft::Draft;
use crate::names::Names;
use crate::steps::{
    buffers_of, call_site, next_place, operator_place, settle, settle_call, single_kind, start,
    start_call, stream_place,
};
use lucy_place::{Numbers, PlaceKind};
use lucy_tree::{Expr, Name};
use lucy_word::Word;
use std::alloc::{AllocError, Global};

/// Numbers the places of an expression, which has so many results where it is a call, and answers its number.
#[cycle(numbering)]
pub(crate) fn expr_places(
    alloc: Global,
    names: &Names<'_, '_>,
    expr: &Expr,
    results: usize,
    draft: &mut Draft,
) -> Result<u32, AllocError>
    requires few { length names.now.streams.now ≤ most_places }
    requires nodes { length names.now.nodes.now < 2 ^ 32 }
    requires shaped { IsShaped (tree_of expr.now) }
    requires room { IsSmall (past (next_of (known_of names.now) draft.old) results (expr_phrase expr.now)) }
    ensures number { IfOk result (λ n. n ≡ number (known_of names.now) (next_of (known_of names.now) draft.old) (expr_phrase expr.now)) }
    ensures draws { OnOk result (Draws (known_of names.now) results (expr_phrase expr.now) draft.old draft.new) }
{
    match expr {
        Expr::Var { name } => Ok(stream_place(names, name)),
        Expr::Call { node, at, args } => call_places(
            alloc,
            names,
            node,
            at,
            args.list(),
            results,
            draft,
        ),
        _ => form_places(alloc, names, expr, draft),
    }
}

// Numbers the places of a form that is no call.
#[cycle(numbering)]
fn form_places(
    alloc: Global,
    names: &Names<'_, '_>,
    expr: &Expr,
    draft: &mut Draft,
) -> Result<u32, AllocError>
    requires few { length names.now.streams.now ≤ most_places }
    requires nodes { length names.now.nodes.now < 2 ^ 32 }
    requires plain { IsPlain (expr_phrase expr.now) }
    requires shaped { IsShaped (tree_of expr.now) }
    requires room { IsSmall (past (next_of (known_of names.now) draft.old) 1 (expr_phrase expr.now)) }
    ensures number { IfOk result (λ n. n ≡ (next_of (known_of names.now) draft.old).place) }
    ensures draws { OnOk result (Draws (known_of names.now) 1 (expr_phrase expr.now) draft.old draft.new) }
{
    let number = next_place(names, draft);
    let own = start(draft, buffers_of(expr))?;
    let kind = operand_places(alloc, names, expr, draft)?;
    settle(draft, own, kind);
    Ok(number)
}

// Numbers the places of the operands of a form that is no call, and answers what stands at its own place.
#[cycle(numbering)]
fn operand_places(
    alloc: Global,
    names: &Names<'_, '_>,
    expr: &Expr,
    draft: &mut Draft,
) -> Result<PlaceKind, AllocError>
    requires few { length names.now.streams.now ≤ most_places }
    requires nodes { length names.now.nodes.now < 2 ^ 32 }
    requires plain { IsPlain (expr_phrase expr.now) }
    requires shaped { IsShaped (tree_of expr.now) }
    requires room { IsSmall (past_all (next_of (known_of names.now) draft.old) (phrase_operands (expr_phrase expr.now))) }
    ensures kind { IfOk result (λ kind. kind ≡ kind_of (known_of names.now) draft.old.buffers (expr_phrase expr.now) (numbers (known_of names.now) (next_of (known_of names.now) draft.old) (phrase_operands (expr_phrase expr.now)))) }
    ensures draws { OnOk result (DrawsAll (known_of names.now) (phrase_operands (expr_phrase expr.now)) draft.old draft.new) }
{
    match expr {
        Expr::Lit { lit, .. } => Ok(PlaceKind::Lit(*lit)),
        Expr::Op { op, args, .. } => {
            let args = all_places(alloc, names, args.list(), draft)?;
            Ok(PlaceKind::Op(*op, Numbers::new(args)))
        }
        Expr::Host { name, args } => {
            let args = all_places(alloc, names, args.list(), draft)?;
            Ok(PlaceKind::Host(
                operator_place(names, name),
                args.first().copied().unwrap_or(0),
                args.get(1).copied().unwrap_or(0),
            ))
        }
        Expr::When { operand, .. } | Expr::Fby { operand, .. } | Expr::Buffer { operand, .. } => {
            let buffer = draft.buffers;
            let operand = expr_places(alloc, names, operand, 1, draft)?;
            single_kind(alloc, expr, buffer, operand)
        }
        Expr::Merge {
            word,
            one,
            zero,
            ..
        } => {
            let one = expr_places(alloc, names, one, 1, draft)?;
            let zero = expr_places(alloc, names, zero, 1, draft)?;
            let word = word.copy(alloc)?;
            Ok(PlaceKind::Merge(word, one, zero))
        }
        Expr::Var { .. } => Ok(PlaceKind::Param),
        Expr::Call { .. } => Ok(PlaceKind::Param),
    }
}

// Numbers the places of a call with so many results.
#[cycle(numbering)]
fn call_places(
    alloc: Global,
    names: &Names<'_, '_>,
    node: &Name,
    at: &Option<Word>,
    list: &[Expr],
    results: usize,
    draft: &mut Draft,
) -> Result<u32, AllocError>
    requires few { length names.now.streams.now ≤ most_places }
    requires nodes { length names.now.nodes.now < 2 ^ 32 }
    requires shaped { AreShaped (trees_of (map tree_of list.now)) }
    requires room { IsSmall (past (next_of (known_of names.now) draft.old) results (headed (Called node.now at.now) node.now.span (expr_phrases list.now))) }
    ensures number { IfOk result (λ n. n ≡ (next_of (known_of names.now) draft.old).place) }
    ensures draws { OnOk result (Draws (known_of names.now) results (headed (Called node.now at.now) node.now.span (expr_phrases list.now)) draft.old draft.new) }
{
    let number = next_place(names, draft);
    let site = start_call(alloc, draft, results)?;
    let args = all_places(alloc, names, list, draft)?;
    settle_call(
        draft,
        site,
        call_site(alloc, names, node, at, number, args)?,
    );
    Ok(number)
}

// Numbers the places of operands, and answers their numbers.
#[cycle(numbering)]
fn all_places(
    alloc: Global,
    names: &Names<'_, '_>,
    list: &[Expr],
    draft: &mut Draft,
) -> Result<Vec<u32>, AllocError>
    requires few { length names.now.streams.now ≤ most_places }
    requires nodes { length names.now.nodes.now < 2 ^ 32 }
    requires shaped { AreShaped (trees_of (map tree_of list.now)) }
    requires room { IsSmall (past_all (next_of (known_of names.now) draft.old) (expr_phrases list.now)) }
    ensures numbers { IfOk result (λ v. v.items ≡ numbers (known_of names.now) (next_of (known_of names.now) draft.old) (expr_phrases list.now)) }
    ensures draws { OnOk result (DrawsAll (known_of names.now) (expr_phrases list.now) draft.old draft.new) }
{
    let mut found = Vec::new(alloc);
    'each: for expr in list {
        let number = expr_places(alloc, names, expr, 1, draft)?;
        found.push(number)?;
    }
    Ok(found)
}
