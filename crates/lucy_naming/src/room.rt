// Counts places, up to the number that a node may have.
ghost use Rattle.std.specs.Prelude.{◌≡◌, ◌+◌, ◌<◌, ◌≤◌, ◌↔◌, length, map, MatchOption, IsTrue};
ghost use Rattle.lucy_tree.specs.View.{node_tree, def_tree};
ghost use Rattle.lucy_naming.specs.Streams.{streams, result_count};
ghost use Rattle.lucy_naming.specs.Phrases.{expr_phrase, expr_phrases};
ghost use Rattle.lucy_place.specs.Standing.{most_places};
ghost use Rattle.lucy_naming.specs.Numbering.{rooms, all_rooms, def_rooms, node_rooms};

use lucy_tree::{Decl, Def, Expr, Node};
use lucy_word::Limit;

/// How many results a call has that is defined under these names.
pub(crate) fn result_count(left: &[Decl]) -> usize
    ensures { result ≡ result_count left.now }
{
    if left.is_empty() { 1 } else { left.len() }
}

// What is left of so many places behind an expression, where it has no more.
#[cycle(room)]
fn behind(left: usize, expr: &Expr, results: usize) -> Option<usize>
    ensures { MatchOption result (left < rooms results (expr_phrase expr.now)) (λ more. more + rooms results (expr_phrase expr.now) ≡ left) }
{
    match expr {
        Expr::Lit { .. } => left.checked_sub(1),
        Expr::Var { .. } => Some(left),
        Expr::Op { args, .. } => behind_all(left.checked_sub(1)?, args.list()),
        Expr::Host { args, .. } => behind_all(left.checked_sub(1)?, args.list()),
        Expr::When { operand, .. } => behind(left.checked_sub(1)?, operand, 1),
        Expr::Merge { one, zero, .. } => behind(behind(left.checked_sub(1)?, one, 1)?, zero, 1),
        Expr::Fby { operand, .. } => behind(left.checked_sub(1)?, operand, 1),
        Expr::Buffer { operand, .. } => behind(left.checked_sub(1)?, operand, 1),
        Expr::Call { args, .. } => behind_all(left.checked_sub(results)?, args.list()),
    }
}

// What is left of so many places behind operands, where they have no more.
#[cycle(room)]
fn behind_all(left: usize, list: &[Expr]) -> Option<usize>
    ensures { MatchOption result (left < all_rooms (expr_phrases list.now)) (λ more. more + all_rooms (expr_phrases list.now) ≡ left) }
{
    let mut more = left;
    'each: for expr in list {
        more = behind(more, expr, 1)?;
    }
    Some(more)
}

// What is left of so many places behind the right sides of definitions, where they have no more.
fn behind_defs(left: usize, defs: &[Def]) -> Option<usize>
    ensures { MatchOption result (left < def_rooms (map def_tree defs.now)) (λ more. more + def_rooms (map def_tree defs.now) ≡ left) }
{
    let mut more = left;
    'each: for def in defs {
        more = behind(more, &def.right, result_count(def.left.list()))?;
    }
    Some(more)
}

/// Whether a node with so many streams has no more places than it may have.
pub(crate) fn fits(node: &Node, named: usize) -> bool
    requires { named ≡ length (streams (node_tree node.now)) }
    ensures { IsTrue result ↔ (node_rooms (node_tree node.now) ≤ most_places) }
{
    match (Limit::Places.number() as usize).checked_sub(named) {
        Some(left) => behind_defs(left, node.defs.list()).is_some(),
        None => false,
    }
}
