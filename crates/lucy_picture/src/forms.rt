// What stands in the text at the places of a node.
ghost use Rattle.std.specs.Prelude.{ℕ, List, ◌≡◌, ◌+◌, ◌<◌, Some, length, map, fold, MatchOption};
ghost use Rattle.std.specs.Option.{option_map};
ghost use Rattle.lucy_host.specs.Operators.{Operator};
ghost use Rattle.lucy_tree.specs.Tree.{Tree, trees_of};
ghost use Rattle.lucy_tree.specs.View.{NodeTree, ProgramTree, tree_of, def_tree, node_tree};
ghost use Rattle.lucy_place.specs.declared.entry.PlaceEntry.{PlaceEntry as Entry};
ghost use Rattle.lucy_naming.specs.Places.{as_placed};
ghost use Rattle.lucy_place.specs.Standing.{at_one};
ghost use Rattle.lucy_naming.specs.Streams.{streams, result_count};
ghost use Rattle.lucy_picture.specs.Forms.{times, forms, all_forms, def_forms, form_at, IsOfForm};
ghost use Rattle.lucy_picture.specs.Seeking.{seek, seen};

use lucy_tree::{Decl, Def, Expr, Node};

/// A search for the form of a number: how many forms stand before it, and the form where it is found.
#[derive(Clone, Copy)]
struct Search<'a> {
    skip: usize,
    found: Option<&'a Expr>,
}

// The search past a form.
fn past<'a>(at: Search<'a>, form: &'a Expr) -> Search<'a>
    ensures { seen result ≡ seek (seen at.entry) (tree_of form.now) }
{
    match at.found {
        Some(_) => at,
        None => match at.skip.checked_sub(1) {
            None => Search {
                skip: 0,
                found: Some(form),
            },
            Some(skip) => Search { skip, found: None },
        },
    }
}

// The search past a call, which has a place for each of its results.
fn past_call<'a>(at: Search<'a>, call: &'a Expr, results: usize) -> Search<'a>
    ensures { seen result ≡ fold seek (seen at.entry) (times results (tree_of call.now)) }
{
    let mut at = at;
    let mut left = results;
    'each: while left > 0 {
        at = past(at, call);
        left -= 1;
    }
    at
}

// The search past an expression, which has so many results where it is a call.
#[cycle(forms)]
fn inside<'a>(at: Search<'a>, expr: &'a Expr, results: usize) -> Search<'a>
    ensures { seen result ≡ fold seek (seen at.entry) (forms results (tree_of expr.now)) }
{
    match expr {
        Expr::Lit { .. } => past(at, expr),
        Expr::Var { .. } => at,
        Expr::Op { args, .. } => inside_all(past(at, expr), args.list()),
        Expr::Host { args, .. } => inside_all(past(at, expr), args.list()),
        Expr::When { operand, .. } => inside(past(at, expr), operand, 1),
        Expr::Merge { one, zero, .. } => inside(inside(past(at, expr), one, 1), zero, 1),
        Expr::Fby { operand, .. } => inside(past(at, expr), operand, 1),
        Expr::Buffer { operand, .. } => inside(past(at, expr), operand, 1),
        Expr::Call { args, .. } => inside_all(past_call(at, expr, results), args.list()),
    }
}

// The search past operands.
#[cycle(forms)]
fn inside_all<'a>(at: Search<'a>, list: &'a [Expr]) -> Search<'a>
    ensures { seen result ≡ fold seek (seen at.entry) (all_forms (trees_of (map tree_of list.now))) }
{
    let mut at = at;
    'each: for expr in list {
        at = inside(at, expr, 1);
    }
    at
}

// How many results a call has that is defined under these names.
fn results_of(left: &[Decl]) -> usize
    ensures { result ≡ result_count left.now }
{
    if left.is_empty() { 1 } else { left.len() }
}

// The search past a right side.
fn past_def<'a>(at: Search<'a>, def: &'a Def) -> Search<'a>
    ensures { seen result ≡ fold seek (seen at.entry) (forms (result_count (def_tree def.now).left) (def_tree def.now).right) }
{
    inside(at, &def.right, results_of(def.left.list()))
}

// The search past right sides.
fn past_defs<'a>(at: Search<'a>, defs: &'a [Def]) -> Search<'a>
    ensures { seen result ≡ fold seek (seen at.entry) (def_forms (map def_tree defs.now)) }
{
    let mut at = at;
    'each: for def in defs {
        at = past_def(at, def);
    }
    at
}

// How many places stand between the streams of a node and a place, which counts from 0, where that is none of them.
fn behind_streams(node: &Node, place: usize) -> Option<usize>
    ensures { MatchOption result (place < length (streams (node_tree node.now))) (λ skip. skip + length (streams (node_tree node.now)) ≡ place) }
{
    let mut skip = place.checked_sub(node.params.list().len())?;
    'each: for def in node.defs.list() {
        skip = skip.checked_sub(def.left.list().len())?;
    }
    Some(skip)
}

/// The form that stands at a place of a node, by its number from 1, which is none of the node's streams.
pub fn form_of(node: &Node, place: u32) -> Option<&Expr>
    ensures { option_map (λ e. tree_of e.now) result ≡ form_at (node_tree node.now) place }
{
    let skip = behind_streams(node, place.checked_sub(1)? as usize)?;
    let start = Search { skip, found: None };
    past_defs(start, node.defs.list()).found
}

/// Behind the streams of a node, a form stands at each place: what is placed there is of its kind and says the same.
pub fn forms_stand_at_their_places()
    ensures { (ops : List Operator) (above : ProgramTree) (n : NodeTree) (place : ℕ) (entry : Entry) → at_one (as_placed ops above n).places place ≡ Some entry → length (streams n) < place →
        (t : Tree) × (form_at n place ≡ Some t) × IsOfForm t entry.kind }
{}
