// Where streams of a node are used in the text: each name that is read as a stream, with the place that it is of.
use crate::mark::{Kind, Mark};
use lucy_place::{PlaceKind, PlacedNode};
use lucy_tree::{Expr, Name, Node};
use std::alloc::AllocError;

// The place that a call, by its number from 1, reads as its argument of a number, from 0.
fn argument(node: &PlacedNode, call: u32, argument: usize) -> Option<u32> {
    let site = node.calls.list().get(call.checked_sub(1)? as usize)?;
    site.args.list().get(argument).copied()
}

// The place that a place, by its number from 1, reads as its operand of a number, from 0; a result of a call reads the call's arguments.
fn read_by(node: &PlacedNode, place: u32, operand: usize) -> Option<u32> {
    let entry = node.places.list().get(place.checked_sub(1)? as usize)?;
    match &entry.kind {
        PlaceKind::Result(call, _) => argument(node, *call, operand),
        kind => kind.operand(operand),
    }
}

// The place that the stream behind so many is defined as.
fn right_of(node: &PlacedNode, before: usize) -> Option<u32> {
    match u32::try_from(before.saturating_add(1)) {
        Ok(place) => read_by(node, place, 0),
        Err(_) => None,
    }
}

// Puts a use of a stream last, where its place is known.
fn push_use(
    number: u32,
    name: &Name,
    place: Option<u32>,
    marks: &mut Vec<Mark>,
) -> Result<(), AllocError> {
    let Some(place) = place else {
        return Ok(());
    };
    marks.push(Mark {
        from: name.span.from as usize,
        to: name.span.to as usize,
        kind: Kind::Use(number, place),
    })?;
    Ok(())
}

// Puts the uses in an expression that stands at a place last.
#[cycle(uses)]
fn put_expr(
    number: u32,
    node: &PlacedNode,
    expr: &Expr,
    place: Option<u32>,
    marks: &mut Vec<Mark>,
) -> Result<(), AllocError> {
    match expr {
        Expr::Lit { .. } => Ok(()),
        Expr::Var { name } => push_use(number, name, place, marks),
        Expr::Op { args, .. } => put_operands(number, node, args.list(), place, marks),
        Expr::Host { args, .. } => put_operands(number, node, args.list(), place, marks),
        Expr::When { operand, .. } => put_operand(number, node, operand, place, 0, marks),
        Expr::Merge { one, zero, .. } => {
            put_operand(number, node, one, place, 0, marks)?;
            put_operand(number, node, zero, place, 1, marks)
        }
        Expr::Fby { operand, .. } => put_operand(number, node, operand, place, 0, marks),
        Expr::Buffer { operand, .. } => put_operand(number, node, operand, place, 0, marks),
        Expr::Call { args, .. } => put_operands(number, node, args.list(), place, marks),
    }
}

// Puts those in what a place reads as its operand of a number last.
#[cycle(uses)]
fn put_operand(
    number: u32,
    node: &PlacedNode,
    expr: &Expr,
    place: Option<u32>,
    operand: usize,
    marks: &mut Vec<Mark>,
) -> Result<(), AllocError> {
    let read = match place {
        Some(place) => read_by(node, place, operand),
        None => None,
    };
    put_expr(number, node, expr, read, marks)
}

// Puts those in all that a place reads last.
#[cycle(uses)]
fn put_operands(
    number: u32,
    node: &PlacedNode,
    list: &[Expr],
    place: Option<u32>,
    marks: &mut Vec<Mark>,
) -> Result<(), AllocError> {
    for (operand, expr) in list.iter().enumerate() {
        put_operand(number, node, expr, place, operand, marks)?;
    }
    Ok(())
}

/// Puts the uses of the streams of a node last, by its number from 0 and by its tree: its results, and the names in its right sides.
pub(crate) fn put_uses(
    number: u32,
    node: &PlacedNode,
    tree: &Node,
    marks: &mut Vec<Mark>,
) -> Result<(), AllocError> {
    for (name, place) in tree.results.list().iter().zip(node.results.list()) {
        push_use(number, name, Some(*place), marks)?;
    }
    let mut before = tree.params.list().len();
    for def in tree.defs.list() {
        put_expr(number, node, &def.right, right_of(node, before), marks)?;
        before = before.saturating_add(def.left.list().len());
    }
    Ok(())
}
