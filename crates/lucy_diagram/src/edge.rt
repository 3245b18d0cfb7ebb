// Which place of a node reads which.
ghost use Rattle.std.specs.Prelude.{◌≡◌, ◌<◌, ◌≤◌, ◌∷◌, ◌++◌, [], Some, false, length, slice_get, IfOk, OnOk};
ghost use Rattle.lucy_place.specs.Standing.{most_places, at_one};
ghost use Rattle.lucy_place.specs.Reads.{arguments_of, reads_of};
ghost use Rattle.lucy_diagram.specs.Diagrams.{is_late, AreEdges};
ghost use Rattle.lucy_diagram.specs.Drawn.{edges_at, node_edges};

use lucy_place::{PlaceKind, PlacedNode};
use std::alloc::{AllocError, Global};

/// That a place reads another, each by its number from 1: as which of its operands, from 0, and whether an item later, as `fby` does.
/// What a call reads is read by its first result. The items come at the word of the place that they come from, whose clock has its
/// number.
#[derive(Clone, Copy)]
pub struct Edge {
    pub from: u32,
    pub to: u32,
    pub seat: usize,
    pub late: bool,
}

// Puts the edges to a place last that come from its operands.
fn put_operands(
    late: bool,
    to: u32,
    operands: &[u32],
    edges: &mut Vec<Edge>,
) -> Result<(), AllocError>
    ensures { OnOk result (edges.new.items ≡ edges.old.items ++ edges_at late to 0 operands.now) }
{
    'each: for (seat, operand) in operands.iter().enumerate() {
        let from = *operand;
        let edge = Edge {
            from,
            to,
            seat,
            late,
        };
        edges.push(edge)?;
    }
    Ok(())
}

// The arguments of the call of a number.
fn arguments(node: &PlacedNode, call: u32) -> &[u32]
    ensures { result.now ≡ arguments_of (at_one node.now.calls call) }
{
    let Some(index) = call.checked_sub(1) else {
        return &[];
    };
    match node.calls.list().get(index as usize) {
        Some(site) => site.args.list(),
        None => &[],
    }
}

// Puts the edges to a result of a call last: to the first one from the call's arguments, and none to another.
fn put_arguments(
    node: &PlacedNode,
    to: u32,
    call: u32,
    result_number: u32,
    edges: &mut Vec<Edge>,
) -> Result<(), AllocError>
    ensures { OnOk result (edges.new.items ≡ edges.old.items ++ edges_at false to 0 (reads_of node.now (PlaceKind.Result call result_number))) }
{
    if result_number > 0 {
        return Ok(());
    }
    put_operands(false, to, arguments(node, call), edges)
}

// Puts the edges to a place of a kind last.
fn put_edges(
    node: &PlacedNode,
    to: u32,
    kind: &PlaceKind,
    edges: &mut Vec<Edge>,
) -> Result<(), AllocError>
    ensures { OnOk result (edges.new.items ≡ edges.old.items ++ edges_at (is_late kind.now) to 0 (reads_of node.now kind.now)) }
{
    match kind {
        PlaceKind::Param => Ok(()),
        PlaceKind::Defined(right) => put_operands(false, to, &[*right], edges),
        PlaceKind::Lit(_) => Ok(()),
        PlaceKind::Op(_, operands) => put_operands(false, to, operands.list(), edges),
        PlaceKind::Host(_, first, second) => put_operands(false, to, &[*first, *second], edges),
        PlaceKind::When(operand, _) => put_operands(false, to, &[*operand], edges),
        PlaceKind::Merge(_, one, zero) => put_operands(false, to, &[*one, *zero], edges),
        PlaceKind::Fby(_, operand) => put_operands(true, to, &[*operand], edges),
        PlaceKind::Buffer(_, operand) => put_operands(false, to, &[*operand], edges),
        PlaceKind::Result(call, number) => put_arguments(node, to, *call, *number, edges),
    }
}

// The edges of a node as a list: place by place, and for each in the order of its operands.
fn edge_list(alloc: Global, node: &PlacedNode) -> Result<Vec<Edge>, AllocError>
    requires { length node.now.places ≤ most_places }
    ensures { IfOk result (λ v. v.items ≡ node_edges node.now) }
{
    let mut edges = Vec::new(alloc);
    'each: for (i, entry) in node.places.list().iter().enumerate() {
        put_edges(node, i as u32 + 1, &entry.kind, &mut edges)?;
    }
    Ok(edges)
}

/// The edges of a node.
pub(crate) fn edges(alloc: Global, node: &PlacedNode) -> Result<Vec<Edge>, AllocError>
    requires { length node.now.places ≤ most_places }
    ensures { IfOk result (λ v. AreEdges node.now v.items) }
{
    let edges = edge_list(alloc, node)?;
    Ok(edges)
}

/// The edge of a number from 0.
pub(crate) fn edge_at(edges: &[Edge], number: usize) -> &Edge
    requires { number < length edges.now }
    ensures { slice_get edges.now number ≡ Some result.now }
{
    &edges[number]
}
