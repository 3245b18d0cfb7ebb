// The lines of a drawing.
ghost use Rattle.std.specs.Prelude.{◌≡◌, ◌<◌, ◌++◌, Some, length, flat_map, slice_get, codes, OnOk};
ghost use Rattle.std.specs.Option.{option_map_or};
ghost use Rattle.std.specs.Fmt.{decimal};
ghost use Rattle.lucy_diagram.specs.Labels.{result_of};
ghost use Rattle.lucy_graphviz.specs.Graphs as spec;

use crate::print::label::{label_at, put, put_label};
use lucy_diagram::{Edge, entry_at, result_of};
use lucy_place::{PlaceKind, PlacedNode};
use lucy_text::Text;
use std::alloc::{AllocError, Global};

// Puts the name of the box last to which an edge to a place of this kind goes.
fn put_end_by(
    alloc: Global,
    place: u32,
    kind: &PlaceKind,
    out: &mut Vec<u8>,
) -> Result<(), AllocError>
    ensures { OnOk result (out.new.items
        ≡ out.old.items ++ option_map_or (λ r. codes "c" ++ decimal r.0) (result_of kind.now) (codes "p" ++ decimal place)) }
{
    match result_of(kind) {
        Some((call, _)) => put(out, format!(in alloc; "c{call}")?.as_bytes()),
        None => put(out, format!(in alloc; "p{place}")?.as_bytes()),
    }
}

// The same of a place by its number.
fn put_end(
    alloc: Global,
    node: &PlacedNode,
    place: u32,
    out: &mut Vec<u8>,
) -> Result<(), AllocError>
    ensures { OnOk result (out.new.items ≡ out.old.items ++ spec.end_text node.now place) }
{
    match entry_at(node, place) {
        Some(entry) => put_end_by(alloc, place, &entry.kind, out),
        None => Ok(()),
    }
}

// How what comes an item later is drawn.
fn late_text(late: bool) -> &'static str
    ensures { result.now ≡ spec.late_text late }
{
    if late { ", style=dashed" } else { "" }
}

/// Puts the attributes of an edge last.
pub(crate) fn put_line(label: &[u8], late: bool, out: &mut Vec<u8>) -> Result<(), AllocError>
    ensures { OnOk result (out.new.items ≡ out.old.items ++ spec.line_text label.now late) }
{
    put(out, b" [")?;
    put_label(label, out)?;
    put(out, late_text(late).as_bytes())?;
    put(out, b"];\n")
}

// Puts an edge last, with the word of the place that it comes from.
fn put_edge(
    alloc: Global,
    node: &PlacedNode,
    labels: &[Text],
    edge: Edge,
    out: &mut Vec<u8>,
) -> Result<(), AllocError>
    ensures { OnOk result (out.new.items ≡ out.old.items ++ spec.edge_text node.now labels.now edge) }
{
    let from = edge.from;
    put(out, format!(in alloc; "  p{from} -> ")?.as_bytes())?;
    put_end(alloc, node, edge.to, out)?;
    put_line(label_at(labels, from), edge.late, out)
}

// The edge of a number from 0.
fn edge_at(edges: &[Edge], number: usize) -> &Edge
    requires { number < length edges.now }
    ensures { slice_get edges.now number ≡ Some result.now }
{
    &edges[number]
}

/// Puts edges last, in order.
pub(crate) fn put_edges(
    alloc: Global,
    node: &PlacedNode,
    labels: &[Text],
    edges: &[Edge],
    out: &mut Vec<u8>,
) -> Result<(), AllocError>
    ensures { OnOk result (out.new.items ≡ out.old.items ++ flat_map (spec.edge_text node.now labels.now) edges.now) }
{
    'each: for i in 0..edges.len() {
        let edge = edge_at(edges, i);
        put_edge(alloc, node, labels, *edge, out)?;
    }
    Ok(())
}
