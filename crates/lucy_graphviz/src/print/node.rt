// The drawing of a node.
ghost use Rattle.std.specs.Prelude.{List, ℕ, ◌≡◌, ◌<◌, ◌+◌, ◌^◌, ◌++◌, Some, length, map, flat_map, slice_get, OnOk};
ghost use Rattle.lucy_host.specs.Operators.{Operator};
ghost use Rattle.lucy_tree.specs.View.{program_tree};
ghost use Rattle.lucy_place.specs.declared.placed.PlacedNode.{PlacedNode as Node};
ghost use Rattle.lucy_flat.specs.Instances.{words_in};
ghost use Rattle.lucy_program.specs.declared.options.Options.{Options as Choices};
ghost use Rattle.lucy_program.specs.Accepting.{IsAccepted};
ghost use Rattle.lucy_diagram.specs.declared.call.DrawnCall.{DrawnCall as Drawn};
ghost use Rattle.lucy_diagram.specs.Diagrams.{drawn_places};
ghost use Rattle.lucy_graphviz.specs.Labels.{word_label};
ghost use Rattle.lucy_graphviz.specs.Graphs as spec;

use crate::print::boxes::{drawn_at, put_box};
use crate::print::calls::put_calls;
use crate::print::label::{put, put_head, word_labels};
use crate::print::lines::put_edges;
use lucy_diagram::{Diagram, DrawnCall, DrawnPlace, Edge, Figure, diagram_of};
use lucy_place::PlacedNode;
use lucy_program::Accepted;
use lucy_text::Text;
use lucy_tree::Program;
use std::alloc::{AllocError, Global};

// Whether a place's box stands on its own: the results of calls stand with these.
fn is_own(figure: Figure) -> bool
    ensures { result ≡ spec.is_own figure }
{
    match figure {
        Figure::Parameter => true,
        Figure::Name => true,
        Figure::Literal => true,
        Figure::Operator => true,
        Figure::Sampling => true,
        Figure::Merge => true,
        Figure::Delay => true,
        Figure::Buffer => true,
        Figure::CallResult => false,
    }
}

// Puts the box of a place last, where it stands on its own.
fn put_own(
    alloc: Global,
    program: &Program,
    accepted: &Accepted,
    node: u32,
    found: &PlacedNode,
    drawn: DrawnPlace,
    out: &mut Vec<u8>,
) -> Result<(), AllocError>
    ensures { OnOk result (out.new.items ≡ out.old.items
        ++ spec.own_box (program_tree program.now) accepted.now node found.now drawn) }
{
    if !is_own(drawn.figure) {
        return Ok(());
    }
    let place = drawn.place;
    put(out, format!(in alloc; "  p{place}")?.as_bytes())?;
    put_box(
        alloc,
        program,
        accepted,
        node,
        found,
        b"",
        place,
        drawn.figure,
        out,
    )
}

// Puts those of places.
fn put_boxes(
    alloc: Global,
    program: &Program,
    accepted: &Accepted,
    node: u32,
    found: &PlacedNode,
    places: &[DrawnPlace],
    out: &mut Vec<u8>,
) -> Result<(), AllocError>
    ensures { OnOk result (out.new.items ≡ out.old.items
        ++ flat_map (spec.own_box (program_tree program.now) accepted.now node found.now) places.now) }
{
    'each: for i in 0..places.len() {
        let drawn = drawn_at(places, i);
        put_own(alloc, program, accepted, node, found, *drawn, out)?;
    }
    Ok(())
}

// Puts a drawing of a node last.
fn put_graph(
    alloc: Global,
    program: &Program,
    accepted: &Accepted,
    node: u32,
    found: &PlacedNode,
    labels: &[Text],
    places: &[DrawnPlace],
    calls: &[DrawnCall],
    edges: &[Edge],
    out: &mut Vec<u8>,
) -> Result<(), AllocError>
    requires { (i : ℕ) (call : Drawn) → slice_get calls.now i ≡ Some call → call.first + call.results < 2 ^ 32 }
    ensures { OnOk result (out.new.items ≡ out.old.items
        ++ spec.graph_text (program_tree program.now) accepted.now node found.now labels.now places.now calls.now edges.now) }
{
    put_head(found.name.text.bytes(), out)?;
    put_boxes(alloc, program, accepted, node, found, places, out)?;
    put_calls(alloc, program, accepted, node, found, labels, calls, out)?;
    put_edges(alloc, found, labels, edges, out)?;
    put(out, b"}\n")?;
    Ok(())
}

// Puts that of a node whose diagram this is.
fn put_diagram(
    alloc: Global,
    program: &Program,
    accepted: &Accepted,
    node: u32,
    found: &PlacedNode,
    diagram: &Diagram,
    out: &mut Vec<u8>,
) -> Result<(), AllocError>
    requires places { diagram.now.places.items ≡ drawn_places found.now }
    requires fit { (i : ℕ) (call : Drawn) → slice_get diagram.now.calls.items i ≡ Some call → call.first + call.results < 2 ^ 32 }
    ensures { OnOk result (out.new.items ≡ out.old.items
        ++ spec.graph_text (program_tree program.now) accepted.now node found.now
        (map word_label (words_in (slice_get accepted.now.clocks.items node))) (drawn_places found.now) diagram.now.calls.items diagram.now.edges.items) }
{
    let labels = word_labels(alloc, accepted, node)?;
    let labels = labels.as_slice();
    let places = diagram.places.as_slice();
    let calls = diagram.calls.as_slice();
    let edges = diagram.edges.as_slice();
    put_graph(
        alloc, program, accepted, node, found, labels, places, calls, edges, out,
    )?;
    Ok(())
}

/// Puts the drawing of a node last, by its number from 0.
pub(crate) fn put_node(
    alloc: Global,
    program: &Program,
    accepted: &Accepted,
    node: u32,
    out: &mut Vec<u8>,
) -> Result<(), AllocError>
    requires accepted { (ops : List Operator) × (o : Choices) × (text : List ℕ) × IsAccepted ops o text accepted.now }
    requires node { node < length accepted.now.placed.nodes }
    ensures { (n : Node) → slice_get accepted.now.placed.nodes node ≡ Some n →
        OnOk result (spec.PutsNode (program_tree program.now) accepted.now node n out.old.items out.new.items) }
{
    let diagram = diagram_of(alloc, accepted, node)?;
    let found = accepted.placed.node(node);
    put_diagram(alloc, program, accepted, node, found, &diagram, out)?;
    Ok(())
}
