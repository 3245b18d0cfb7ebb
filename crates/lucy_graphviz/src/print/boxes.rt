// The box of a place.
ghost use Rattle.std.specs.Prelude.{◌≡◌, ◌<◌, ◌==◌, ◌&&◌, ◌++◌, Some, nat_eq, length, slice_get, IfOk, OnOk};
ghost use Rattle.std.specs.List.{list_any};
ghost use Rattle.lucy_tree.specs.View.{program_tree};
ghost use Rattle.lucy_graphviz.specs.Graphs as spec;

use crate::print::label::{put, put_label};
use crate::print::sizes::put_size;
use lucy_diagram::{DrawnPlace, Figure, put_there};
use lucy_place::PlacedNode;
use lucy_program::Accepted;
use lucy_tree::Program;
use std::alloc::{AllocError, Global};

/// The place of a number from 0.
pub(crate) fn drawn_at(places: &[DrawnPlace], number: usize) -> &DrawnPlace
    requires { number < length places.now }
    ensures { slice_get places.now number ≡ Some result.now }
{
    &places[number]
}

// The shape of a box, where it is no plain one.
fn shape_of(figure: Figure) -> &'static str
    ensures { result.now ≡ spec.shape_of figure }
{
    match figure {
        Figure::Parameter => ", shape=ellipse",
        Figure::Name => ", shape=ellipse",
        Figure::Literal => "",
        Figure::Operator => "",
        Figure::Sampling => "",
        Figure::Merge => "",
        Figure::Delay => "",
        Figure::Buffer => ", shape=cylinder",
        Figure::CallResult => "",
    }
}

// The line round a box.
fn double_line(is_result: bool) -> &'static str
    ensures { result.now ≡ spec.double_line is_result }
{
    if is_result { ", peripheries=2" } else { "" }
}

// Whether a place is a result of its node, in a drawing of the node alone.
fn is_result(before: &[u8], node: &PlacedNode, place: u32) -> bool
    ensures { result ≡ (nat_eq (length before.now) 0 && list_any (λ q. q == place) node.now.results) }
{
    before.is_empty() && node.results.list().contains(&place)
}

// Puts how a box looks last: its shape, and a double line round it where it is a result of its node.
fn put_look(figure: Figure, is_result: bool, out: &mut Vec<u8>) -> Result<(), AllocError>
    ensures { OnOk result (out.new.items ≡ out.old.items ++ spec.look_text figure is_result) }
{
    put(out, shape_of(figure).as_bytes())?;
    put(out, double_line(is_result).as_bytes())?;
    put(out, b"];\n")
}

// What is in the box of a place, behind this text.
fn inner_text(
    alloc: Global,
    program: &Program,
    accepted: &Accepted,
    node: u32,
    found: &PlacedNode,
    before: &[u8],
    place: u32,
) -> Result<Vec<u8>, AllocError>
    ensures { IfOk result (λ v. v.items
        ≡ spec.inner_text (program_tree program.now) accepted.now node found.now before.now place) }
{
    let mut label = Vec::new(alloc);
    put(&mut label, before)?;
    put_there(
        alloc,
        program,
        &accepted.placed,
        node,
        found,
        place,
        &mut label,
    )?;
    put_size(alloc, accepted, node, found, place, &mut label)?;
    Ok(label)
}

/// Puts the box of a place of a node last, behind its name in the drawing: by the numbers of the node, from 0, and of its own, from 1,
/// with this text before its own.
pub(crate) fn put_box(
    alloc: Global,
    program: &Program,
    accepted: &Accepted,
    node: u32,
    found: &PlacedNode,
    before: &[u8],
    place: u32,
    figure: Figure,
    out: &mut Vec<u8>,
) -> Result<(), AllocError>
    ensures { OnOk result (out.new.items ≡ out.old.items
        ++ spec.box_text (program_tree program.now) accepted.now node found.now before.now place figure) }
{
    let label = inner_text(alloc, program, accepted, node, found, before, place)?;
    put(out, b" [")?;
    put_label(&label, out)?;
    put_look(figure, is_result(before, found, place), out)?;
    Ok(())
}
