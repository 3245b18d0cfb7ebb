// What is marked in the text of a program.
use crate::mark::{Kind, Mark};
use crate::uses::put_uses;
use lucy_place::PlacedNode;
use lucy_program::Accepted;
use lucy_tree::{Program, Span};
use std::alloc::{AllocError, Global};

// A mark of a span.
fn marked(span: Span, kind: Kind) -> Mark {
    Mark {
        from: span.from as usize,
        to: span.to as usize,
        kind,
    }
}

// Puts the name of a node and its streams last, each where it is defined.
fn put_definitions(
    number: u32,
    node: &PlacedNode,
    marks: &mut Vec<Mark>,
) -> Result<(), AllocError> {
    marks.push(marked(node.name.span, Kind::Node(number)))?;
    let mut place = 0u32;
    for entry in node.places.list() {
        place = place.saturating_add(1);
        if let Some(name) = &entry.name {
            marks.push(marked(name.span, Kind::Definition(number, place)))?;
        }
    }
    Ok(())
}

/// What is marked in the text of an accepted program, whose tree this is, in order: the names of its nodes, and its streams where they are
/// defined and where they are used.
pub(crate) fn program_marks(
    alloc: Global,
    program: &Program,
    accepted: &Accepted,
) -> Result<Vec<Mark>, AllocError> {
    let mut marks = Vec::new(alloc);
    for number in 0..accepted.placed.nodes() {
        let node = accepted.placed.node(number);
        put_definitions(number, node, &mut marks)?;
        if let Some(tree) = program.nodes.list().get(number as usize) {
            put_uses(number, node, tree, &mut marks)?;
        }
    }
    marks.sort_by_key(|mark| mark.from)?;
    Ok(marks)
}

/// What is marked in the text of a program that is refused: these spans, in order.
pub(crate) fn wrong_marks(alloc: Global, spans: &[Span]) -> Result<Vec<Mark>, AllocError> {
    let mut marks = Vec::new(alloc);
    for span in spans {
        marks.push(marked(*span, Kind::Wrong))?;
    }
    marks.sort_by_key(|mark| mark.from)?;
    Ok(marks)
}
