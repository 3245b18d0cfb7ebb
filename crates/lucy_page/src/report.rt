// What is marked in the report of a program.
use crate::mark::{Kind, Mark};
use lucy_place::PlacedNode;
use lucy_program::Accepted;
use std::alloc::{AllocError, Global};

// Where the line behind the one that begins at an offset begins.
fn next_line(report: &[u8], at: usize) -> usize {
    if at > report.len() {
        return at;
    }
    match report[at..].iter().position(|byte| *byte == b'\n') {
        Some(end) => at.saturating_add(end).saturating_add(1),
        None => report.len(),
    }
}

// A mark of so many bytes behind an indent.
fn marked(at: usize, indent: usize, length: usize, kind: Kind) -> Mark {
    let from = at.saturating_add(indent);
    Mark {
        from,
        to: from.saturating_add(length),
        kind,
    }
}

// Puts the names of the streams of a node last, a line each; answers where the report goes on.
fn put_streams(
    report: &[u8],
    at: usize,
    number: u32,
    node: &PlacedNode,
    marks: &mut Vec<Mark>,
) -> Result<usize, AllocError> {
    let mut at = at;
    let mut place = 0u32;
    for entry in node.places.list() {
        place = place.saturating_add(1);
        if let Some(name) = &entry.name {
            let length = name.text.bytes().len();
            marks.push(marked(at, 2, length, Kind::Use(number, place)))?;
            at = next_line(report, at);
        }
    }
    Ok(at)
}

// Where the report goes on behind so many lines.
fn past_lines(report: &[u8], at: usize, count: usize) -> usize {
    let mut at = at;
    for _ in 0..count {
        at = next_line(report, at);
    }
    at
}

// Puts the names in the lines of a node last; answers where the report goes on.
fn put_node(
    report: &[u8],
    at: usize,
    number: u32,
    node: &PlacedNode,
    marks: &mut Vec<Mark>,
) -> Result<usize, AllocError> {
    let length = node.name.text.bytes().len();
    marks.push(marked(at, 5, length, Kind::Section(number)))?;
    let at = put_streams(report, next_line(report, at), number, node, marks)?;
    let buffers = node.buffers.list().len();
    Ok(past_lines(report, at, buffers.saturating_add(node.calls.list().len())))
}

/// What is marked in the report of an accepted program, in order: the names of nodes, which lead to their sections, and of streams, which
/// lead to where they are defined.
pub(crate) fn report_marks(
    alloc: Global,
    accepted: &Accepted,
    report: &[u8],
) -> Result<Vec<Mark>, AllocError> {
    let mut marks = Vec::new(alloc);
    let mut at = 0usize;
    for number in 0..accepted.placed.nodes() {
        at = put_node(report, at, number, accepted.placed.node(number), &mut marks)?;
    }
    Ok(marks)
}
