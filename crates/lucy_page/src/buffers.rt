// The buffers of a node, as a table.
use crate::part::{definition, put_made, put_made_link};
use lucy_picture::Fill;
use lucy_place::PlacedNode;
use lucy_svg::{Told, put, put_escaped};
use std::alloc::{AllocError, Global};

// Puts a place last as it is told, linked to where its stream is defined.
fn put_place(
    alloc: Global,
    number: u32,
    node: &PlacedNode,
    told: &Told,
    place: u32,
    out: &mut Vec<u8>,
) -> Result<(), AllocError> {
    let text = told.text(alloc, node, place)?;
    put(out, "<td>")?;
    match told.of(place) {
        Some(stream) => put_made_link(definition(alloc, number, stream), &text, out)?,
        None => put_escaped(&text, out)?,
    }
    put(out, "</td>")
}

// Puts the bound of a buffer last, where one is written.
fn put_bound(
    alloc: Global,
    node: &PlacedNode,
    fill: &Fill,
    out: &mut Vec<u8>,
) -> Result<(), AllocError> {
    let index = fill.buffer.saturating_sub(1);
    match node.bounds.list().get(index as usize) {
        Some(Some(most)) => put_made(out, format!(in alloc; "<td>{most}</td>")),
        _ => put(out, "<td></td>"),
    }
}

// Puts the line of a buffer last.
fn put_buffer(
    alloc: Global,
    number: u32,
    node: &PlacedNode,
    told: &Told,
    fill: &Fill,
    out: &mut Vec<u8>,
) -> Result<(), AllocError> {
    put_made(out, format!(in alloc; "<tr><td>{}</td>", fill.buffer))?;
    put_place(alloc, number, node, told, fill.operand, out)?;
    put_place(alloc, number, node, told, fill.place, out)?;
    put_made(out, format!(in alloc; "<td>{}</td>", fill.size))?;
    put_bound(alloc, node, fill, out)?;
    match fill.full {
        Some(at) => put_made(out, format!(in alloc; "<td>{at}</td></tr>\n")),
        None => put(out, "<td>at none of these</td></tr>\n"),
    }
}

/// Puts the buffers of a node last, by its number from 0, where it has any.
pub(crate) fn put_buffers(
    alloc: Global,
    number: u32,
    node: &PlacedNode,
    fills: &[Fill],
    out: &mut Vec<u8>,
) -> Result<(), AllocError> {
    if fills.is_empty() {
        return Ok(());
    }
    put(
        out,
        "<h3>Buffers</h3>\n<table><tr><th>buffer</th><th>written by</th><th>read as</th><th>size</th><th>bound</th><th>first full at</th></tr>\n",
    )?;
    let told = Told::new(alloc, node)?;
    for fill in fills {
        put_buffer(alloc, number, node, &told, fill, out)?;
    }
    put(out, "</table>\n")
}
