// A node: its net, its chronogram and its buffers.
ghost use Rattle.std.specs.Prelude.{List, ℕ, ◌≡◌, ◌<◌, ◌++◌, length, slice_get, OnOk};
ghost use Rattle.lucy_host.specs.Operators.{Operator};
ghost use Rattle.lucy_program.specs.declared.options.Options.{Options as Choices};
ghost use Rattle.lucy_program.specs.Accepting.{IsAccepted};
ghost use Rattle.lucy_page.specs.Pages.{node_begin};
ghost use Rattle.lucy_page.specs.Puts.{PutsNode};

use crate::buffers::put_buffers;
use crate::net::put_net;
use crate::part::{begin_svg, put_link, put_made};
use lucy_picture::{Turn, turn_of};
use lucy_program::Accepted;
use lucy_svg::{Drawing, Sheet, drawing_of, put, shown_of, shown_text, turn_text};
use lucy_tree::Program;
use std::alloc::{AllocError, Global};

// Puts the chronogram last: the names stay where they are, and the lanes are moved behind them.
fn put_sheet(alloc: Global, sheet: &Sheet<'_>, out: &mut Vec<u8>) -> Result<(), AllocError> {
    put(out, "<div class=\"chart\">")?;
    begin_svg(alloc, sheet.names, sheet.height, out)?;
    sheet.put_names(alloc, out)?;
    put(out, "</svg><div class=\"across\">")?;
    begin_svg(alloc, sheet.width, sheet.height, out)?;
    sheet.put_lanes(alloc, out)?;
    put(out, "</svg></div></div>\n")?;
    Ok(())
}

// Puts when all comes again together last, and how many instants are shown.
fn put_turn(
    alloc: Global,
    turn: Option<Turn>,
    shown: u64,
    out: &mut Vec<u8>,
) -> Result<(), AllocError> {
    let again = turn_text(alloc, turn)?;
    let text = shown_text(alloc, turn, shown)?;
    put_made(
        out,
        format!(in alloc; "<h3>Chronogram</h3>\n<p>{again}; {text}</p>\n"),
    )
}

// Puts the chronogram and the buffers of a node last that are drawn so.
fn put_drawing(
    alloc: Global,
    accepted: &Accepted,
    number: u32,
    turn: Option<Turn>,
    shown: u64,
    drawing: &Drawing,
    out: &mut Vec<u8>,
) -> Result<(), AllocError>
    requires { number < length accepted.now.placed.nodes }
{
    let node = accepted.placed.node(number);
    let words = match accepted.clocks.get(number as usize) {
        Some(clock) => clock.words.list(),
        None => &[],
    };
    let sheet = Sheet::new(alloc, node, words, Some(number), turn, shown, drawing)?;
    put_sheet(alloc, &sheet, out)?;
    Ok(put_buffers(alloc, number, node, &drawing.chart.fills, out)?)
}

// Puts them last, at so many instants.
fn put_chart(
    alloc: Global,
    accepted: &Accepted,
    number: u32,
    turn: Option<Turn>,
    shown: u64,
    out: &mut Vec<u8>,
) -> Result<(), AllocError>
    requires accepted { (ops : List Operator) × (o : Choices) × (text : List ℕ) × IsAccepted ops o text accepted.now }
    requires node { number < length accepted.now.placed.nodes }
{
    put_turn(alloc, turn, shown, out)?;
    let drawing = drawing_of(alloc, accepted, number, shown)?;
    put_drawing(alloc, accepted, number, turn, shown, &drawing, out)
}

// Puts what stands of a node behind its name last: its net, its chronogram and its buffers.
fn put_body(
    alloc: Global,
    program: &Program,
    accepted: &Accepted,
    number: u32,
    instants: Option<u64>,
    out: &mut Vec<u8>,
) -> Result<(), AllocError>
    requires accepted { (ops : List Operator) × (o : Choices) × (text : List ℕ) × IsAccepted ops o text accepted.now }
    requires node { number < length accepted.now.placed.nodes }
{
    put_net(alloc, program, accepted, number, out)?;
    let turn = turn_of(alloc, accepted, number)?;
    put_chart(alloc, accepted, number, turn, shown_of(turn, instants), out)?;
    put(out, "</section>\n")?;
    Ok(())
}

// The same as a text of its own.
fn body_of(
    alloc: Global,
    program: &Program,
    accepted: &Accepted,
    number: u32,
    instants: Option<u64>,
) -> Result<Vec<u8>, AllocError>
    requires accepted { (ops : List Operator) × (o : Choices) × (text : List ℕ) × IsAccepted ops o text accepted.now }
    requires node { number < length accepted.now.placed.nodes }
{
    let mut out = Vec::new(alloc);
    put_body(alloc, program, accepted, number, instants, &mut out)?;
    Ok(out)
}

// Puts that with which the section of a node begins last, for its number from 0 and its name.
fn put_begin(alloc: Global, number: u32, name: &[u8], out: &mut Vec<u8>) -> Result<(), AllocError>
    ensures { OnOk result (out.new.items ≡ out.old.items ++ node_begin number name.now) }
{
    put(
        out,
        &format!(in alloc; "<section id=\"n{number}\"><h2>Node ")?,
    )?;
    put_link(&format!(in alloc; "t{number}")?, name, out)?;
    put(out, "</h2>\n")
}

/// Puts the section of a node of an accepted program last, by its number from 0, with its chronogram at so many instants, or at as many as
/// that has itself.
pub(crate) fn put_node(
    alloc: Global,
    program: &Program,
    accepted: &Accepted,
    number: u32,
    instants: Option<u64>,
    out: &mut Vec<u8>,
) -> Result<(), AllocError>
    requires accepted { (ops : List Operator) × (o : Choices) × (text : List ℕ) × IsAccepted ops o text accepted.now }
    requires node { number < length accepted.now.placed.nodes }
    ensures { OnOk result (PutsNode number (slice_get accepted.now.placed.nodes number) out.old.items out.new.items) }
{
    let body = body_of(alloc, program, accepted, number, instants)?;
    put_begin(
        alloc,
        number,
        accepted.placed.node(number).name.text.bytes(),
        out,
    )?;
    out.extend_from_slice(&body)?;
    Ok(())
}
