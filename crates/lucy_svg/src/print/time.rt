// A chronogram as an SVG of its own.
ghost use Rattle.std.specs.Prelude.{◌≡◌, ◌<◌, ◌≤◌, Some, length, slice_get, string_bytes, IfOk, OnOk};
ghost use Rattle.lucy_place.specs.Standing.{most_places};
ghost use Rattle.lucy_place.specs.declared.placed.PlacedNode.{PlacedNode as Node};
ghost use Rattle.lucy_picture.specs.Holding.{Extends};
ghost use Rattle.lucy_svg.specs.Sheets.{PutsSvg, PutsPicture};
ghost use Rattle.lucy_svg.specs.Notes as spec;

use crate::drawing::Drawing;
use crate::escape::put_escaped;
use crate::print::ink::{HEAD, SMALL, put, put_label, put_made, put_made_label};
use crate::print::sheet::Sheet;
use crate::print::style::STYLE;
use lucy_picture::{Turn, words_at};
use lucy_place::PlacedNode;
use lucy_program::{Accepted, node_line};
use lucy_word::Word;
use std::alloc::{AllocError, Global};

// How many instants are shown where none are given: the prefix and two periods, but not more than these.
const SHOWN: u64 = 200;

// How high what stands above a chronogram is, and what stands below.
const ABOVE: u64 = 44;

const BELOW: u64 = 28;

/// How many instants are shown: as many as are given, else the prefix and two periods, at most 200.
pub fn shown_of(turn: Option<Turn>, instants: Option<u64>) -> u64
    ensures { result ≡ spec.shown_of turn instants }
{
    match instants {
        Some(instants) => instants,
        None => match turn {
            None => SHOWN,
            Some(turn) => turn.whole().min(SHOWN),
        },
    }
}

// When all comes again behind a prefix, as text.
fn later_text(alloc: Global, prefix: u64, period: u64) -> Result<String, AllocError>
    ensures { IfOk result (λ s. string_bytes s ≡ spec.later_text prefix period) }
{
    format!(in alloc; "{prefix} first, then again after {period}")
}

/// When all that is shown comes again together, as text.
pub fn turn_text(alloc: Global, turn: Option<Turn>) -> Result<String, AllocError>
    ensures { IfOk result (λ s. string_bytes s ≡ spec.turn_text turn) }
{
    let Some(turn) = turn else {
        return format!(in alloc; "no period within the limit Schedule");
    };
    if turn.prefix == 0 {
        let period = turn.period;
        return format!(in alloc; "again after {period}");
    }
    later_text(alloc, turn.prefix, turn.period)
}

/// How many instants are shown, of those up to the end of the second period, as text.
pub fn shown_text(alloc: Global, turn: Option<Turn>, shown: u64) -> Result<String, AllocError>
    ensures { IfOk result (λ s. string_bytes s ≡ spec.shown_text turn shown) }
{
    let Some(turn) = turn else {
        return format!(in alloc; "the first {shown} instants");
    };
    let all = turn.whole();
    if shown < all {
        return format!(in alloc; "the first {shown} of {all} instants");
    }
    format!(in alloc; "the first {shown} instants")
}

// Puts the size of a picture last, and the name of its node.
fn put_frame(
    alloc: Global,
    name: &[u8],
    width: u64,
    height: u64,
    out: &mut Vec<u8>,
) -> Result<(), AllocError>
    ensures { OnOk result (Extends out.old.items out.new.items) }
{
    let size = format!(in alloc;
        "class=\"lucy\" width=\"{width}\" height=\"{height}\" viewBox=\"0 0 {width} {height}\" role=\"img\" aria-label=\""
    );
    put_made(out, size)?;
    put_escaped(name, out)?;
    let paper = format!(in alloc;
        "\">\n<style>\n{STYLE}</style>\n<rect class=\"paper\" width=\"{width}\" height=\"{height}\"/>\n"
    );
    put_made(out, paper)
}

// The first line of a node, without its line feed.
fn head_of(alloc: Global, node: &PlacedNode) -> Result<Vec<u8>, AllocError>
    requires { node.now.params ≤ most_places }
{
    let mut head = Vec::new(alloc);
    node_line(alloc, node, &mut head)?;
    let _ = head.pop();
    Ok(head)
}

// How wide a picture is, for what stands above.
fn width_of(sheet: &Sheet<'_>, head: &[u8]) -> u64 {
    let text = HEAD.width(head.len()).saturating_add(16);
    let both = sheet.names.saturating_add(sheet.width);
    both.saturating_add(8).max(text).max(360)
}

// Puts what stands above the names last, and where they stand.
fn put_above(
    alloc: Global,
    node: &PlacedNode,
    sheet: &Sheet<'_>,
    turn: Option<Turn>,
    out: &mut Vec<u8>,
) -> Result<(), AllocError>
    requires { node.now.params ≤ most_places }
    ensures { OnOk result (Extends out.old.items out.new.items) }
{
    let head = head_of(alloc, node)?;
    let width = width_of(sheet, &head);
    let height = sheet.height.saturating_add(ABOVE + BELOW);
    put_frame(alloc, node.name.text.bytes(), width, height, out)?;
    put_label(alloc, &HEAD, (8, 18), &head, out)?;
    put_made_label(alloc, &SMALL, (8, 34), turn_text(alloc, turn), out)?;
    put_made(
        out,
        format!(in alloc; "\n<g transform=\"translate(0 {ABOVE})\">"),
    )?;
    Ok(())
}

// Puts what stands below the lanes last.
fn put_below(
    alloc: Global,
    sheet: &Sheet<'_>,
    turn: Option<Turn>,
    shown: u64,
    out: &mut Vec<u8>,
) -> Result<(), AllocError>
    ensures { OnOk result (Extends out.old.items out.new.items) }
{
    let below = sheet.height.saturating_add(ABOVE + BELOW - 10);
    put(out, "</g>\n")?;
    put_made_label(
        alloc,
        &SMALL,
        (8, below),
        shown_text(alloc, turn, shown),
        out,
    )?;
    Ok(())
}

// Puts an SVG of a sheet last.
fn put_svg(
    alloc: Global,
    node: &PlacedNode,
    sheet: &Sheet<'_>,
    turn: Option<Turn>,
    shown: u64,
    out: &mut Vec<u8>,
) -> Result<(), AllocError>
    requires { node.now.params ≤ most_places }
    ensures { OnOk result (PutsSvg sheet.now.side.node.now sheet.now.side.told sheet.now.drawing.now out.old.items out.new.items) }
{
    let names = sheet.names;
    put(out, "<svg xmlns=\"http://www.w3.org/2000/svg\" ")?;
    put_above(alloc, node, sheet, turn, out)?;
    sheet.put_names(alloc, out)?;
    put_made(
        out,
        format!(in alloc; "</g>\n<g transform=\"translate({names} {ABOVE})\">"),
    )?;
    sheet.put_lanes(alloc, out)?;
    put_below(alloc, sheet, turn, shown, out)?;
    put(out, "</svg>\n")?;
    Ok(())
}

// Puts the chronogram of a node last, with the words of its clocks.
fn put_picture(
    alloc: Global,
    node: &PlacedNode,
    words: &[Word],
    turn: Option<Turn>,
    shown: u64,
    drawing: &Drawing,
    out: &mut Vec<u8>,
) -> Result<(), AllocError>
    requires { node.now.params ≤ most_places }
    ensures { OnOk result (PutsPicture node.now drawing.now out.old.items out.new.items) }
{
    let sheet = Sheet::new(alloc, node, words, None, turn, shown, drawing)?;
    put_svg(alloc, node, &sheet, turn, shown, out)?;
    Ok(())
}

/// Puts the chronogram of a node of an accepted program last, by its number from 0, as an SVG that stands alone: the marks of its streams; of
/// each buffer what goes in and out, a line for each item from where it is written to where it is read, how many have gone in and
/// come out, and below that how many wait, with a frame where as many do as its size for the first time.
pub fn put_time_svg(
    alloc: Global,
    accepted: &Accepted,
    node: u32,
    turn: Option<Turn>,
    shown: u64,
    drawing: &Drawing,
    out: &mut Vec<u8>,
) -> Result<(), AllocError>
    requires { node < length accepted.now.placed.nodes }
    ensures { (n : Node) → slice_get accepted.now.placed.nodes node ≡ Some n → OnOk result (PutsPicture n drawing.now out.old.items out.new.items) }
{
    let found = accepted.placed.node(node);
    let words = words_at(&accepted.clocks, node);
    put_picture(alloc, found, words, turn, shown, drawing, out)
}
