// A chronogram as text.
ghost use Rattle.std.specs.Prelude.{ℕ, ◌≡◌, ◌<◌, ◌≤◌, ◌++◌, Some, codes, length, flat_map, slice_get, OnOk};
ghost use Rattle.std.specs.Fmt.{decimal};
ghost use Rattle.lucy_place.specs.declared.placed.PlacedNode.{PlacedNode as Node};
ghost use Rattle.lucy_place.specs.Standing.{most_places, bound_of};
ghost use Rattle.lucy_flat.specs.Instances.{words_in};
ghost use Rattle.lucy_program.specs.Names.{of_one, name_at};
ghost use Rattle.lucy_program.specs.Report.{size_part};
ghost use Rattle.lucy_picture.specs.Lines as spec;

use crate::chart::Chart;
use crate::fill::Fill;
use crate::print::columns::Columns;
use crate::print::form::{bound_of, name_at};
use crate::print::pieces::{put, put_bits, put_made};
use crate::row::Row;
use crate::turn::Turn;
use crate::words::words_at;
use lucy_place::PlacedNode;
use lucy_program::{Accepted, node_line};
use lucy_word::Word;
use std::alloc::{AllocError, Global};

// The name of a place, or nothing.
fn name_of(node: &PlacedNode, place: u32) -> &[u8]
    ensures { result.now ≡ of_one (λ name. name.text) (name_at node.now place) }
{
    match name_at(node, place) {
        Some(name) => name.text.bytes(),
        None => b"",
    }
}

// How wide a cell is, for the greatest number in it, and a blank where that has several digits.
fn cell_width(chart: &Chart) -> usize {
    let mut most = 0;
    for fill in &chart.fills {
        most = fill.size.max(most);
    }
    match most.checked_ilog10() {
        None | Some(0) => 1,
        Some(more) => (more as usize).saturating_add(2),
    }
}

// How wide the names are, with the blanks on both sides.
fn margin(node: &PlacedNode, chart: &Chart) -> usize {
    let mut most = b"  waiting".len();
    for row in &chart.rows {
        most = name_of(node, row.place).len().max(most);
    }
    most.saturating_add(4)
}

// Puts a number of instants last.
fn put_instants(alloc: Global, count: u64, out: &mut Vec<u8>) -> Result<(), AllocError>
    ensures { OnOk result (out.new.items ≡ out.old.items ++ spec.instants_text count) }
{
    if count == 1 {
        return put(out, b"1 instant");
    }
    put_made(out, format!(in alloc; "{count} instants"))
}

// Puts after how many instants all comes again, behind a prefix.
fn put_then(alloc: Global, period: u64, out: &mut Vec<u8>) -> Result<(), AllocError>
    ensures { OnOk result (out.new.items ≡ out.old.items ++ (codes ", then " ++ (decimal period ++ codes " again and again\n"))) }
{
    put_made(out, format!(in alloc; ", then {period} again and again\n"))
}

// Puts how many instants there are until all comes again.
fn put_turn(alloc: Global, turn: Option<Turn>, out: &mut Vec<u8>) -> Result<(), AllocError>
    ensures { OnOk result (out.new.items ≡ out.old.items ++ spec.turn_text turn) }
{
    let Some(turn) = turn else {
        return put(out, b"  no period within the limit Schedule\n");
    };
    let Turn { prefix, period } = turn;
    put(out, b"  ")?;
    if prefix == 0 {
        put_instants(alloc, period, out)?;
        return put(out, b" again and again\n");
    }
    put_instants(alloc, prefix, out)?;
    put_then(alloc, period, out)
}

// Puts the word of a place last, where there is one.
fn put_word_at(
    alloc: Global,
    words: &[Word],
    place: u32,
    out: &mut Vec<u8>,
) -> Result<(), AllocError>
    ensures { OnOk result (out.new.items ≡ out.old.items ++ spec.word_text words.now place) }
{
    match words.get(place as usize) {
        Some(word) => put_bits(alloc, word, out),
        None => Ok(()),
    }
}

/// Puts the word of a place last, where there is one.
pub fn put_word(
    alloc: Global,
    words: &[Word],
    place: u32,
    out: &mut Vec<u8>,
) -> Result<(), AllocError>
    ensures { OnOk result (out.new.items ≡ out.old.items ++ spec.word_text words.now place) }
{
    Ok(put_word_at(alloc, words, place, out)?)
}

// Puts the line of a stream.
fn put_row(
    alloc: Global,
    columns: &Columns,
    node: &PlacedNode,
    words: &[Word],
    row: &Row,
    out: &mut Vec<u8>,
) -> Result<(), AllocError>
    ensures { OnOk result (out.new.items ≡ out.old.items ++ spec.row_text node.now words.now columns.now.turn columns.now.cell columns.now.margin row.now) }
{
    columns.put_name(out, 2, name_of(node, row.place))?;
    columns.put_marks(out, row.marks.list())?;
    put(out, b"  ")?;
    put_word_at(alloc, words, row.place, out)?;
    put(out, b"\n")
}

// Puts those of streams.
fn put_rows(
    alloc: Global,
    columns: &Columns,
    node: &PlacedNode,
    words: &[Word],
    rows: &[Row],
    out: &mut Vec<u8>,
) -> Result<(), AllocError>
    ensures { OnOk result (out.new.items ≡ out.old.items ++ flat_map (spec.row_text node.now words.now columns.now.turn columns.now.cell columns.now.margin) rows.now) }
{
    'each: for row in rows {
        put_row(alloc, columns, node, words, row, out)?;
    }
    Ok(())
}

// Puts the size of a buffer last.
fn put_most(alloc: Global, size: u64, out: &mut Vec<u8>) -> Result<(), AllocError>
    ensures { OnOk result (out.new.items ≡ out.old.items ++ (codes " size " ++ decimal size)) }
{
    put_made(out, format!(in alloc; " size {size}"))
}

// Puts the bound of a buffer last, where one is written.
fn put_bound(alloc: Global, most: Option<u64>, out: &mut Vec<u8>) -> Result<(), AllocError>
    ensures { OnOk result (out.new.items ≡ out.old.items ++ of_one (λ (bound : ℕ). codes " at most " ++ decimal bound) most) }
{
    match most {
        None => Ok(()),
        Some(most) => put_made(out, format!(in alloc; " at most {most}")),
    }
}

// Puts when the size of a buffer is reached first.
fn put_full(alloc: Global, full: Option<u64>, out: &mut Vec<u8>) -> Result<(), AllocError>
    ensures { OnOk result (out.new.items ≡ out.old.items ++ spec.full_text full) }
{
    match full {
        Some(at) => put_made(out, format!(in alloc; ", first at {at}\n")),
        None => put(out, b", not reached at these instants\n"),
    }
}

// Puts the end of the first line of a buffer: its size, its bound where one is written, and when it is reached first.
fn put_size(
    alloc: Global,
    node: &PlacedNode,
    fill: &Fill,
    out: &mut Vec<u8>,
) -> Result<(), AllocError>
    ensures { OnOk result (out.new.items ≡ out.old.items ++ (size_part fill.now.size (bound_of node.now fill.now.buffer) ++ spec.full_text fill.now.full)) }
{
    put_most(alloc, fill.size, out)?;
    put_bound(alloc, bound_of(node, fill.buffer), out)?;
    put_full(alloc, fill.full, out)
}

// Puts the number of a buffer.
fn put_number(alloc: Global, buffer: u64, out: &mut Vec<u8>) -> Result<(), AllocError>
    ensures { OnOk result (out.new.items ≡ out.old.items ++ (codes "  buffer " ++ (decimal buffer ++ codes " : "))) }
{
    put_made(out, format!(in alloc; "  buffer {buffer} : "))
}

// Puts the first line of a buffer.
fn put_head(
    alloc: Global,
    node: &PlacedNode,
    words: &[Word],
    fill: &Fill,
    out: &mut Vec<u8>,
) -> Result<(), AllocError>
    ensures { OnOk result (out.new.items ≡ out.old.items ++ spec.buffer_head node.now words.now fill.now) }
{
    put_number(alloc, fill.buffer, out)?;
    put_word_at(alloc, words, fill.operand, out)?;
    put(out, b" <: ")?;
    put_word_at(alloc, words, fill.place, out)?;
    put_size(alloc, node, fill, out)
}

// Puts a line of marks of a buffer.
fn put_marks(
    columns: &Columns,
    name: &[u8],
    marks: &[bool],
    out: &mut Vec<u8>,
) -> Result<(), AllocError>
    ensures { OnOk result (out.new.items ≡ out.old.items ++ spec.buffer_line columns.now.margin name.now (spec.marks_text columns.now.turn columns.now.cell marks.now)) }
{
    columns.put_name(out, 4, name)?;
    columns.put_marks(out, marks)?;
    put(out, b"\n")
}

// Puts a line of numbers of a buffer.
fn put_numbers(
    alloc: Global,
    columns: &Columns,
    name: &[u8],
    numbers: &[u64],
    out: &mut Vec<u8>,
) -> Result<(), AllocError>
    ensures { OnOk result (out.new.items ≡ out.old.items ++ spec.buffer_line columns.now.margin name.now (spec.numbers_text columns.now.turn columns.now.cell numbers.now)) }
{
    columns.put_name(out, 4, name)?;
    columns.put_numbers(alloc, out, numbers)?;
    put(out, b"\n")
}

// Puts the lines of a buffer.
fn put_fill(
    alloc: Global,
    columns: &Columns,
    node: &PlacedNode,
    words: &[Word],
    fill: &Fill,
    out: &mut Vec<u8>,
) -> Result<(), AllocError>
    ensures { OnOk result (out.new.items ≡ out.old.items ++ spec.fill_text node.now words.now columns.now.turn columns.now.cell columns.now.margin fill.now) }
{
    put_head(alloc, node, words, fill, out)?;
    put_marks(columns, b"in", fill.written.list(), out)?;
    put_marks(columns, b"out", fill.read.list(), out)?;
    put_numbers(alloc, columns, b"waiting", fill.waits.list(), out)
}

// The buffer of a number, from 0.
fn fill_at(fills: &[Fill], number: usize) -> &Fill
    requires { number < length fills.now }
    ensures { slice_get fills.now number ≡ Some result.now }
{
    &fills[number]
}

// Puts those of buffers.
fn put_fills(
    alloc: Global,
    columns: &Columns,
    node: &PlacedNode,
    words: &[Word],
    fills: &[Fill],
    out: &mut Vec<u8>,
) -> Result<(), AllocError>
    ensures { OnOk result (out.new.items ≡ out.old.items ++ flat_map (spec.fill_text node.now words.now columns.now.turn columns.now.cell columns.now.margin) fills.now) }
{
    'each: for i in 0..fills.len() {
        put_fill(alloc, columns, node, words, fill_at(fills, i), out)?;
    }
    Ok(())
}

// Puts that there are more instants than those shown, where there are before the second period ends.
fn put_more(
    alloc: Global,
    turn: Option<Turn>,
    shown: u64,
    out: &mut Vec<u8>,
) -> Result<(), AllocError>
    ensures { OnOk result (out.new.items ≡ out.old.items ++ spec.more_text turn shown) }
{
    let Some(turn) = turn else {
        return put_made(out, format!(in alloc; "  the first {shown} instants\n"));
    };
    let all = turn.whole();
    if shown < all {
        return put_made(
            out,
            format!(in alloc; "  the first {shown} of {all} instants\n"),
        );
    }
    Ok(())
}

// Puts the chronogram of a node last, with the words of its clocks.
fn put_chart(
    alloc: Global,
    node: &PlacedNode,
    words: &[Word],
    columns: &Columns,
    chart: &Chart,
    out: &mut Vec<u8>,
) -> Result<(), AllocError>
    requires { node.now.params ≤ most_places }
    ensures { OnOk result (spec.PutsChart node.now words.now columns.now.turn columns.now.shown chart.now out.old.items out.new.items) }
{
    node_line(alloc, node, out)?;
    put_turn(alloc, columns.turn, out)?;
    columns.put_ruler(alloc, out)?;
    put_rows(alloc, columns, node, words, &chart.rows, out)?;
    put_fills(alloc, columns, node, words, &chart.fills, out)?;
    put_more(alloc, columns.turn, columns.shown, out)?;
    Ok(())
}

/// Puts the chronogram of a node of an accepted program last, by its number from 0: its first line, when all comes again together, a
/// ruler, a line for each stream and four for each buffer, and a line where not all up to the end of the second period is shown.
pub fn put_time(
    alloc: Global,
    accepted: &Accepted,
    node: u32,
    turn: Option<Turn>,
    shown: u64,
    chart: &Chart,
    out: &mut Vec<u8>,
) -> Result<(), AllocError>
    requires { node < length accepted.now.placed.nodes }
    ensures { (n : Node) → slice_get accepted.now.placed.nodes node ≡ Some n →
        OnOk result (spec.PutsChart n (words_in (slice_get accepted.now.clocks.items node)) turn shown chart.now out.old.items out.new.items) }
{
    let found = accepted.placed.node(node);
    let columns = Columns {
        turn,
        shown,
        cell: cell_width(chart),
        margin: margin(found, chart),
    };
    put_chart(
        alloc,
        found,
        words_at(&accepted.clocks, node),
        &columns,
        chart,
        out,
    )
}
