// Where an offset stands, as text.
ghost use Rattle.std.specs.Prelude.{◌≡◌, ◌≤◌, ◌++◌, length, map, flat_map, codes, OnOk};
ghost use Rattle.std.specs.Fmt.{decimal};
ghost use Rattle.lucy_picture.specs.Spots as spec;

use crate::print::pieces::{put, put_made};
use crate::spot::{Spot, spot_of};
use std::alloc::{AllocError, Global};

// The byte as it is printed: `?` where it may move the cursor.
fn visible(byte: u8) -> u8
    ensures { result ≡ spec.visible byte }
{
    if byte == b'\t' || (byte >= 32 && byte != 127) {
        byte
    } else {
        b'?'
    }
}

// A line without the carriage return at its end.
fn without_return(line: &[u8]) -> &[u8]
    ensures { result.now ≡ spec.without_return line.now }
{
    if line.is_empty() {
        return line;
    }
    let last = line.len() - 1;
    if line[last] == b'\r' {
        &line[..last]
    } else {
        line
    }
}

// Puts bytes last as they are printed.
fn put_visible(out: &mut Vec<u8>, line: &[u8]) -> Result<(), AllocError>
    ensures { OnOk result (out.new.items ≡ out.old.items ++ map spec.visible line.now) }
{
    'each: for byte in line {
        put(out, &[visible(*byte)])?;
    }
    Ok(())
}

// Puts the room of a byte last.
fn put_room(out: &mut Vec<u8>, byte: u8) -> Result<(), AllocError>
    ensures { OnOk result (out.new.items ≡ out.old.items ++ spec.room byte) }
{
    if byte == b'\t' {
        put(out, b"\t")
    } else if byte >= 128 && byte <= 191 {
        Ok(())
    } else {
        put(out, b" ")
    }
}

// Puts a caret last, behind as much room as the front of a line takes.
fn put_caret(out: &mut Vec<u8>, front: &[u8]) -> Result<(), AllocError>
    ensures { OnOk result (out.new.items ≡ out.old.items ++ (flat_map spec.room front.now ++ codes "^\n")) }
{
    'each: for byte in front {
        put_room(out, *byte)?;
    }
    put(out, b"^\n")
}

// Puts line and column last.
fn put_head(alloc: Global, spot: Spot, out: &mut Vec<u8>) -> Result<(), AllocError>
    ensures { OnOk result (out.new.items ≡ out.old.items ++ (codes "line " ++ (decimal spot.line ++ (codes ", column " ++ (decimal spot.column ++ codes "\n"))))) }
{
    let Spot { line, column, .. } = spot;
    put_made(out, format!(in alloc; "line {line}, column {column}\n"))
}

/// Puts last where an offset stands in a text: its line and column, the line itself, and a caret below it.
pub fn put_spot(
    alloc: Global,
    text: &[u8],
    offset: usize,
    out: &mut Vec<u8>,
) -> Result<(), AllocError>
    requires { offset ≤ length text.now }
    ensures { OnOk result (spec.PutsSpot text.now offset out.old.items out.new.items) }
{
    let spot = spot_of(text, offset);
    put_head(alloc, spot, out)?;
    put_visible(out, without_return(&text[spot.begin..spot.end]))?;
    put(out, b"\n")?;
    put_caret(out, &text[spot.begin..offset])
}
