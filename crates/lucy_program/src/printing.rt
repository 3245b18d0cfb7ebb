// Prints the nodes of an accepted program with their types, words and sizes.
ghost use Rattle.std.specs.Prelude.{◌≡◌, ◌+◌, ◌<◌, ◌≤◌, ◌==◌, ◌++◌, ℕ, List, Some, IfOk, OnOk, codes, length, slice_get};
ghost use Rattle.std.specs.List.{AllByRecursion};
ghost use Rattle.std.specs.Fmt.{decimal};
ghost use Rattle.lucy_word.specs.Spelling.{text_of};
ghost use Rattle.lucy_host.specs.Operators.{Operator};
ghost use Rattle.lucy_place.specs.Standing.{most_places, bound_of};
ghost use Rattle.lucy_types.specs.Tables.{table_at};
ghost use Rattle.lucy_need.specs.Meeting.{assigned};
ghost use Rattle.lucy_place.specs.declared.placed.PlacedNode.{PlacedNode as Node};
ghost use Rattle.lucy_types.specs.Programs.{IsTyped};
ghost use Rattle.lucy_program.specs.declared.options.Options.{Options as Choices};
ghost use Rattle.lucy_program.specs.Accepting.{IsAccepted};
ghost use Rattle.lucy_program.specs.Report.{IsReportable};
ghost use Rattle.lucy_program.specs.Names.{of_one};
ghost use Rattle.lucy_program.specs.Report as spec;

use crate::accepted::Accepted;
use crate::names::{bytes, node_line, number};
use lucy_clock::NodeClock;
use lucy_place::{CallSite, PlaceEntry, Placed, PlacedNode};
use lucy_tree::Name;
use lucy_types::{Ty, Typed};
use lucy_word::Word;
use std::alloc::{AllocError, Global};

// The word of a clock.
fn clock_word(
    alloc: Global,
    words: &[Word],
    clock: u32,
    out: &mut Vec<u8>,
) -> Result<(), AllocError>
    ensures { OnOk result (out.new.items ≡ out.old.items ++ text_of (assigned words.now clock)) }
{
    match words.get(clock as usize) {
        Some(word) => word.print(alloc, out),
        None => bytes(b"(1)", out),
    }
}

/// Puts a type last, of a place of main or of another node: `int`, `bool`, or of an open type, which is `int` in main, `'` and the
/// number of its class.
pub fn type_name(alloc: Global, main: bool, ty: Ty, out: &mut Vec<u8>) -> Result<(), AllocError>
    ensures { OnOk result (out.new.items ≡ out.old.items ++ spec.type_name main ty) }
{
    match ty {
        Ty::Int => bytes(b"int", out),
        Ty::Bool => bytes(b"bool", out),
        Ty::Open(_) if main => bytes(b"int", out),
        Ty::Open(class) => bytes(format!(in alloc; "'{class}")?.as_bytes(), out),
    }
}

// `  NAME : TYPE :: WORD`, for a place that has a name.
fn name_line(
    alloc: Global,
    main: bool,
    name: &Option<Name>,
    ty: Ty,
    words: &[Word],
    place: u32,
    out: &mut Vec<u8>,
) -> Result<(), AllocError>
    ensures { OnOk result (out.new.items ≡ out.old.items ++ spec.name_line main name.now ty (codes " :: " ++ text_of (assigned words.now place))) }
{
    let Some(name) = name else {
        return Ok(());
    };
    bytes(b"  ", out)?;
    bytes(name.text.bytes(), out)?;
    bytes(b" : ", out)?;
    type_name(alloc, main, ty, out)?;
    bytes(b" :: ", out)?;
    clock_word(alloc, words, place, out)?;
    bytes(b"\n", out)
}

// The lines of the places of a node.
fn name_lines(
    alloc: Global,
    main: bool,
    entries: &[PlaceEntry],
    typed: &Typed,
    node: u32,
    words: &[Word],
    out: &mut Vec<u8>,
) -> Result<(), AllocError>
    requires node { node < length typed.now }
    requires few { length entries.now ≤ most_places }
    requires all { length (table_at typed.now node) ≡ length entries.now }
    ensures { OnOk result (out.new.items ≡ out.old.items ++ spec.name_lines main (λ place. codes " :: " ++ text_of (assigned words.now place)) 1 entries.now (table_at typed.now node)) }
{
    'each: for (i, entry) in entries.iter().enumerate() {
        let place = i as u32 + 1;
        let ty = typed.at(node, place);
        name_line(alloc, main, &entry.name, ty, words, place, out)?;
    }
    Ok(())
}

/// The first place that a place of a node reads, if it reads any.
pub fn first_operand(node: &PlacedNode, place: u32) -> Option<u32>
    ensures { result ≡ spec.first_operand node.now place }
{
    let entry = node.places.list().get(place.checked_sub(1)? as usize)?;
    entry.kind.operand(0)
}

// `WORD1 <: WORD2`
fn adapted(
    alloc: Global,
    words: &[Word],
    from: u32,
    to: u32,
    out: &mut Vec<u8>,
) -> Result<(), AllocError>
    ensures { OnOk result (out.new.items ≡ out.old.items ++ (text_of (assigned words.now from) ++ (codes " <: " ++ text_of (assigned words.now to)))) }
{
    clock_word(alloc, words, from, out)?;
    bytes(b" <: ", out)?;
    clock_word(alloc, words, to, out)
}

// The bound of the buffer of a number, where one is written.
fn bound_of(node: &PlacedNode, buffer: u64) -> Option<u64>
    ensures { result ≡ bound_of node.now buffer }
{
    *node.bounds.list().get(buffer.checked_sub(1)? as usize)?
}

// ` at most B`, where a bound is written.
fn bound_part(alloc: Global, most: Option<u64>, out: &mut Vec<u8>) -> Result<(), AllocError>
    ensures { OnOk result (out.new.items ≡ out.old.items ++ of_one (λ (bound : ℕ). codes " at most " ++ decimal bound) most) }
{
    let Some(most) = most else {
        return Ok(());
    };
    bytes(b" at most ", out)?;
    number(alloc, most, out)
}

// ` size S`, with its bound.
fn size_part(
    alloc: Global,
    size: u64,
    most: Option<u64>,
    out: &mut Vec<u8>,
) -> Result<(), AllocError>
    ensures { OnOk result (out.new.items ≡ out.old.items ++ spec.size_part size most) }
{
    bytes(b" size ", out)?;
    number(alloc, size, out)?;
    bound_part(alloc, most, out)
}

// `  buffer N : WORD1 <: WORD2 size S`, with its bound.
fn buffer_line(
    alloc: Global,
    node: &PlacedNode,
    words: &[Word],
    place: u32,
    of: u64,
    size: u64,
    out: &mut Vec<u8>,
) -> Result<(), AllocError>
    ensures { OnOk result (out.new.items ≡ out.old.items ++ spec.buffer_line node.now (assigned words.now) of place size) }
{
    let operand = first_operand(node, place).unwrap_or(0);
    bytes(b"  buffer ", out)?;
    number(alloc, of, out)?;
    bytes(b" : ", out)?;
    adapted(alloc, words, operand, place, out)?;
    size_part(alloc, size, bound_of(node, of), out)?;
    bytes(b"\n", out)
}

// The lines of the buffers of a node.
fn buffer_lines(
    alloc: Global,
    node: &PlacedNode,
    words: &[Word],
    sizes: &[u64],
    out: &mut Vec<u8>,
) -> Result<(), AllocError>
    requires { length sizes.now ≡ length node.now.buffers }
    ensures { OnOk result (out.new.items ≡ out.old.items ++ spec.buffer_lines node.now (assigned words.now) 1 node.now.buffers sizes.now) }
{
    let buffers = node.buffers.list();
    'each: for i in 0..buffers.len() {
        buffer_line(alloc, node, words, buffers[i], i as u64 + 1, sizes[i], out)?;
    }
    Ok(())
}

// `  call N : NODE at WORD`
fn call_line(
    alloc: Global,
    placed: &Placed,
    site: &CallSite,
    of: u32,
    words: &[Word],
    clock: u32,
    out: &mut Vec<u8>,
) -> Result<(), AllocError>
    requires { site.now.node < length placed.now.nodes }
    ensures { OnOk result (out.new.items ≡ out.old.items ++ spec.call_line placed.now.nodes of site.now (assigned words.now clock)) }
{
    bytes(b"  call ", out)?;
    number(alloc, u64::from(of), out)?;
    bytes(b" : ", out)?;
    bytes(placed.node(site.node).name.text.bytes(), out)?;
    bytes(b" at ", out)?;
    clock_word(alloc, words, clock, out)?;
    bytes(b"\n", out)
}

// The lines of the calls of a node.
fn call_lines(
    alloc: Global,
    placed: &Placed,
    node: &PlacedNode,
    words: &[Word],
    out: &mut Vec<u8>,
) -> Result<(), AllocError>
    requires there { AllByRecursion (λ site. site.node < length placed.now.nodes) node.now.calls }
    requires few { length node.now.places ≤ most_places }
    requires few_calls { length node.now.calls ≤ most_places }
    ensures { OnOk result (out.new.items ≡ out.old.items ++ spec.call_lines placed.now.nodes node.now (assigned words.now) 1 node.now.calls) }
{
    let places = node.places.list().len() as u32;
    'each: for (i, site) in node.calls.list().iter().enumerate() {
        let of = i as u32 + 1;
        call_line(alloc, placed, site, of, words, places + of, out)?;
    }
    Ok(())
}

// The lines of a node.
fn node_lines(
    alloc: Global,
    placed: &Placed,
    typed: &Typed,
    number: u32,
    main: bool,
    clock: &NodeClock,
    out: &mut Vec<u8>,
) -> Result<(), AllocError>
    requires node { number < length placed.now.nodes }
    requires typed { IsTyped placed.now.nodes typed.now }
    requires sizes { (n : Node) → slice_get placed.now.nodes number ≡ Some n → length clock.now.sizes ≡ length n.buffers }
    ensures { (n : Node) → slice_get placed.now.nodes number ≡ Some n →
        OnOk result (out.new.items ≡ out.old.items ++ spec.node_lines placed.now.nodes main n (table_at typed.now number) clock.now) }
{
    let node = placed.node(number);
    let words = clock.words.list();
    node_line(alloc, node, out)?;
    name_lines(alloc, main, node.places.list(), typed, number, words, out)?;
    buffer_lines(alloc, node, words, clock.sizes.list(), out)?;
    call_lines(alloc, placed, node, words, out)
}

// The lines of all nodes.
fn all_lines(
    alloc: Global,
    placed: &Placed,
    typed: &Typed,
    clocks: &[NodeClock],
) -> Result<Vec<u8>, AllocError>
    requires { IsReportable placed.now.nodes typed.now clocks.now }
    ensures { IfOk result (λ v. v.items ≡ spec.report placed.now.nodes typed.now clocks.now) }
{
    let mut out = Vec::new(alloc);
    let nodes = placed.nodes();
    'each: for number in 0..nodes {
        let main = number + 1 == nodes;
        let clock = &clocks[number as usize];
        node_lines(alloc, placed, typed, number, main, clock, &mut out)?;
    }
    Ok(out)
}

/// The report: for each node its name, parameters and results, then each parameter and defined name with its type and its
/// word, each buffer with the words that it is written and read on, its size in items and its bound, where one is written, and each call with the word of its
/// base. Open types are `int` in main, the last node.
pub fn report(alloc: Global, accepted: &Accepted) -> Result<Vec<u8>, AllocError>
    requires { (ops : List Operator) × (text : List ℕ) × (options : Choices) × IsAccepted ops options text accepted.now }
    ensures { IfOk result (λ v. v.items ≡ spec.report accepted.now.placed.nodes accepted.now.typed accepted.now.clocks.items) }
{
    all_lines(alloc, &accepted.placed, &accepted.typed, &accepted.clocks)
}

/// The lines of a node of the report, by number from 0, at these clocks, which have a size for each of its buffers.
pub fn report_node(
    alloc: Global,
    accepted: &Accepted,
    node: u32,
    clocks: &NodeClock,
) -> Result<Vec<u8>, AllocError>
    requires node { node < length accepted.now.placed.nodes }
    requires typed { IsTyped accepted.now.placed.nodes accepted.now.typed }
    requires sizes { (n : Node) → slice_get accepted.now.placed.nodes node ≡ Some n → length clocks.now.sizes ≡ length n.buffers }
    ensures { (n : Node) → slice_get accepted.now.placed.nodes node ≡ Some n →
        IfOk result (λ v. v.items ≡ spec.node_lines accepted.now.placed.nodes (node + 1 == length accepted.now.placed.nodes) n
        (table_at accepted.now.typed node) clocks.now) }
{
    let mut out = Vec::new(alloc);
    let placed = &accepted.placed;
    let nodes = placed.nodes();
    let main = node + 1 == nodes;
    node_lines(alloc, placed, &accepted.typed, node, main, clocks, &mut out)?;
    Ok(out)
}
