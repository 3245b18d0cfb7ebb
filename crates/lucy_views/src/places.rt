// The command `where`: where an offset stands, and what stands at a place.
ghost use Rattle.std.specs.Prelude.{◌≡◌, ◌<◌, ◌≤◌, min, List, Ok, Some, length, slice_get, IfErr, IfOk};
ghost use Rattle.std.specs.Option.{option_map};
ghost use Rattle.lucy_tree.specs.View.{tree_of, program_tree};
ghost use Rattle.lucy_place.specs.declared.placed.PlacedNode.{PlacedNode as Node};
ghost use Rattle.lucy_place.specs.Standing.{at_one};
ghost use Rattle.lucy_picture.specs.Offsets as offsets;
ghost use Rattle.lucy_diagram.specs.Labels.{form_there};
ghost use Rattle.lucy_asking.specs.declared.ask.Picture.TheVariants as picture;
ghost use Rattle.lucy_asking.specs.declared.ask.Sought.TheVariants as sought;
ghost use Rattle.lucy_views.specs.Shown.{IsPlaceText};
ghost use Rattle.lucy_views.specs.Owes.{OwesNode, OwesOffset, OwesPlace, OwesPicture};
ghost use Rattle.lucy_views.specs.Failures.{ComesOut, OwesSought, Tellable, unread};

use crate::failure::Failure;
use crate::missing::Missing;
use crate::program::node_asked;
use lucy_asking::{Sought, WhereWords};
use lucy_host::Ops;
use lucy_naming::place;
use lucy_picture::{form_of, offset_of, put_entry, put_spot};
use lucy_place::{PlaceEntry, Placed, PlacedNode};
use lucy_syntax::parse;
use lucy_tree::{Expr, Program};
use std::alloc::{AllocError, Global};

// What is printed of an offset.
fn offset_text(alloc: Global, text: &[u8], offset: u64) -> Result<Vec<u8>, Failure>
    ensures outcome { ComesOut (OwesOffset text.now offset) result }
    ensures told { IfErr result Tellable }
{
    if offset > text.len() as u64 {
        return Err(Failure::Lacks(Missing::Offset));
    }
    let mut out = Vec::new(alloc);
    put_spot(alloc, text, offset as usize, &mut out)?;
    Ok(out)
}

// What stands at a place of a node, by its number from 1.
fn entry_at(node: &PlacedNode, place: u32) -> Option<&PlaceEntry>
    ensures { option_map (λ e. e.now) result ≡ at_one node.now.places place }
{
    node.places.list().get(place.checked_sub(1)? as usize)
}

// The form at a place of the node of a number.
fn form_in(program: &Program, node: u32, place: u32) -> Option<&Expr>
    ensures { option_map (λ e. tree_of e.now) result ≡ form_there (program_tree program.now) node place }
{
    form_of(program.nodes.list().get(node as usize)?, place)
}

// Where an entry begins in the text.
fn begin_of(text: &[u8], entry: &PlaceEntry, form: Option<&Expr>) -> usize
    ensures is { result ≡ min (offsets.offset_of entry.now (option_map (λ e. tree_of e.now) form.entry)) (length text.now) }
    ensures within { result ≤ length text.now }
{
    (offset_of(entry, form) as usize).min(text.len())
}

// What is printed of what stands at a place of the node of a number.
fn entry_text(
    alloc: Global,
    text: &[u8],
    program: &Program,
    node: &PlacedNode,
    number: u32,
    place: u32,
    entry: &PlaceEntry,
) -> Result<Vec<u8>, AllocError>
    ensures { (nodes : List Node) → slice_get nodes number ≡ Some node.now → at_one node.now.places place ≡ Some entry.now →
        IfOk result (λ v. IsPlaceText text.now (program_tree program.now) nodes number place v.items) }
{
    let form = form_in(program, number, place);
    let mut out = Vec::new(alloc);
    put_entry(alloc, node, place, entry, form, &mut out)?;
    put_spot(alloc, text, begin_of(text, entry, form), &mut out)?;
    Ok(out)
}

// What is printed of a place of the node of a number.
fn place_text(
    alloc: Global,
    text: &[u8],
    program: &Program,
    placed: &Placed,
    node: u32,
    place: u32,
) -> Result<Vec<u8>, Failure>
    requires { node < length placed.now.nodes }
    ensures outcome { ComesOut (OwesPlace text.now (program_tree program.now) placed.now.nodes place node) result }
    ensures told { IfErr result Tellable }
{
    let found = placed.node(node);
    let Some(entry) = entry_at(found, place) else {
        return Err(Failure::Lacks(Missing::Place));
    };
    Ok(entry_text(alloc, text, program, found, node, place, entry)?)
}

// What is printed of a place of the node that is asked for.
fn sought_text(
    alloc: Global,
    text: &[u8],
    program: &Program,
    placed: &Placed,
    name: Option<&str>,
    place: u32,
) -> Result<Vec<u8>, Failure>
    ensures outcome { ComesOut (OwesNode placed.now.nodes (option_map (λ s. s.now) name.entry)
        (OwesPlace text.now (program_tree program.now) placed.now.nodes place)) result }
    ensures told { IfErr result Tellable }
{
    let Some(node) = node_asked(placed, name) else {
        return Err(Failure::Lacks(Missing::Node));
    };
    place_text(alloc, text, program, placed, node, place)
}

// What is printed of a text, where a place is looked for.
fn place_in(
    alloc: Global,
    name: Option<&str>,
    ops: &Ops,
    text: &[u8],
    number: u32,
) -> Result<Vec<u8>, Failure>
    ensures outcome { ComesOut (OwesSought ops.now (Some (sought.Place number)) (option_map (λ s. s.now) name.entry) text.now) result }
    ensures told { IfErr result Tellable }
{
    let program = match parse(alloc, text) {
        Ok(program) => program,
        Err(error) => return Err(Failure::from(error)),
    };
    let placed = match place(alloc, &program, ops) {
        Ok(placed) => placed,
        Err(error) => return Err(Failure::from(error)),
    };
    sought_text(alloc, text, &program, &placed, name, number)
}

// What is printed of a text, where this is looked for.
fn sought_in(
    alloc: Global,
    sought: Sought,
    name: Option<&str>,
    ops: &Ops,
    text: &[u8],
) -> Result<Vec<u8>, Failure>
    ensures outcome { ComesOut (OwesSought ops.now (Some sought) (option_map (λ s. s.now) name.entry) text.now) result }
    ensures told { IfErr result Tellable }
{
    match sought {
        Sought::Offset(offset) => offset_text(alloc, text, offset),
        Sought::Place(number) => place_in(alloc, name, ops, text, number),
    }
}

/// What `where` prints of a text, or why it prints nothing.
pub(crate) fn spots(
    alloc: Global,
    words: WhereWords<'_>,
    ops: &Ops,
    text: &[u8],
) -> Result<Vec<u8>, Failure>
    ensures outcome { ComesOut (OwesPicture (picture.Where words.entry) (unread ops.now (Ok text.now))) result }
    ensures told { IfErr result Tellable }
{
    match words.sought {
        Some(sought) => sought_in(alloc, sought, words.node, ops, text),
        None => Err(Failure::Lacks(Missing::At)),
    }
}
