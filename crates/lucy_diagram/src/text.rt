// What stands at a place, as text.
ghost use Rattle.std.specs.Prelude.{◌≡◌, ◌<◌, ◌++◌, Some, length, slice_get, OnOk};
ghost use Rattle.std.specs.Option.{option_map};
ghost use Rattle.lucy_tree.specs.View.{tree_of, program_tree};
ghost use Rattle.lucy_place.specs.declared.placed.PlacedNode.{PlacedNode as Node};
ghost use Rattle.lucy_place.specs.Standing.{at_one};
ghost use Rattle.lucy_diagram.specs.Labels as spec;
ghost use Rattle.lucy_diagram.specs.Drawn.{form_in};

use lucy_picture::{form_of, put_kind};
use lucy_place::{CallSite, PlaceEntry, PlaceKind, Placed, PlacedNode};
use lucy_tree::{Expr, Program};
use std::alloc::{AllocError, Global};

// Puts these bytes last.
fn put(out: &mut Vec<u8>, bytes: &[u8]) -> Result<(), AllocError>
    ensures { OnOk result (out.new.items ≡ out.old.items ++ bytes.now) }
{
    out.extend_from_slice(bytes)?;
    Ok(())
}

/// What is known of a place of a node.
pub fn entry_at(node: &PlacedNode, place: u32) -> Option<&PlaceEntry>
    ensures { option_map (λ entry. entry.now) result ≡ at_one node.now.places place }
{
    node.places.list().get(place.checked_sub(1)? as usize)
}

/// The call of a result of a call, and which of its results it is, from 0.
pub fn result_of(kind: &PlaceKind) -> Option<(u32, u32)>
    ensures { result ≡ spec.result_of kind.now }
{
    match kind {
        PlaceKind::Param => None,
        PlaceKind::Defined(_) => None,
        PlaceKind::Lit(_) => None,
        PlaceKind::Op(_, _) => None,
        PlaceKind::Host(_, _, _) => None,
        PlaceKind::When(_, _) => None,
        PlaceKind::Merge(_, _, _) => None,
        PlaceKind::Fby(_, _) => None,
        PlaceKind::Buffer(_, _) => None,
        PlaceKind::Result(call, number) => Some((*call, *number)),
    }
}

// The form at a place of a node.
fn form_there(program: &Program, node: u32, place: u32) -> Option<&Expr>
    ensures { option_map (λ e. tree_of e.now) result ≡ spec.form_there (program_tree program.now) node place }
{
    form_of(program.nodes.list().get(node as usize)?, place)
}

// The same, where its text says more than its kind: looking for it takes time.
fn form_in<'a>(program: &'a Program, node: u32, place: u32, kind: &PlaceKind) -> Option<&'a Expr>
    ensures { option_map (λ e. tree_of e.now) result ≡ form_in (program_tree program.now) node place kind.now }
{
    match kind {
        PlaceKind::Param => None,
        PlaceKind::Defined(_) => None,
        PlaceKind::Lit(_) => None,
        PlaceKind::Op(_, _) => None,
        PlaceKind::Host(_, _, _) => form_there(program, node, place),
        PlaceKind::When(_, _) => form_there(program, node, place),
        PlaceKind::Merge(_, _, _) => None,
        PlaceKind::Fby(_, _) => None,
        PlaceKind::Buffer(_, _) => None,
        PlaceKind::Result(_, _) => None,
    }
}

/// Puts the name of a node last.
pub fn put_name(placed: &Placed, node: u32, out: &mut Vec<u8>) -> Result<(), AllocError>
    ensures { OnOk result (out.new.items ≡ out.old.items ++ spec.node_name placed.now.nodes node) }
{
    if node < placed.nodes() {
        return put(out, placed.node(node).name.text.bytes());
    }
    Ok(())
}

// The call of a number.
fn site_of(node: &PlacedNode, call: u32) -> Option<&CallSite>
    ensures { option_map (λ site. site.now) result ≡ at_one node.now.calls call }
{
    node.calls.list().get(call.checked_sub(1)? as usize)
}

// Puts the node of a call last, behind `of`.
fn put_callee(
    placed: &Placed,
    node: &PlacedNode,
    call: u32,
    out: &mut Vec<u8>,
) -> Result<(), AllocError>
    ensures { OnOk result (out.new.items ≡ out.old.items ++ spec.callee_part placed.now.nodes node.now call) }
{
    match site_of(node, call) {
        Some(site) => {
            put(out, b" of ")?;
            put_name(placed, site.node, out)
        }
        None => Ok(()),
    }
}

// Puts a result of a call last, by the number of the call, and its own from 0.
fn put_result(
    alloc: Global,
    placed: &Placed,
    node: &PlacedNode,
    call: u32,
    number: u32,
    out: &mut Vec<u8>,
) -> Result<(), AllocError>
    ensures { OnOk result (out.new.items ≡ out.old.items ++ spec.result_part placed.now.nodes node.now (call, number)) }
{
    let nth = u64::from(number) + 1;
    put(out, format!(in alloc; "result {nth}")?.as_bytes())?;
    put_callee(placed, node, call, out)
}

// Puts what stands at a place of this form without a name last.
fn put_form(
    alloc: Global,
    placed: &Placed,
    node: &PlacedNode,
    kind: &PlaceKind,
    form: Option<&Expr>,
    out: &mut Vec<u8>,
) -> Result<(), AllocError>
    ensures { OnOk result (out.new.items
        ≡ out.old.items ++ spec.unnamed_text placed.now.nodes node.now kind.now (option_map (λ e. tree_of e.now) form.entry)) }
{
    match result_of(kind) {
        Some((call, number)) => Ok(put_result(alloc, placed, node, call, number, out)?),
        None => put_kind(alloc, node, kind, form, out),
    }
}

// Puts what stands at a place without a name last.
fn put_unnamed(
    alloc: Global,
    program: &Program,
    placed: &Placed,
    node: u32,
    found: &PlacedNode,
    place: u32,
    kind: &PlaceKind,
    out: &mut Vec<u8>,
) -> Result<(), AllocError>
    ensures { OnOk result (out.new.items
        ≡ out.old.items ++ spec.unnamed_text placed.now.nodes found.now kind.now (spec.form_there (program_tree program.now) node place)) }
{
    let form = form_in(program, node, place, kind);
    put_form(alloc, placed, found, kind, form, out)?;
    Ok(())
}

// Puts what stands at a place last.
fn put_entry(
    alloc: Global,
    program: &Program,
    placed: &Placed,
    node: u32,
    found: &PlacedNode,
    place: u32,
    entry: &PlaceEntry,
    out: &mut Vec<u8>,
) -> Result<(), AllocError>
    ensures { OnOk result (out.new.items
        ≡ out.old.items ++ spec.entry_text placed.now.nodes found.now entry.now (spec.form_there (program_tree program.now) node place)) }
{
    match &entry.name {
        Some(name) => Ok(put(out, name.text.bytes())?),
        None => put_unnamed(alloc, program, placed, node, found, place, &entry.kind, out),
    }
}

/// Puts what is in the box of a place of a node last, by the numbers of the node, from 0, and of its own, from 1.
pub fn put_there(
    alloc: Global,
    program: &Program,
    placed: &Placed,
    node: u32,
    found: &PlacedNode,
    place: u32,
    out: &mut Vec<u8>,
) -> Result<(), AllocError>
    ensures { OnOk result (out.new.items ≡ out.old.items ++ spec.place_text (program_tree program.now) placed.now.nodes node found.now place) }
{
    put(out, format!(in alloc; "#{place}: ")?.as_bytes())?;
    match entry_at(found, place) {
        Some(entry) => put_entry(alloc, program, placed, node, found, place, entry, out),
        None => Ok(()),
    }
}

/// Puts what is in the box of a place last, by the numbers of its node, from 0, and of its own, from 1: `#`, the number, and its name,
/// else the form that stands there.
pub fn put_text(
    alloc: Global,
    program: &Program,
    placed: &Placed,
    node: u32,
    place: u32,
    out: &mut Vec<u8>,
) -> Result<(), AllocError>
    requires { node < length placed.now.nodes }
    ensures { (n : Node) → slice_get placed.now.nodes node ≡ Some n →
        OnOk result (out.new.items ≡ out.old.items ++ spec.place_text (program_tree program.now) placed.now.nodes node n place) }
{
    put_there(alloc, program, placed, node, placed.node(node), place, out)
}
