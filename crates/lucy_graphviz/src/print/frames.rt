// The frame of an instance in the drawing of a net.
ghost use Rattle.std.specs.Prelude.{◌≡◌, ◌<◌, ◌+◌, ◌^◌, ◌++◌, length, IfOk, OnOk};
ghost use Rattle.lucy_graphviz.specs.Nets as spec;

use crate::print::label::{put, put_label, word_label};
use lucy_diagram::put_name;
use lucy_picture::words_at;
use lucy_place::{CallSite, PlacedNode};
use lucy_program::Accepted;
use std::alloc::{AllocError, Global};

/// The calls that lead to the instance of a call, by the call's number, of the instance that this path leads to.
pub(crate) fn path_to(alloc: Global, path: &[u8], call: usize) -> Result<Vec<u8>, AllocError>
    ensures { IfOk result (λ v. v.items ≡ spec.path_to path.now call) }
{
    let mut longer = Vec::new(alloc);
    put(&mut longer, path)?;
    put(&mut longer, format!(in alloc; "call{call}.")?.as_bytes())?;
    Ok(longer)
}

// Puts the word of the base of a call last.
fn put_base(
    alloc: Global,
    accepted: &Accepted,
    node: u32,
    found: &PlacedNode,
    call: usize,
    out: &mut Vec<u8>,
) -> Result<(), AllocError>
    requires { length found.now.places + call < 2 ^ 64 }
    ensures { OnOk result (out.new.items ≡ out.old.items ++ spec.base_label accepted.now.clocks.items node found.now call) }
{
    let clock = found.places.list().len() + call;
    match words_at(&accepted.clocks, node).get(clock) {
        Some(word) => Ok(put(out, word_label(alloc, word)?.bytes())?),
        None => Ok(()),
    }
}

// A call, the node that it calls, and the word of its base.
fn call_label(
    alloc: Global,
    accepted: &Accepted,
    node: u32,
    found: &PlacedNode,
    site: &CallSite,
    call: usize,
) -> Result<Vec<u8>, AllocError>
    requires { length found.now.places + call < 2 ^ 64 }
    ensures { IfOk result (λ v. v.items
        ≡ spec.call_label accepted.now.placed.nodes (spec.base_label accepted.now.clocks.items node found.now call) call site.now) }
{
    let mut label = Vec::new(alloc);
    put(&mut label, format!(in alloc; "call {call}: ")?.as_bytes())?;
    put_name(&accepted.placed, site.node, &mut label)?;
    put(&mut label, b" at ")?;
    put_base(alloc, accepted, node, found, call, &mut label)?;
    Ok(label)
}

/// Puts the first lines of the frame of a call's instance last, by the call's number, from 1, and that of the first actor, from 0.
pub(crate) fn put_frame(
    alloc: Global,
    accepted: &Accepted,
    node: u32,
    found: &PlacedNode,
    site: &CallSite,
    call: usize,
    begin: u64,
    out: &mut Vec<u8>,
) -> Result<(), AllocError>
    requires { length found.now.places + call < 2 ^ 64 }
    ensures { OnOk result (out.new.items ≡ out.old.items
        ++ spec.frame_text (spec.call_label accepted.now.placed.nodes (spec.base_label accepted.now.clocks.items node found.now call) call site.now) begin) }
{
    let label = call_label(alloc, accepted, node, found, site, call)?;
    let head = format!(in alloc; "  subgraph cluster_{begin} {{\n  ")?;
    put(out, head.as_bytes())?;
    put_label(&label, out)?;
    put(out, b";\n")?;
    Ok(())
}
