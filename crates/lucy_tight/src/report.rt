// Prints what is told of one buffer.
ghost use Rattle.std.specs.Prelude.{◌≡◌, ◌<◌, ◌++◌, Some, codes, length, slice_get, IfOk, OnOk};
ghost use Rattle.std.specs.Fmt.{decimal};
ghost use Rattle.lucy_place.specs.declared.placed.PlacedNode.{PlacedNode as Node};
ghost use Rattle.lucy_types.specs.Programs.{IsTyped};
ghost use Rattle.lucy_clock.specs.Clocks.{clocks_of};
ghost use Rattle.lucy_shape.specs.Fitting.{variable_count};
ghost use Rattle.lucy_front.specs.Refusals.{AreBelow};
ghost use Rattle.lucy_program.specs.declared.options.Options.{Options as Choices};
ghost use Rattle.lucy_tight.specs.Tightening.{IsTightened};
ghost use Rattle.lucy_tight.specs.Report as spec;

use crate::Least;
use lucy_front::cycle_text;
use lucy_place::PlacedNode;
use lucy_program::{Accepted, report_node};
use std::alloc::{AllocError, Global};

// Puts these bytes last.
fn bytes(bytes: &[u8], out: &mut Vec<u8>) -> Result<(), AllocError>
    ensures { OnOk result (out.new.items ≡ out.old.items ++ bytes.now) }
{
    out.extend_from_slice(bytes)?;
    Ok(())
}

// Puts a number last, in decimal.
fn number(alloc: Global, number: u64, out: &mut Vec<u8>) -> Result<(), AllocError>
    ensures { OnOk result (out.new.items ≡ out.old.items ++ decimal number) }
{
    bytes(format!(in alloc; "{number}")?.as_bytes(), out)
}

// Puts the start of the first line last: the buffer with its printed size.
fn put_size(
    alloc: Global,
    node: &PlacedNode,
    buffer: u32,
    size: u64,
    out: &mut Vec<u8>,
) -> Result<(), AllocError>
    ensures { OnOk result (out.new.items ≡ out.old.items ++ spec.size_text node.now buffer size) }
{
    bytes(b"buffer ", out)?;
    number(alloc, u64::from(buffer), out)?;
    bytes(b" of ", out)?;
    bytes(node.name.text.bytes(), out)?;
    bytes(b" : size ", out)?;
    number(alloc, size, out)?;
    bytes(b", ", out)
}

// Puts the rest of the line last: the least size.
fn put_least(alloc: Global, least: u64, out: &mut Vec<u8>) -> Result<(), AllocError>
    ensures { OnOk result (out.new.items ≡ out.old.items ++ (codes "least " ++ (decimal least ++ codes "\n"))) }
{
    bytes(b"least ", out)?;
    number(alloc, least, out)?;
    bytes(b"\n", out)
}

// Puts a size that is too small last, with the period of the clocks.
fn put_less(alloc: Global, less: u64, period: u64, out: &mut Vec<u8>) -> Result<(), AllocError>
    ensures { OnOk result (out.new.items ≡ out.old.items
        ++ (codes "no size " ++ (decimal less ++ (codes " for period " ++ (decimal period ++ codes "\n"))))) }
{
    bytes(b"no size ", out)?;
    number(alloc, less, out)?;
    bytes(b" for period ", out)?;
    number(alloc, period, out)?;
    bytes(b"\n", out)
}

// Puts last that one less than the least size is too small, and the cycle that shows it, where the least size isn't 0.
fn put_evidence(
    alloc: Global,
    accepted: &Accepted,
    node: u32,
    tight: &Least,
    out: &mut Vec<u8>,
) -> Result<(), AllocError>
    requires node { node < length accepted.now.placed.nodes }
    requires clocks { (n : Node) → slice_get accepted.now.placed.nodes node ≡ Some n → length tight.now.shape.clocks ≡ clocks_of n }
    requires variables { tight.now.diffs.count ≡ variable_count tight.now.shape.clocks }
    requires there { 0 < tight.now.least → AreBelow (length tight.now.diffs.list) tight.now.cycle.items }
    ensures { (n : Node) → slice_get accepted.now.placed.nodes node ≡ Some n → OnOk result (out.new.items ≡ out.old.items ++ spec.less_lines n tight.now.least tight.now) }
{
    if tight.least == 0 {
        return Ok(());
    }
    put_less(alloc, tight.least - 1, tight.shape.period, out)?;
    let cycle = cycle_text(
        alloc,
        accepted,
        node,
        &tight.shape,
        &tight.diffs,
        &tight.cycle,
    )?;
    bytes(&cycle, out)
}

/// The whole output of the least size of a buffer, by the number of its node from 0 and its own from 1.
pub fn report_tight(
    alloc: Global,
    accepted: &Accepted,
    node: u32,
    buffer: u32,
    tight: &Least,
) -> Result<Vec<u8>, AllocError>
    requires typed { IsTyped accepted.now.placed.nodes accepted.now.typed }
    requires node { node < length accepted.now.placed.nodes }
    requires tightened { (o : Choices) × IsTightened accepted.now o node buffer tight.now }
    ensures { IfOk result (λ v. v.items ≡ spec.tight_lines accepted.now node buffer tight.now) }
{
    let mut out = Vec::new(alloc);
    let found = accepted.placed.node(node);
    put_size(alloc, found, buffer, tight.printed, &mut out)?;
    put_least(alloc, tight.least, &mut out)?;
    let lines = report_node(alloc, accepted, node, &tight.clocks)?;
    bytes(&lines, &mut out)?;
    put_evidence(alloc, accepted, node, tight, &mut out)?;
    Ok(out)
}

/// The whole output of a buffer of a written node with this size, which is fixed.
pub fn report_fixed(
    alloc: Global,
    accepted: &Accepted,
    node: u32,
    buffer: u32,
    size: u64,
) -> Result<Vec<u8>, AllocError>
    requires { node < length accepted.now.placed.nodes }
    ensures { IfOk result (λ v. v.items ≡ spec.fixed_lines accepted.now node buffer size) }
{
    let mut out = Vec::new(alloc);
    let found = accepted.placed.node(node);
    put_size(alloc, found, buffer, size, &mut out)?;
    bytes(b"fixed\n", &mut out)?;
    Ok(out)
}
