// The outputs and the rings of the drawing of a net.
ghost use Rattle.std.specs.Prelude.{◌≡◌, ◌<◌, ◌+◌, ◌^◌, ◌++◌, Some, length, flat_map, slice_get, codes, IfOk, OnOk};
ghost use Rattle.lucy_graphviz.specs.Labels.{word_label};
ghost use Rattle.lucy_graphviz.specs.Nets as spec;

use crate::print::label::{put, put_label, word_label};
use crate::print::lines::put_line;
use lucy_lines::OutputSpec;
use lucy_net::{ActorKind, Net, RingSpec};
use std::alloc::{AllocError, Global};

// The label of an output.
fn output_label(alloc: Global, output: &OutputSpec) -> Result<Vec<u8>, AllocError>
    ensures { IfOk result (λ v. v.items ≡ codes "output " ++ output.now.name) }
{
    let mut label = Vec::new(alloc);
    put(&mut label, b"output ")?;
    put(&mut label, output.name.bytes())?;
    Ok(label)
}

// Puts the box of an output last, whose actor has this number.
fn put_output(
    alloc: Global,
    output: &OutputSpec,
    actor: u64,
    out: &mut Vec<u8>,
) -> Result<(), AllocError>
    ensures { OnOk result (out.new.items ≡ out.old.items ++ spec.output_text actor output.now) }
{
    let label = output_label(alloc, output)?;
    put(out, format!(in alloc; "  a{actor} [")?.as_bytes())?;
    put_label(&label, out)?;
    put(out, b", shape=ellipse, peripheries=2];\n")
}

// The output of a number from 0.
fn output_at(outputs: &[OutputSpec], number: usize) -> &OutputSpec
    requires { number < length outputs.now }
    ensures { slice_get outputs.now number ≡ Some result.now }
{
    &outputs[number]
}

/// Puts the boxes of a program's outputs last, whose actors have the numbers from this one on.
pub(crate) fn put_outputs(
    alloc: Global,
    outputs: &[OutputSpec],
    begin: u64,
    out: &mut Vec<u8>,
) -> Result<(), AllocError>
    requires { begin + length outputs.now < 2 ^ 64 }
    ensures { OnOk result (out.new.items ≡ out.old.items ++ spec.numbered spec.output_text begin outputs.now) }
{
    'each: for i in 0..outputs.len() {
        put_output(alloc, output_at(outputs, i), begin + i as u64, out)?;
    }
    Ok(())
}

// Whether an actor of a kind gives what it takes an item later.
fn is_delay(kind: &ActorKind) -> bool
    ensures { result ≡ spec.is_delay kind.now }
{
    match kind {
        ActorKind::Input(_) => false,
        ActorKind::Lit(_) => false,
        ActorKind::Op(_) => false,
        ActorKind::Host(_) => false,
        ActorKind::When(_) => false,
        ActorKind::Merge(_) => false,
        ActorKind::Fby(_) => true,
        ActorKind::Pass => false,
        ActorKind::Output(_) => false,
    }
}

// The same of the actor of a number.
fn delays(net: &Net, actor: u32) -> bool
    ensures { result ≡ spec.delays net.now actor }
{
    match net.actors.list().get(actor as usize) {
        Some(found) => is_delay(&found.kind),
        None => false,
    }
}

// Puts the size of a ring last, where it is not 0.
fn put_size(alloc: Global, size: u64, out: &mut Vec<u8>) -> Result<(), AllocError>
    ensures { OnOk result (out.new.items ≡ out.old.items ++ spec.ring_size size) }
{
    if size == 0 {
        return Ok(());
    }
    put(out, format!(in alloc; "\nsize {size}")?.as_bytes())
}

// The label of a ring: the word on which it is written, and its size where that is not 0.
fn label_of(alloc: Global, ring: &RingSpec) -> Result<Vec<u8>, AllocError>
    ensures { IfOk result (λ v. v.items ≡ word_label ring.now.write ++ spec.ring_size ring.now.size) }
{
    let mut label = Vec::new(alloc);
    put(&mut label, word_label(alloc, &ring.write)?.bytes())?;
    put_size(alloc, ring.size, &mut label)?;
    Ok(label)
}

// Puts a ring last.
fn put_ring(alloc: Global, net: &Net, ring: &RingSpec, out: &mut Vec<u8>) -> Result<(), AllocError>
    ensures { OnOk result (out.new.items ≡ out.old.items ++ spec.ring_text net.now ring.now) }
{
    let label = label_of(alloc, ring)?;
    put(
        out,
        format!(in alloc; "  a{} -> a{}", ring.from, ring.to)?.as_bytes(),
    )?;
    put_line(&label, delays(net, ring.to), out)?;
    Ok(())
}

// The ring of a number from 0.
fn ring_at(rings: &[RingSpec], number: usize) -> &RingSpec
    requires { number < length rings.now }
    ensures { slice_get rings.now number ≡ Some result.now }
{
    &rings[number]
}

/// Puts the rings of a net last, in order.
pub(crate) fn put_rings(alloc: Global, net: &Net, out: &mut Vec<u8>) -> Result<(), AllocError>
    ensures { OnOk result (out.new.items ≡ out.old.items ++ flat_map (spec.ring_text net.now) net.now.rings) }
{
    let rings = net.rings.list();
    'each: for i in 0..rings.len() {
        put_ring(alloc, net, ring_at(rings, i), out)?;
    }
    Ok(())
}
