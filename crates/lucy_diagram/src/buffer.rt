// The buffers of a node as they are drawn.
ghost use Rattle.std.specs.Prelude.{◌≡◌, ◌<◌, ◌+◌, ◌∷◌, ◌++◌, [], Some, None, length, slice_index_or, IfOk, OnOk};
ghost use Rattle.lucy_place.specs.Standing.{at_one};
ghost use Rattle.lucy_diagram.specs.Diagrams.{IsDrawnBuffer, AreDrawnBuffers};

use lucy_clock::NodeClock;
use lucy_place::PlacedNode;
use std::alloc::{AllocError, Global};

/// A buffer: its number and its place, each from 1, and its size and its written bound, each in items.
#[derive(Clone, Copy)]
pub struct DrawnBuffer {
    pub number: u64,
    pub place: u32,
    pub size: u64,
    pub bound: Option<u64>,
}

// The place of a buffer, by its number from 0.
fn place_of(buffers: &[u32], buffer: usize) -> u32
    requires { buffer < length buffers.now }
    ensures { at_one buffers.now (buffer + 1) ≡ Some result }
{
    buffers[buffer]
}

// Its size.
fn size_of(clock: &NodeClock, buffer: usize) -> u64
    requires { buffer < length clock.now.sizes }
    ensures { at_one clock.now.sizes (buffer + 1) ≡ Some result }
{
    let sizes = clock.sizes.list();
    sizes[buffer]
}

// Its bound, where one is written.
fn bound_of(node: &PlacedNode, buffer: usize) -> Option<u64>
    ensures { result ≡ slice_index_or node.now.bounds buffer None }
{
    match node.bounds.list().get(buffer) {
        Some(bound) => *bound,
        None => None,
    }
}

// The buffer of a number from 0.
fn buffer_at(node: &PlacedNode, clock: &NodeClock, number: usize) -> DrawnBuffer
    requires number { number < length node.now.buffers }
    requires sizes { length clock.now.sizes ≡ length node.now.buffers }
    ensures { IsDrawnBuffer node.now clock.now (number + 1) result }
{
    let buffers = node.buffers.list();
    DrawnBuffer {
        number: number as u64 + 1,
        place: place_of(buffers, number),
        size: size_of(clock, number),
        bound: bound_of(node, number),
    }
}

/// The buffers of a node, in order.
pub(crate) fn buffers(
    alloc: Global,
    node: &PlacedNode,
    clock: &NodeClock,
) -> Result<Vec<DrawnBuffer>, AllocError>
    requires { length clock.now.sizes ≡ length node.now.buffers }
    ensures { IfOk result (λ v. AreDrawnBuffers node.now clock.now v.items) }
{
    let mut buffers = Vec::new(alloc);
    'each: for i in 0..node.buffers.list().len() {
        buffers.push(buffer_at(node, clock, i))?;
    }
    Ok(buffers)
}
