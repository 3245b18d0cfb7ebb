// The sizes of all buffers of a program.
use crate::tell::page::Page;
use lucy_clock::NodeClock;
use lucy_place::{Placed, PlacedNode};
use lucy_program::Accepted;
use std::alloc::{AllocError, Global};

// Counts the nodes that a node calls once more for each time that it is there itself.
fn count_calls(counts: &mut [u64], node: &PlacedNode, own: u64) {
    for site in node.calls.list() {
        let called = site.node as usize;
        if called < counts.len() {
            counts[called] = counts[called].saturating_add(own);
        }
    }
}

// How often each node is there, where the last one is there once and calls are written out.
fn instances(alloc: Global, placed: &Placed) -> Result<Vec<u64>, AllocError> {
    let nodes = placed.nodes();
    let mut counts = vec![in alloc; 0u64; nodes as usize]?;
    for i in 0..nodes {
        let node = nodes - 1 - i;
        if (node as usize) < counts.len() {
            let own = if i == 0 { 1 } else { counts[node as usize] };
            count_calls(&mut counts, placed.node(node), own);
            counts[node as usize] = own;
        }
    }
    Ok(counts)
}

// The sum of the sizes of a node's buffers.
fn own_sizes(clock: &NodeClock) -> u64 {
    let mut sum = 0u64;
    for size in clock.sizes.list() {
        sum = sum.saturating_add(*size);
    }
    sum
}

// The sum of all sizes, each as often as its node is there.
fn all_sizes(counts: &[u64], clocks: &[NodeClock]) -> u64 {
    let mut sum = 0u64;
    for (count, clock) in counts.iter().zip(clocks.iter()) {
        sum = sum.saturating_add(own_sizes(clock).saturating_mul(*count));
    }
    sum
}

/// Puts the sum of the sizes of all buffers last, with calls written out.
pub(crate) fn put_all_sizes(page: &mut Page<'_>, accepted: &Accepted) -> Result<(), AllocError> {
    let counts = instances(page.alloc, &accepted.placed)?;
    page.say("all buffers of the program together, with its calls written out: size ");
    page.number(all_sizes(&counts, &accepted.clocks));
    page.say("\n");
    Ok(())
}
