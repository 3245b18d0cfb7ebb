// Where a buffer of an accepted program stands.
ghost use Rattle.std.specs.Prelude.{ℕ, List, ◌≡◌, ◌<◌, ◌≤◌, Some, length, slice_get};
ghost use Rattle.lucy_host.specs.Operators.{Operator};
ghost use Rattle.lucy_place.specs.declared.placed.PlacedNode.{PlacedNode as Node};
ghost use Rattle.lucy_clock.specs.declared.node_clock.NodeClock.{NodeClock as Clock};
ghost use Rattle.lucy_program.specs.declared.options.Options.{Options as Choices};
ghost use Rattle.lucy_program.specs.Accepting.{IsAccepted};
ghost use Rattle.lucy_tight.specs.Tightening.{TheBuffer};

use lucy_clock::NodeClock;
use lucy_place::PlacedNode;
use lucy_program::{Accepted, first_operand};

/// The place that a buffer reads, its own place, and its printed size in items.
#[derive(Drop)]
pub(crate) struct Spot {
    pub from: u32,
    pub to: u32,
    pub printed: u64,
}

// The place of a buffer of a node, by the number of the buffer from 0.
fn place_of(node: &PlacedNode, number: usize) -> u32
    requires { number < length node.now.buffers }
    ensures { slice_get node.now.buffers number ≡ Some result }
{
    let buffers = node.buffers.list();
    buffers[number]
}

// Its size at the clocks of its node.
fn size_of(clocks: &[NodeClock], node: u32, number: usize) -> u64
    requires { (c : Clock) × (slice_get clocks.now node ≡ Some c) × (number < length c.sizes) }
    ensures { (c : Clock) → slice_get clocks.now node ≡ Some c → slice_get c.sizes number ≡ Some result }
{
    let clock = &clocks[node as usize];
    let sizes = clock.sizes.list();
    sizes[number]
}

/// Where a buffer of an accepted program stands, by the number of its node from 0 and its own from 1.
pub(crate) fn spot_of(accepted: &Accepted, node: u32, buffer: u32) -> Spot
    requires accepted { (ops : List Operator) × (o : Choices) × (text : List ℕ) × IsAccepted ops o text accepted.now }
    requires there { (n : Node) × (slice_get accepted.now.placed.nodes node ≡ Some n) × (1 ≤ buffer) × (buffer ≤ length n.buffers) }
    ensures { (of : TheBuffer accepted.now node buffer) × (result.from ≡ of.from) × (result.to ≡ of.to) × (result.printed ≡ of.size) }
{
    let found = accepted.placed.node(node);
    let number = buffer as usize - 1;
    let to = place_of(found, number);
    let from = first_operand(found, to).unwrap_or(0);
    let printed = size_of(&accepted.clocks, node, number);
    Spot { from, to, printed }
}
