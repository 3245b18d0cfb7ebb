// What a drawing of a node shows.
ghost use Rattle.std.specs.Prelude.{List, ℕ, ◌≡◌, ◌<◌, Some, length, slice_get, take, IfOk};
ghost use Rattle.lucy_host.specs.Operators.{Operator};
ghost use Rattle.lucy_place.specs.declared.placed.PlacedNode.{PlacedNode as Node};
ghost use Rattle.lucy_place.specs.Proper.{IsProperNode};
ghost use Rattle.lucy_clock.specs.declared.node_clock.NodeClock.{NodeClock as Clock};
ghost use Rattle.lucy_program.specs.declared.options.Options.{Options as Choices};
ghost use Rattle.lucy_program.specs.Accepting.{IsAccepted};
ghost use Rattle.lucy_diagram.specs.Diagrams.{drawn_places, AreEdges, AreDrawnBuffers, AreDrawnCalls};

use crate::buffer::{DrawnBuffer, buffers};
use crate::call::{DrawnCall, calls};
use crate::edge::{Edge, edges};
use crate::place::{DrawnPlace, places};
use lucy_clock::NodeClock;
use lucy_place::{Placed, PlacedNode};
use lucy_program::Accepted;
use std::alloc::{AllocError, Global};

/// What a drawing of a node shows: its places, which place reads which, its buffers and its calls, each in order.
#[derive(Drop)]
pub struct Diagram {
    pub places: Vec<DrawnPlace>,
    pub edges: Vec<Edge>,
    pub buffers: Vec<DrawnBuffer>,
    pub calls: Vec<DrawnCall>,
}

// That of a node with its clocks.
fn drawn(
    alloc: Global,
    placed: &Placed,
    node: &PlacedNode,
    clock: &NodeClock,
) -> Result<Diagram, AllocError>
    requires proper { (i : ℕ) × IsProperNode (take i placed.now.nodes) node.now }
    requires sizes { length clock.now.sizes ≡ length node.now.buffers }
    ensures places { IfOk result (λ d. d.places.items ≡ drawn_places node.now) }
    ensures edges { IfOk result (λ d. AreEdges node.now d.edges.items) }
    ensures buffers { IfOk result (λ d. AreDrawnBuffers node.now clock.now d.buffers.items) }
    ensures calls { IfOk result (λ d. AreDrawnCalls placed.now.nodes node.now d.calls.items) }
{
    let places = places(alloc, node)?;
    let edges = edges(alloc, node)?;
    let buffers = buffers(alloc, node, clock)?;
    let calls = calls(alloc, placed, node)?;
    Ok(Diagram {
        places,
        edges,
        buffers,
        calls,
    })
}

// The clocks of a node, by its number from 0.
fn clock_at(clocks: &[NodeClock], node: u32) -> &NodeClock
    requires { node < length clocks.now }
    ensures { slice_get clocks.now node ≡ Some result.now }
{
    &clocks[node as usize]
}

/// What a drawing shows of a node of an accepted program, by its number from 0.
pub fn diagram_of(alloc: Global, accepted: &Accepted, node: u32) -> Result<Diagram, AllocError>
    requires accepted { (ops : List Operator) × (o : Choices) × (text : List ℕ) × IsAccepted ops o text accepted.now }
    requires node { node < length accepted.now.placed.nodes }
    ensures places { (n : Node) → slice_get accepted.now.placed.nodes node ≡ Some n → IfOk result (λ d. d.places.items ≡ drawn_places n) }
    ensures edges { (n : Node) → slice_get accepted.now.placed.nodes node ≡ Some n → IfOk result (λ d. AreEdges n d.edges.items) }
    ensures buffers { (n : Node) (c : Clock) → slice_get accepted.now.placed.nodes node ≡ Some n →
        slice_get accepted.now.clocks.items node ≡ Some c → IfOk result (λ d. AreDrawnBuffers n c d.buffers.items) }
    ensures calls { (n : Node) → slice_get accepted.now.placed.nodes node ≡ Some n →
        IfOk result (λ d. AreDrawnCalls accepted.now.placed.nodes n d.calls.items) }
{
    let clock = clock_at(&accepted.clocks, node);
    drawn(alloc, &accepted.placed, accepted.placed.node(node), clock)
}
