// What drawings of a node show.
ghost use Rattle.std.specs.Prelude.{List, ℕ, ◌≡◌, ◌<◌, Some, length, slice_get, IfOk, ◌++◌, OnOk};
ghost use Rattle.lucy_host.specs.Operators.{Operator};
ghost use Rattle.lucy_place.specs.declared.placed.PlacedNode.{PlacedNode as Node};
ghost use Rattle.lucy_clock.specs.declared.node_clock.NodeClock.{NodeClock as Clock};
ghost use Rattle.lucy_program.specs.declared.options.Options.{Options as Choices};
ghost use Rattle.lucy_program.specs.Accepting.{IsAccepted};
ghost use Rattle.lucy_diagram.specs.Diagrams.{drawn_places, AreEdges, AreDrawnBuffers, AreDrawnCalls};
ghost use Rattle.lucy_diagram.specs.Layers.{AreLayers, OneLayering};
ghost use Rattle.lucy_tree.specs.View.{program_tree};
ghost use Rattle.lucy_diagram.specs.Labels as spec;

use lucy_diagram::Diagram;
use lucy_place::Placed;
use lucy_program::Accepted;
use lucy_tree::Program;
use std::alloc::{AllocError, Global};

/// Pins `lucy_diagram::diagram_of`.
pub fn diagram_of(alloc: Global, accepted: &Accepted, node: u32) -> Result<Diagram, AllocError>
    requires accepted { (ops : List Operator) × (o : Choices) × (text : List ℕ) × IsAccepted ops o text accepted.now }
    requires node { node < length accepted.now.placed.nodes }
    ensures places { (n : Node) → slice_get accepted.now.placed.nodes node ≡ Some n → IfOk result (λ d. d.places.items ≡ drawn_places n) }
    ensures edges { (n : Node) → slice_get accepted.now.placed.nodes node ≡ Some n → IfOk result (λ d. AreEdges n d.edges.items) }
    ensures buffers { (n : Node) (c : Clock) → slice_get accepted.now.placed.nodes node ≡ Some n →
        slice_get accepted.now.clocks.items node ≡ Some c → IfOk result (λ d. AreDrawnBuffers n c d.buffers.items) }
    ensures calls { (n : Node) → slice_get accepted.now.placed.nodes node ≡ Some n →
        IfOk result (λ d. AreDrawnCalls accepted.now.placed.nodes n d.calls.items) }
{
    lucy_diagram::diagram_of(alloc, accepted, node)
}

/// Pins `lucy_diagram::layers_of`.
pub fn layers_of(alloc: Global, diagram: &Diagram) -> Result<Vec<usize>, AllocError>
    ensures count { IfOk result (λ v. length v.items ≡ length diagram.now.places.items) }
    ensures layers { IfOk result (λ v. AreLayers diagram.now v.items) }
{
    lucy_diagram::layers_of(alloc, diagram)
}

/// Pins `lucy_diagram::layers_are_determined`.
pub fn layers_are_determined()
    ensures { OneLayering }
{
    lucy_diagram::layers_are_determined();
}

/// Pins `lucy_diagram::put_text`.
pub fn put_text(
    alloc: Global,
    program: &Program,
    placed: &Placed,
    node: u32,
    place: u32,
    out: &mut Vec<u8>,
) -> Result<(), AllocError>
    requires { node < length placed.now.nodes }
    ensures { (n : Node) → slice_get placed.now.nodes node ≡ Some n →
        OnOk result (out.new.items ≡ out.old.items ++ spec.place_text (program_tree program.now) placed.now.nodes node n place) }
{
    lucy_diagram::put_text(alloc, program, placed, node, place, out)
}
