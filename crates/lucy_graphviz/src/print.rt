// Printing: what drawings show, in the language of Graphviz.
ghost use Rattle.std.specs.Prelude.{List, ℕ, ◌≡◌, ◌<◌, ◌-◌, ◌++◌, false, true, Some, length, slice_get, IfSome, OnOk};
ghost use Rattle.std.specs.Option.{unwrap_or};
ghost use Rattle.lucy_host.specs.Operators.{Operator};
ghost use Rattle.lucy_tree.specs.View.{program_tree};
ghost use Rattle.lucy_place.specs.declared.placed.PlacedNode.{PlacedNode as Node};
ghost use Rattle.lucy_program.specs.declared.options.Options.{Options as Choices};
ghost use Rattle.lucy_program.specs.Accepting.{IsAccepted};
ghost use Rattle.lucy_graphviz.specs.Graphs.{PutsNode};
ghost use Rattle.lucy_graphviz.specs.Nets.{net_text};

mod boxes;
mod calls;
mod frames;
mod instances;
mod label;
mod lines;
mod node;
mod rings;
mod sizes;

use instances::put_program;
use lucy_place::Placed;
use lucy_program::Accepted;
use lucy_tree::Program;
use node::put_node;
use std::alloc::{AllocError, Global};

// The number of the node that is drawn: main's, where none is given.
fn drawn_node(placed: &Placed, node: Option<u32>) -> u32
    requires { IfSome node (λ n. n < length placed.now.nodes) }
    ensures is { result ≡ unwrap_or node (length placed.now.nodes - 1) }
    ensures within { result < length placed.now.nodes }
{
    match node {
        Some(node) => node,
        None => placed.nodes() - 1,
    }
}

/// Puts a drawing last, as Graphviz reads it: of a node of a program, by its number from 0, or of main where none is given, with a box
/// for each of its places, a cluster for each call, and an edge for all that a place reads; or, where it is flat, of the whole program's
/// net, with a box for each actor, a cluster for each instance of a node, and an edge for each ring.
///
/// The tree is that of the program's text: it tells how operators of the host are named.
pub fn put_net(
    alloc: Global,
    program: &Program,
    accepted: &Accepted,
    node: Option<u32>,
    flat: bool,
    out: &mut Vec<u8>,
) -> Result<(), AllocError>
    requires accepted { (ops : List Operator) × (o : Choices) × (text : List ℕ) × IsAccepted ops o text accepted.now }
    requires node { IfSome node (λ n. n < length accepted.now.placed.nodes) }
    ensures node { (n : Node) → flat ≡ false → slice_get accepted.now.placed.nodes (unwrap_or node (length accepted.now.placed.nodes - 1)) ≡ Some n →
        OnOk result (PutsNode (program_tree program.now) accepted.now (unwrap_or node (length accepted.now.placed.nodes - 1)) n
        out.old.items out.new.items) }
    ensures flat { (n : Node) → flat ≡ true → slice_get accepted.now.placed.nodes (length accepted.now.placed.nodes - 1) ≡ Some n →
        OnOk result (out.new.items ≡ out.old.items
        ++ net_text (program_tree program.now) accepted.now n.name.text) }
{
    if flat {
        return put_program(alloc, program, accepted, out);
    }
    let number = drawn_node(&accepted.placed, node);
    put_node(alloc, program, accepted, number, out)
}
