// The calls of a node as they are drawn.
ghost use Rattle.std.specs.Prelude.{ℕ, ◌≡◌, ◌<◌, ◌≤◌, ◌+◌, ◌∷◌, ◌++◌, [], Some, length, slice_get, take, IfOk, OnOk};
ghost use Rattle.lucy_place.specs.declared.placed.PlacedNode.{PlacedNode as Node};
ghost use Rattle.lucy_place.specs.Standing.{at_one};
ghost use Rattle.lucy_place.specs.Proper.{IsProperNode};
ghost use Rattle.lucy_diagram.specs.Diagrams.{IsDrawnCall, AreDrawnCalls};

use lucy_place::{CallSite, Placed, PlacedNode};
use std::alloc::{AllocError, Global};

/// A call: its number, from 1; the node that it calls, from 0; the clock of its base; the place of its first result, from 1, behind
/// which the others stand, and how many results it has.
#[derive(Clone, Copy)]
pub struct DrawnCall {
    pub number: u32,
    pub node: u32,
    pub base: u32,
    pub first: u32,
    pub results: u32,
}

// The call of a number from 0.
fn site_at(node: &PlacedNode, number: usize) -> &CallSite
    requires { number < length node.now.calls }
    ensures { at_one node.now.calls (number + 1) ≡ Some result.now }
{
    let sites = node.calls.list();
    &sites[number]
}

// How many results a node has.
fn results_of(placed: &Placed, node: u32) -> u32
    requires { node < length placed.now.nodes }
    ensures { (n : Node) → slice_get placed.now.nodes node ≡ Some n → result ≡ length n.results }
{
    placed.node(node).results.list().len() as u32
}

// The call of a number from 0, as it is drawn.
fn call_at(placed: &Placed, node: &PlacedNode, number: usize) -> DrawnCall
    requires proper { (i : ℕ) × IsProperNode (take i placed.now.nodes) node.now }
    requires number { number < length node.now.calls }
    ensures { IsDrawnCall placed.now.nodes node.now (number + 1) result }
{
    let site = site_at(node, number);
    let call = number as u32 + 1;
    DrawnCall {
        number: call,
        node: site.node,
        base: node.places.list().len() as u32 + call,
        first: site.first,
        results: results_of(placed, site.node),
    }
}

/// The calls of a node, in order.
pub(crate) fn calls(
    alloc: Global,
    placed: &Placed,
    node: &PlacedNode,
) -> Result<Vec<DrawnCall>, AllocError>
    requires { (i : ℕ) × IsProperNode (take i placed.now.nodes) node.now }
    ensures { IfOk result (λ v. AreDrawnCalls placed.now.nodes node.now v.items) }
{
    let mut calls = Vec::new(alloc);
    'each: for i in 0..node.calls.list().len() {
        calls.push(call_at(placed, node, i))?;
    }
    Ok(calls)
}

/// The call of a number from 0, of those that are drawn.
pub(crate) fn drawn_at(calls: &[DrawnCall], number: usize) -> &DrawnCall
    requires { number < length calls.now }
    ensures { slice_get calls.now number ≡ Some result.now }
{
    &calls[number]
}
