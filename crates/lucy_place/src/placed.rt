// Programs as numbered places.
ghost use Rattle.std.specs.Prelude.{◌≡◌, ◌<◌, ◌≤◌, ◌↔◌, length, slice_get, take, IsTrue, Some, None};
ghost use Rattle.lucy_word.specs.Limits.{limit_number};
ghost use Rattle.lucy_word.specs.declared.limit.Limit.TheVariants as limit;
ghost use Rattle.lucy_place.specs.Proper.{IsProperNode, AreProper};
ghost use Rattle.lucy_place.specs.WrittenNodes.{IsWritten, TellWritten};

use crate::lists::{Bounds, Calls, Numbers, Places};
use lucy_tree::{Name, Span};
use std::marker::Model;

/// A node: its name, how many of its places are parameters, its places, the places of its results, those of its buffers with
/// their written bounds, and its calls.
#[derive(Drop)]
pub struct PlacedNode {
    pub name: Name,
    pub params: u32,
    pub places: Places,
    pub results: Numbers,
    pub buffers: Numbers,
    pub bounds: Bounds,
    pub calls: Calls,
}

/// A program whose names are good, as numbered places. Nodes count from 0. Contracts see the list of its nodes, and for each the
/// first span that keeps it from being written.
#[derive(Drop)]
pub struct Placed {
    list: Vec<PlacedNode>,
    spans: Vec<Option<Span>>,
}

impl Model for Placed {
    ghost use Rattle.std.specs.Prelude.{◌≡◌, ◌<◌, ◌≤◌, ◌^◌, length};
    ghost use Rattle.lucy_word.specs.Limits.{limit_number};
    ghost use Rattle.lucy_word.specs.declared.limit.Limit.TheVariants as limit;
    ghost use Rattle.lucy_place.specs.PlacedProgram.{PlacedProgram};
    ghost use Rattle.lucy_place.specs.Proper.{AreProper};
    ghost use Rattle.lucy_place.specs.WrittenNodes.{TellWritten};

    ghost Value = { PlacedProgram };

    ghost view = { λ placed. record { nodes = placed.list.items; unwritten = placed.spans.items } };

    ghost invariant = { λ placed. (length placed.spans.items ≡ length placed.list.items) × (0 < length placed.list.items) × (length placed.list.items < 2 ^ 32) × (length placed.list.items ≤ limit_number limit.Nodes) × AreProper placed.list.items × TellWritten placed.list.items placed.spans.items };
}

impl Placed {
    /// The program of these nodes, and for each the first span that keeps it from being written.
    pub fn new(list: Vec<PlacedNode>, spans: Vec<Option<Span>>) -> Placed
        requires count { length spans.items ≡ length list.items }
        requires some { 0 < length list.items }
        requires few { length list.items ≤ limit_number limit.Nodes }
        requires proper { AreProper list.items }
        requires written { TellWritten list.items spans.items }
        ensures nodes { result.nodes ≡ list.items }
        ensures unwritten { result.unwritten ≡ spans.items }
    {
        Placed { list, spans }
    }

    /// How many nodes there are: at least one, and no more than `Limit::Nodes`. What holds of each is said here of all at once.
    pub fn nodes(&self) -> u32
        ensures count { result ≡ length self.now.nodes }
        ensures some { 0 < result }
        ensures few { result ≤ limit_number limit.Nodes }
        ensures proper { AreProper self.now.nodes }
        ensures written { TellWritten self.now.nodes self.now.unwritten }
    {
        self.list.len() as u32
    }

    /// The node of a number. The numbers in it name places, buffers and calls of the node, and nodes above it.
    pub fn node(&self, node: u32) -> &PlacedNode
        requires { node < length self.now.nodes }
        ensures is { slice_get self.now.nodes node ≡ Some result.now }
        ensures proper { IsProperNode (take node self.now.nodes) result.now }
    {
        &self.list[node as usize]
    }

    /// Whether the node is written: each parameter, each defined name and each call has its word, and each operand of
    /// `when`, `whenot` and `buffer` and each argument of a call is a name.
    pub fn is_written(&self, node: u32) -> bool
        requires { node < length self.now.nodes }
        ensures is { IsTrue result ↔ (slice_get self.now.unwritten node ≡ Some None) }
        ensures tables { (n : PlacedNode) → slice_get self.now.nodes node ≡ Some n → IsTrue result ↔ IsWritten n }
    {
        self.first_unwritten(node).is_none()
    }

    /// The first span that keeps the node from being written, in order of the text: of a parameter, a defined name or a call
    /// without its word, or of an operand or an argument that should be a name. None, where the node is written.
    pub fn first_unwritten(&self, node: u32) -> Option<Span>
        requires { node < length self.now.nodes }
        ensures is { slice_get self.now.unwritten node ≡ Some result }
        ensures tables { (n : PlacedNode) → slice_get self.now.nodes node ≡ Some n → (result ≡ None) ↔ IsWritten n }
    {
        self.spans[node as usize]
    }
}
