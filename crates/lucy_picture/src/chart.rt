// The chronogram of a node.
ghost use Rattle.std.specs.Prelude.{List, ℕ, ◌≡◌, ◌<◌, Some, length, map, slice_get, IfOk};
ghost use Rattle.lucy_host.specs.Operators.{Operator};
ghost use Rattle.lucy_place.specs.declared.placed.PlacedNode.{PlacedNode as Node};
ghost use Rattle.lucy_place.specs.Proper.{IsProperNode};
ghost use Rattle.lucy_need.specs.Meeting.{assigned};
ghost use Rattle.lucy_clock.specs.declared.node_clock.NodeClock.{NodeClock as Clock};
ghost use Rattle.lucy_program.specs.declared.options.Options.{Options as Choices};
ghost use Rattle.lucy_program.specs.Accepting.{IsAccepted};
ghost use Rattle.lucy_picture.specs.Charts.{chart_row, named_places, AreFills};
ghost use Rattle.lucy_picture.specs.Drawn.{IsDrawn};

use crate::fill::{Fill, fills};
use crate::named::named_places;
use crate::row::{Row, rows};
use crate::words::clocks_at;
use lucy_clock::NodeClock;
use lucy_place::PlacedNode;
use lucy_program::Accepted;
use std::alloc::{AllocError, Global};

/// A chronogram: the streams of a node, and its buffers, each in order, at the instants from 1 up to the same one.
#[derive(Drop)]
pub struct Chart {
    pub rows: Vec<Row>,
    pub fills: Vec<Fill>,
}

// That of a node with its clocks.
fn drawn(
    alloc: Global,
    node: &PlacedNode,
    clock: &NodeClock,
    shown: u64,
) -> Result<Chart, AllocError>
    requires proper { (above : List Node) × IsProperNode above node.now }
    requires drawn { IsDrawn node.now clock.now }
    ensures rows { IfOk result (λ t. t.rows.items ≡ map (chart_row (assigned clock.now.words) shown) (named_places node.now)) }
    ensures fills { IfOk result (λ t. AreFills node.now clock.now shown t.fills.items) }
{
    let places = named_places(alloc, node)?;
    let rows = rows(alloc, clock.words.list(), &places, shown)?;
    let fills = fills(alloc, node, clock, shown)?;
    Ok(Chart { rows, fills })
}

/// The chronogram of a node of an accepted program, by its number from 0, at so many instants.
pub fn chart_of(
    alloc: Global,
    accepted: &Accepted,
    node: u32,
    shown: u64,
) -> Result<Chart, AllocError>
    requires accepted { (ops : List Operator) × (o : Choices) × (text : List ℕ) × IsAccepted ops o text accepted.now }
    requires node { node < length accepted.now.placed.nodes }
    ensures rows { (n : Node) (c : Clock) → slice_get accepted.now.placed.nodes node ≡ Some n →
        slice_get accepted.now.clocks.items node ≡ Some c → IfOk result (λ t. t.rows.items ≡ map (chart_row (assigned c.words) shown) (named_places n)) }
    ensures fills { (n : Node) (c : Clock) → slice_get accepted.now.placed.nodes node ≡ Some n →
        slice_get accepted.now.clocks.items node ≡ Some c → IfOk result (λ t. AreFills n c shown t.fills.items) }
{
    let clock = clocks_at(&accepted.clocks, node);
    drawn(alloc, accepted.placed.node(node), clock, shown)
}
