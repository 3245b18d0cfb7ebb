// What is drawn of a node.
ghost use Rattle.std.specs.Prelude.{List, ℕ, ◌≡◌, ◌<◌, Some, length, map, slice_get, IfOk};
ghost use Rattle.lucy_host.specs.Operators.{Operator};
ghost use Rattle.lucy_place.specs.declared.placed.PlacedNode.{PlacedNode as Node};
ghost use Rattle.lucy_need.specs.Meeting.{assigned};
ghost use Rattle.lucy_clock.specs.declared.node_clock.NodeClock.{NodeClock as Clock};
ghost use Rattle.lucy_program.specs.declared.options.Options.{Options as Choices};
ghost use Rattle.lucy_program.specs.Accepting.{IsAccepted};
ghost use Rattle.lucy_picture.specs.Charts.{chart_row, named_places, AreFills};
ghost use Rattle.lucy_svg.specs.Flows.{AreFlows};

use crate::flow::{Flow, flows};
use lucy_picture::{Chart, chart_of};
use lucy_program::Accepted;
use std::alloc::{AllocError, Global};

/// What is drawn of a node: its chronogram, and how items go through each of its buffers, in order.
#[derive(Drop)]
pub struct Drawing {
    pub chart: Chart,
    pub flows: Vec<Flow>,
}

/// What is drawn of a node of an accepted program, by its number from 0, at so many instants.
pub fn drawing_of(
    alloc: Global,
    accepted: &Accepted,
    node: u32,
    shown: u64,
) -> Result<Drawing, AllocError>
    requires accepted { (ops : List Operator) × (o : Choices) × (text : List ℕ) × IsAccepted ops o text accepted.now }
    requires node { node < length accepted.now.placed.nodes }
    ensures rows { (n : Node) (c : Clock) → slice_get accepted.now.placed.nodes node ≡ Some n →
        slice_get accepted.now.clocks.items node ≡ Some c → IfOk result (λ d. d.chart.rows.items ≡ map (chart_row (assigned c.words) shown) (named_places n)) }
    ensures fills { (n : Node) (c : Clock) → slice_get accepted.now.placed.nodes node ≡ Some n →
        slice_get accepted.now.clocks.items node ≡ Some c → IfOk result (λ d. AreFills n c shown d.chart.fills.items) }
    ensures flows { (n : Node) (c : Clock) → slice_get accepted.now.placed.nodes node ≡ Some n →
        slice_get accepted.now.clocks.items node ≡ Some c → IfOk result (λ d. AreFlows c shown d.chart.fills.items d.flows.items) }
{
    let chart = chart_of(alloc, accepted, node, shown)?;
    let flows = flows(alloc, &chart.fills)?;
    Ok(Drawing { chart, flows })
}
