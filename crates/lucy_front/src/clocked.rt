// A program with clocks.
use lucy_clock::NodeClock;
use lucy_place::Placed;
use lucy_types::Typed;

/// A program with clocks.
#[derive(Drop)]
pub(crate) struct Clocked {
    pub placed: Placed,
    pub typed: Typed,
    pub clocks: Vec<NodeClock>,
}
