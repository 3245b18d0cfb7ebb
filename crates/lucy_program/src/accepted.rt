// What a program text is accepted as.
use lucy_clock::NodeClock;
use lucy_lines::{InputSpec, OutputSpec};
use lucy_net::{Net, Schedule};
use lucy_place::Placed;
use lucy_types::Typed;

/// An accepted program: its places, their types, and the clocks of its nodes in order; its flat net and a sound schedule of
/// that; its inputs, one for each parameter of main, and its outputs, one for each result of main, in order.
#[derive(Drop)]
pub struct Accepted {
    pub placed: Placed,
    pub typed: Typed,
    pub clocks: Vec<NodeClock>,
    pub net: Net,
    pub schedule: Schedule,
    pub inputs: Vec<InputSpec>,
    pub outputs: Vec<OutputSpec>,
}
