//! Results: the output streams of a program whose nodes have clocks, up to a horizon, in two ways.
//!
//! Begin with `specs/Streams.antt`, which says what the output streams are, by the meaning in `lucy_kahn` and the nodes' clocks alone. The
//! horizon that the items of the inputs allow is in `instants.rt`. `player.rt` runs the flat net of `lucy_flat` on the runner of
//! `lucy_runner`, from horizon to horizon, `turning.rt` once with the turns that a caller makes; `interpreting.rt` goes by the plain
//! interpreter of `lucy_kahn`. All answer what the one definition says. `taken.rt` asks what the outputs of a core took so far, and
//! `laws.rt` has what holds of these streams.
#![tactic(auto)]

mod clocks;
mod instants;
mod interpreting;
mod laws;
mod lists;
mod player;
mod taken;
mod turning;
mod workers;

pub use clocks::param_words;
pub use instants::{allows_more, horizon};
pub use interpreting::interpret;
pub use laws::{
    nets_can_be_run, places_are_whole, runs_lead_along_streams, streams_agree, streams_are_whole,
    streams_go_on, streams_need_no_more, two_ways_agree, whole_runs_lead_to_streams,
};
pub use lists::{copy_lists, lengths};
pub use player::Player;
pub use taken::outputs_so_far;
pub use turning::run_net_by_turns;
pub use workers::homes_of;
