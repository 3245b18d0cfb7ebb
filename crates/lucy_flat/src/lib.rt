//! Flattening: the flat net of a program, whose nodes have words that keep their clock rules.
//!
//! It stands on the placed nodes of `lucy_place`, their clocks of `lucy_clock`, the instance places of `lucy_kahn` and the
//! nets of `lucy_net`. Begin with `specs/Flat.antt`, which says what the flat net of a program is, and with `flatten` in
//! `flattening.rt`. `laws.rt` has what holds of every flat net: its iterates are the program's, it is causal exactly where the
//! program is, it is the only one, and it is as large as its program says.
//!
//! First the net is counted (`extent.rt`), so that nothing is built past a limit. Then each instance in order puts the drafts of
//! its actors (`instance.rt`, by a recursion on nodes), and the drafts are assembled to actors and rings (`assemble.rt`). Of
//! drafts and of rings no more are in memory than Bits allows (`kept.rt`, `held.rt`). Past it none is made: that no word of them
//! is too long is told by lengths alone, but for merges (`words.rt`), and of calls alike that follow one another it is asked once.
#![tactic(auto)]

mod assemble;
mod draft;
mod error;
mod extent;
mod flattening;
mod held;
mod instance;
mod kept;
mod laws;
mod words;

pub use error::FlatError;
pub use flattening::flatten;
pub use laws::{
    flat_nets_are_causal_as_programs, flat_nets_are_counted, flat_nets_iterate_as_programs,
    programs_have_one_flat_net,
};
