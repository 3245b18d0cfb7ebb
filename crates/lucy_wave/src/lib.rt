//! A run of a program as a value change dump (IEEE 1364), which wave viewers open: for each stream of main a bit that tells whether it has an
//! item, with the items, and how many items wait in each of its buffers, at each instant.
//!
//! It stands on `lucy_run` for what a run is fed and how it ends, on `lucy_core` for the streams and on `lucy_front` for accepted
//! programs. Begin with `wave` in `waving.rt`, with `specs/Dumps.antt` and `specs/Reading.antt`, which say what a dump is and what it says,
//! and with the law of `laws.rt` that a dump, read back, says the lines that `run` prints.
#![tactic(auto)]

mod dumping;
mod gathering;
mod laws;
mod naming;
mod playing;
mod variable;
mod watching;
mod waving;

pub use laws::{names_are_distinct, one_count, one_reading, one_wave, waves_are_read_back};
pub use waving::wave;
