//! That what `run` prints is right, as one statement to be read from its beginning to its end; and what `check` and `clocks` accept.
//!
//! It stands on what the crates below say of texts, names, types, clocks and streams, and leaves out what they say of limits, refusals and
//! devices. It has no code: the body of each public function is empty, or calls laws alone, and its contract is a law. Begin with
//! `specs/Names.antt`, and `specs/Places.antt` of `lucy_naming`, then `specs/Right.antt`; `specs/Accepted.antt` says what is accepted.
#![tactic(auto)]

mod laws;

pub use laws::{
    accepted_nodes_are_written, accepted_programs_stand, chosen_clocks_are_one,
    found_clocks_are_earliest, names_are_good, owed_outputs_are_runs, written_programs_pass,
    written_programs_stand_for_one,
};
