//! The command `make`: a program of so many stages and its input, generated, and the figures of their run.
//!
//! It stands on `lucy_run` for the course of a program from block to block, and tells of it what main's first result has.
//! Begin with `specs/Text.antt` for the program and the input, and with `specs/Figures.antt` for what is told of the run; which run
//! that is, and how it ends, says `specs/Owes.antt` in the words of `lucy_run`.
#![tactic(auto)]

mod blocks;
mod figures;
mod input;
mod laws;
mod summing;
mod text;

pub use laws::summaries_end_as_runs;
pub use summing::summary;
pub use text::made_text;
