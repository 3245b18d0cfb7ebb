//! The earliest solution of a system of inequalities `left <= right + most`, or a cycle of them that shows there is none.
//!
//! It stands on `lucy_word` for the limit of inequalities. Begin with `solve` in `solver.rt` and with `specs/System.antt`, which says what a solution
//! is, which one is the earliest, and what a negative cycle is.
#![tactic(auto)]

mod climb;
mod confirm;
mod cycle;
mod diffs;
mod flow;
mod lift;
mod moved;
mod order;
mod pass;
mod solver;
mod sweep;

pub use confirm::confirm_cycle;
pub use diffs::{Diff, Diffs};
pub use solver::{Outcome, solve};
pub use std::alloc::AllocError as OutOfMemory;
