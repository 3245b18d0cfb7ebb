//! A flat net run by workers on threads, in rounds: a turn of every worker, each on a thread of its own; then passes of one thread along a
//! route over all actors; and then a meeting of the two ends of every ring. What moves, passes and turns are is said in `lucy_worker`.
//!
//! It stands on `lucy_core`, whose states it goes through, and on `lucy_worker`. Begin with `Runner` in `runner.rt` and with
//! `specs/Views.antt`, which says what a contract sees of it.
#![tactic(auto)]

mod beginning;
mod growing;
mod joining;
mod making;
mod meeting;
mod outputs;
mod place;
mod route;
mod runner;
mod seat;
mod sitting;

pub use runner::Runner;
pub use seat::Seat;
