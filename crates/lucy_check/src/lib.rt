//! The checker: whether words meet needs, how many items wait in each buffer, and what is wrong with the first need that they
//! don't meet. It knows nothing of nodes, nor of where the needs or the words come from.
//!
//! It stands on `lucy_word` and the needs of `lucy_need`, and has two parts. How two words stand to each other, whether the items
//! of one may feed the other through a buffer and how many wait there at most, whether one precedes the other, and where their
//! bits first differ, without any memory: begin with `adapt` in `verdict.rt`; `walked.rt` looks at leads instant by instant, and
//! `classes.rt` in time linear in the lengths of the words. The checker, which walks through the needs: begin with `check` in
//! `checking.rt`. Of the definitions begin with `specs/Verdicts.antt` and `specs/Passing.antt`.
#![tactic(auto)]

mod checking;
mod classes;
mod difference;
mod fault;
mod horizon;
mod lead;
mod need;
mod rate;
mod turns;
mod verdict;
mod walked;

pub use checking::check;
pub use difference::first_difference;
pub use fault::CheckFault;
pub use horizon::horizon_of;
pub use lead::precedes;
pub use rate::same_rate;
pub use verdict::{Verdict, adapt};
