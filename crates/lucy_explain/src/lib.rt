//! Refusals for people: why a program is refused, with the text of what the evidence names, chains of inequalities told as one line,
//! and what helps; and why a buffer of an accepted program is as full as it is. What is told is data whose contracts say what it is: a
//! folded line follows from the inequalities that it stands for, and has the same sum; no clocks of a shape have a position earlier than a
//! chain says. Printing is another layer of modules, which is safe and tested.
//!
//! It stands on `lucy_front`, which accepts programs, and on `lucy_picture`, which finds places in texts. Begin with `explain` in
//! `explaining.rt`; then with `fold_evidence` in `fold.rt`, `specs/Folds.antt`, which says what a folded line stands for, and the laws of `laws.rt`.
//! `specs/Streams.antt` says which clocks are one stream. Of buffers tells `why` in `fullness.rt`: begin with `reason_for` in `reason.rt` and
//! `specs/Chains.antt`, which says what a chain is, and with `waits_of` in `waits.rt` and `specs/Waits.antt`. Below `tell` stands what only
//! prints.
#![tactic(auto)]

mod chain;
mod explaining;
mod fold;
mod fullness;
mod index;
mod laws;
mod line;
mod reason;
mod shaping;
mod spans;
mod streams;
mod tell;
mod variables;
mod waits;

pub use chain::{chain_to, chains_are_least};
pub use explaining::{Explained, explain};
pub use fold::{Folded, fold_chain, fold_evidence};
pub use fullness::{Filling, why};
pub use laws::lines_follow;
pub use line::Line;
pub use reason::{Reason, reason_for, reasons_are_least};
pub use waits::waits_of;
