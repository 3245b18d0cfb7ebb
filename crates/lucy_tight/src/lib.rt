//! The least size of one buffer of an accepted program that any clocks of its node's shape reach, the earliest clocks with it, why
//! one less is too small, and what is printed of them.
//!
//! It stands on `lucy_front`, which accepts programs, on `lucy_shape`, whose `spread_sized` has the inequalities of a size, and on
//! `lucy_solve`. Begin with `tighten` in `tightening.rt` and with `specs/Least.antt` and `specs/Tightening.antt`, which say what
//! it answers; `report.rt` prints it, and `laws.rt` says that there is one answer. Between two clocks of a shape it is `least_size`
//! of `finding.rt` that finds the least size.
#![tactic(auto)]

mod answer;
mod finding;
mod laws;
mod measuring;
mod report;
mod search;
mod shaping;
mod sizes;
mod spot;
mod tightening;

pub use answer::{Least, TightError, Tightest};
pub use finding::least_size;
pub use laws::one_tightest;
pub use report::{report_fixed, report_tight};
pub use tightening::tighten;
