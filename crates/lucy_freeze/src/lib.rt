//! A program with its clocks written out: the text in which each parameter, each defined name and the base of each call has the word that was
//! found, and each operand that needs one a name. It is accepted again, and compared: its nodes have the same places, calls, words, sizes and
//! bounds, at other numbers.
//!
//! It stands on `lucy_front`, which accepts programs. Begin with `freeze` in `freezing.rt`, and with `specs/Frozen.antt`, which says when a
//! program is another one with its clocks written out, and `specs/Freezing.antt`. The comparison is `program.rt`, `node.rt` and `same.rt`, by
//! images that `find.rt` looks for. Below `text` stands what makes the text: it is safe, and its result is compared each time.
#![tactic(auto)]

mod error;
mod find;
mod freezing;
mod images;
mod laws;
mod node;
mod program;
mod same;
mod text;

pub use error::FreezeError;
pub use freezing::{Frozen, freeze};
pub use laws::frozen_programs_mean_the_same;
