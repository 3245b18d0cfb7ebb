//! The fields of a text: what stands between blanks, each with the offset of its first byte; and numbers in decimal digits.
//!
//! It stands on nothing. Begin with `Fields` in `fields.rt` and with `specs/Fields.antt`, which says what the fields of a text are.
#![tactic(auto)]

mod fields;
mod numbers;

pub use fields::{Fields, is_blank};
pub use numbers::{int, number};
