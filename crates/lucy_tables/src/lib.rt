//! Lookup tables: operators of a program whose values come from files. One call reads the tables that words ask for and lends them,
//! beside the operators of `lucy_app`, to the command that the words behind name.
//!
//! It stands on `lucy_app`, and on `lucy_fields` for the text of a table. Begin with `lucy_table` in `top.rt` and with the definitions
//! that it is held to in the order of `specs/Lib.antt`.
#![tactic(auto)]

mod error;
mod laws;
mod lending;
mod loading;
mod names;
mod refusal;
mod table;
mod top;
mod words;

pub use error::TableError;
pub use laws::{texts_are_one_table, words_have_one_cut};
pub use table::read_table;
pub use top::lucy_table;
