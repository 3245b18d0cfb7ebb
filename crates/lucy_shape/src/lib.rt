//! The shape of inferred clocks: what it asks of words, the inequalities that needs come to in it, and the words of positions
//! that solve them.
//!
//! It stands on the needs of `lucy_need` and on the inequalities of `lucy_solve`. Begin with `Shape` in `shape.rt` and with
//! `specs/Fitting.antt`, which says which assignments of words fit a shape and which shapes carry needs. Then
//! `specs/Inequalities.antt` is the table of inequalities that `spread` gives, `specs/Writing.antt` says which words `words_of`
//! gives, and `specs/Laws.antt` that words that fit meet the needs exactly where their positions solve the table.
//! `specs/Sized.antt` has the table of `spread_sized`, which bounds what waits in one buffer besides.
#![tactic(auto)]

mod clocks;
mod instances;
mod laws;
mod marking;
mod positions;
mod rows;
mod shape;
mod sizing;
mod spreading;
mod words;

pub use laws::{index_laws, shape_laws, size_laws};
pub use shape::{ClockShape, ClockShapes, RateFault, Shape};
pub use spreading::{spread, spread_sized};
pub use words::words_of;
