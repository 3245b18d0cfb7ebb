//! The names of a program: each is good, and then its places are numbered, or the first that isn't is told.
//!
//! It stands on the trees of `lucy_tree` and makes the tables of `lucy_place`. Begin with `place` in `placing.rt` and
//! `specs/Placing.antt`. `specs/Places.antt` says which places a program has, `specs/Faults.antt` what is wrong with names, and
//! `specs/Written.antt` when a node is written; they see an expression as a head with operands, `specs/Phrases.antt`.
//! `specs/Numbering.antt` and `specs/Nodes.antt` say how the code numbers places, for its proofs alone.
#![tactic(auto)]

mod bounds;
mod draft;
mod error;
mod faults;
mod hash;
mod laws;
mod names;
mod nodes;
mod numbering;
mod placing;
mod room;
mod scope;
mod steps;
mod streams;
mod unwritten;

pub use error::NameError;
pub use laws::nodes_are_one;
pub use placing::place;
