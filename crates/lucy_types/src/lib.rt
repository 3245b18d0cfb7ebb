//! The data types of a program's places: int, bool, or open where the program fits both.
//!
//! It stands on the placed programs of `lucy_place`. Begin with `types` in `typing.rt` and with `specs/Rules.antt` and
//! `specs/Typing.antt`, which say what the rules of a node are and what its typings tell of a place. `specs/Clash.antt` says
//! what shows that a node has no typing, and `specs/Programs.antt` puts the nodes of a program together.
//!
//! A node's rules are gathered (`own.rt`, `calls.rt`), drawn as a graph of places (`graph.rt`), and flooded: first from the
//! places that a rule makes int, then from those that one makes bool, then from the others (`flood.rt`, `solve.rt`).
#![tactic(auto)]

mod calls;
mod error;
mod flood;
mod graph;
mod operators;
mod own;
mod path;
mod rule;
mod rules;
mod signature;
mod solve;
mod ty;
mod typed;
mod typing;

pub use error::TypeError;
pub use ty::Ty;
pub use typed::Typed;
pub use typing::types;
