//! Pins: public clauses of other crates, repeated on small callers, so that one that says less than before fails here.
//!
//! A pin makes one call of another crate, and its contract is that of the call, clause by clause and over the same definitions. Where a
//! clause of the call goes or is weakened, or the call asks for more, the pin isn't proved any more. It doesn't see a definition that says
//! less than before, since then the clause and its pin weaken alike, and it judges no body: the crate of the call proves that. Where a
//! contract is meant to change, its pin changes with it.
//!
//! Each crate of which the gate tries no wrong bodies has a module here, named as the crate or as a part of it, and nothing stands on this one; `lucy_views`,
//! which stands on nearly all, is pinned where its rows are. Clauses that users rest on are pinned; what only gives back what a value holds,
//! and laws that serve the proofs of other crates alone, aren't.
#![tactic(auto)]

pub mod asking;
pub mod command;
pub mod diagram;
pub mod explain;
pub mod feed;
pub mod fields;
pub mod flat;
pub mod freeze;
pub mod front;
pub mod grammar;
pub mod graphviz;
pub mod interleaving;
pub mod kahn;
pub mod lines;
pub mod make;
pub mod meaning;
pub mod need;
pub mod output;
pub mod page;
pub mod picture;
pub mod place;
pub mod program;
pub mod rates;
pub mod right;
pub mod ring;
pub mod shape;
pub mod stream;
pub mod svg;
pub mod syntax;
pub mod token;
pub mod tree;
pub mod types;
pub mod wave;
