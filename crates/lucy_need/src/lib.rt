//! Needs: what the clocks of a node have to be to each other, as equations and adaptabilities between terms.
//!
//! It stands on `lucy_word`, and knows nothing of nodes. Begin with `specs/Meeting.antt`, which says when an assignment of
//! words to clocks meets a need; the laws of `laws.rt` say what this comes to for the needs that the clock rules have.
#![tactic(auto)]

mod base;
mod laws;
mod need;

pub use base::always;
pub use laws::{needs_are_of_bits, plain_needs};
pub use need::{Need, NeedList, Needs, Term, needs_have_words};
