//! The clock rules of a node: when an assignment of words keeps them, the needs that say the same, and the words that a
//! written node hands down to its places.
//!
//! It stands on the placed nodes of `lucy_place` and the needs of `lucy_need`. Begin with `specs/WellClocked.antt`, which says
//! what the rules are, `specs/Listing.antt`, the list of a node's needs, and the laws of `laws.rt`. Then `specs/HandedDown.antt`
//! says which words a written node hands down; the calls are `needs` in `node_needs.rt` and `written` in `written_words.rt`. What
//! the callers of a node need of its clocks is made in `callers.rt`.
//!
//! Needs are first listed with words that are lent (`draft.rt`, `listing.rt`), and copied once they are known to be few. The
//! words of a written node are made in the order of its places (`words.rt`), each by the place that reads it (`reading.rt`). Once
//! they have too many bits, only those are made that a merge asks for.
#![tactic(auto)]

mod bits;
mod callers;
mod draft;
mod error;
mod handing;
mod laws;
mod listing;
mod node_clock;
mod node_needs;
mod reading;
mod side;
mod signature;
mod words;
mod written_words;

pub use callers::{ports, signatures};
pub use error::ClockError;
pub use handing::{is_too_long, test_handed};
pub use laws::{needs_are_the_rules, written_nodes_have_one};
pub use node_clock::{NodeClock, Numbers64};
pub use node_needs::needs;
pub use signature::{Signature, Words};
pub use written_words::written;
