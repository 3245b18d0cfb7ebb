//! Every interleaving of an accepted program: whatever events of its net happen, in whatever order they are possible, no ring ever
//! holds more than the printed size of its buffer and one item, all values are those of the program's Kahn streams, and nothing
//! unfinished is stuck.
//!
//! It stands on `lucy_front`, which says what a text is accepted as, and on the theory of events. It has no code: the body of each
//! public function is empty, or calls laws alone, and its contract is a law. Begin with `specs/Interleavings.antt`; `specs/Runners.antt`
//! says it of a runner and of its rings themselves, and `specs/Wholeness.antt` that the streams have every item and that no line is missing.
#![tactic(auto)]

mod laws;

pub use laws::{
    every_interleaving_is_safe, every_state_is_safe, runners_are_safe, streams_have_every_item,
};
