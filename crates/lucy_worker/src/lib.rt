//! The actors of one thread, and the turn that moves them.
//!
//! A move is one operation of an actor: it takes an item from a ring or gives one. A pass goes over the actors of a worker and moves each as
//! long as it can. A turn is passes until one moves nothing, and a round is what workers do between two meetings of the ends of rings.
//!
//! It stands on `lucy_net` and `lucy_ring`. Begin with `Worker` in `worker.rt` and with `specs/Parts.antt` and
//! `specs/Turns.antt`, which say where a part stands and what a turn does to it; `specs/Rounds.antt` says how the parts of all
//! workers make a state of the net.
#![tactic(auto)]

mod ends;
mod gate;
mod growing;
mod heading;
mod part;
mod passing;
mod place;
mod round;
mod within;
mod worker;

pub use ends::ends_are_kept;
pub use gate::{Gate, OpenGate};
pub use heading::Heading;
pub use part::Part;
pub use place::EndPlace;
pub use round::rounds_are_runs;
pub use worker::{Worker, meet_between};
