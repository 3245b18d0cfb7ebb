//! The machine of a flat net on one thread: its actors take items from bounded rings and give items to them, one event after
//! another, in the order of a schedule or in any other that is possible.
//!
//! It stands on `lucy_net`. Begin with `Core` in `machine.rt` and with `specs/Seen.antt`, which says what a
//! contract sees of it.
#![tactic(auto)]

mod circle;
mod cursor;
mod ends;
mod laws;
mod machine;
mod making;
mod steps;
mod tray;

pub use laws::events_go_by_the_net;
pub use machine::{Core, CoreParts};
