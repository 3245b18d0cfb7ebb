//! A bounded ring of 64-bit numbers with two ends, which may be used in two threads.
//!
//! It stands on `rtrb`. Begin with `give` in `giver.rt`, `take` in `taker.rt` and `meet` in `meeting.rt`, and with
//! `specs/Views.antt`, which says what a contract sees of an end.
#![tactic(auto)]

mod giver;
mod giver_end;
mod making;
mod meeting;
mod taker;
mod taker_end;

pub use giver::Giver;
pub use making::ring;
pub use meeting::meet;
pub use std::alloc::AllocError as OutOfMemory;
pub use taker::Taker;
