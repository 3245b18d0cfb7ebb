//! Logs of a net's events: which events a text names, whether they are a run, which events lead from one state to another, and how
//! events are printed; and traces of runs: the rounds of a runner as lines of events, which leave while it runs.
//!
//! It stands on `lucy_core`, whose machine does the events, on `lucy_runner`, whose rounds are traced, and on `lucy_fields`. Begin
//! with `replay` in `replaying.rt`; what a log is stands in `specs/Logs.antt`. Then `trace` in `following.rt` follows a runner.
#![tactic(auto)]

mod catching;
mod error;
mod following;
mod log;
mod replaying;
mod rounds;
mod tracing;

pub use catching::catch_up;
pub use error::TraceError;
pub use following::trace;
pub use log::read_log;
pub use replaying::replay;
pub use tracing::{line_of, traces_are_logs};
