//! Free threads: `run` with workers that make no rounds. Each moves its actors until all are done; where none can move it parks, and
//! where one has moved it wakes the others.
//!
//! It stands on `lucy_app` for the call that an engine is handed to, on `lucy_results` for the streams by the flat net and on
//! `lucy_worker` for a turn. Begin with `lucy_free` in `top.rt`; `working.rt` has the loop of a worker. Nothing promises that it returns.
#![tactic(auto)]

mod playing;
mod resting;
mod top;
mod working;

pub use top::lucy_free;
