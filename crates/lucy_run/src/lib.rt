//! A program run from its input to its output lines: what the commands `run`, `kahn`, `trace` and `replay` do with an accepted program, a
//! source and a sink.
//!
//! It stands on `lucy_front` for accepted programs and their report, on `lucy_lines` for the items of the input and the lines of the
//! results, on `lucy_results` for the streams of the results and on `lucy_trace` for the lines of a trace. `course.rt` takes the
//! input and the program through the blocks of a run, whatever becomes of the results. Begin with `specs/Owes.antt`, which says what
//! stands on the output and how a run ends, and with `run` in `running.rt`.
#![tactic(auto)]

mod copying;
mod course;
mod ending;
mod engine;
mod extent;
mod feeding;
mod horizons;
mod interpreting;
mod laws;
mod pace;
mod playing;
mod replaying;
mod running;
mod tracing;

pub use copying::copy_net;
pub use course::Course;
pub use ending::Ending;
pub use engine::{ClosureEngine, Engine};
pub use extent::{Extent, extent_of};
pub use feeding::main_feed;
pub use interpreting::kahn;
pub use laws::{
    faultless_runs_are_done, one_interpretation, one_replay, one_run, one_trace,
    runs_print_what_kahn_prints, traces_are_replayed,
};
pub use pace::Pace;
pub use playing::run_by;
pub use replaying::replay;
pub use running::run;
pub use tracing::trace;
