//! All that the program does, over a shelf, a source and sinks that are handed in: one call, with a status as its answer.
//!
//! It stands on `lucy_word`, `lucy_host`, `lucy_check`, `lucy_text`, `lucy_syntax`, `lucy_place`, `lucy_types`, `lucy_front`,
//! `lucy_command`, `lucy_lines`, `lucy_trace`, `lucy_run`, `lucy_right`, `lucy_make` and `lucy_tight`. Begin with `lucy` in `top.rt`. What it promises is in
//! `specs/`: `Commands` says what the commands that `lucy_command` reads call, `World` what a command is lent and meets, `Owes` which
//! answer it owes by that, with `Order`, `Show`, `Types`, `Check`, `Tighten`, `Running` and `Replaying` for what each prints and refuses, `Ends`
//! what it leaves, `Right` that what `run`, `check` and `clocks` leave is right, and `Complete` when it is done.
#![tactic(auto)]

mod accepting;
mod carrying;
mod check;
mod cut;
mod ending;
mod fetching;
mod input_refusal;
mod laws;
mod limit;
mod log;
mod looking;
mod making;
mod operators;
mod options;
mod order;
mod output;
mod playing;
mod refusal;
mod replaying;
mod report;
mod show;
mod tightening;
mod top;
mod tracing;
mod types;

pub use fetching::fetch;
pub use input_refusal::InputCause;
pub use laws::{
    checks_are_right, one_answer, one_output, runs_are_right, suited_commands_are_done,
    suited_plays_are_done, traces_suit,
};
pub use lucy_run::{ClosureEngine, Engine};
pub use operators::program_operators;
pub use options::inferring;
pub use output::{conclude, explain, print, tell};
pub use playing::run_with;
pub use refusal::program_status;
pub use tightening::node_named;
pub use top::lucy;
