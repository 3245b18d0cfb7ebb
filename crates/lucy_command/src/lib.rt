//! The command line: which command a list of words names, with which values.
//!
//! It stands on `lucy_word` for limits, on `lucy_fields` for numbers, on `lucy_token` for what a name is, and on `clap`. Begin with `specs/Commands.antt`, which
//! says it of every list of words, and with `read` in `reading.rt`. The words are judged first, by a fold of our own over them that
//! takes no memory (`folding.rt`); the texts that it finds are then spelled as one canonical list, which `clap` reads
//! (`spelling.rt` and `matching.rt`).
#![tactic(auto)]

mod command;
mod folding;
mod matching;
mod names;
mod numbers;
mod reading;
mod spelling;
mod texts;
mod words;

pub use command::Command;
pub use reading::read;
pub use words::{
    ClocksWords, KahnWords, MakeWords, ReplayWords, RunWords, TightenWords, TraceWords,
    block_or_default,
};
