//! What the words of `lucy_view` ask for, as `clap` reads them.
//!
//! Begin with `read` in `words.rt`, and with what it gives, `Ask` in `ask.rt`. What it promises is in `specs/`: `CommandLine` says what `clap`
//! is told, and `Asks` what the words ask for. What the help says, the rows of `lucy_view` test.
#![tactic(auto)]

mod ask;
mod commands;
mod name;
mod told;
mod words;

pub use ask::{
    Ask, FileWords, NetWords, PageWords, Picture, Sought, TimeWords, WaveWords, WhereWords,
    WhyWords,
};
pub use name::Name;
pub use words::read;
