//! The program `lucy_view`: what its words ask for, and the pictures that it prints of a program.
//!
//! It stands on `lucy_picture`, `lucy_svg`, `lucy_graphviz`, `lucy_wave`, `lucy_page`, `lucy_explain` and `lucy_freeze`, which say what is
//! shown, on `lucy_asking` for the words, and on `lucy_app` for devices, answers and how a run ends. Begin with `look` in `looking.rt`. What
//! it promises is in `specs/`: `Meets` says what the call meets, `Shown` which pictures are printed, `Owes` which answer is owed, by what was
//! met, and `Looks` how the call ends.
#![tactic(auto)]

mod charts;
mod explains;
mod failure;
mod freezes;
mod looking;
mod missing;
mod nets;
mod pages;
mod pictures;
mod places;
mod program;
mod shown;
mod telling;
mod waves;
mod whys;

pub use looking::look;
pub use missing::Missing;
