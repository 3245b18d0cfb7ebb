//! Acceptance: what a program text comes to, phase by phase, or the first refusal, and the text of each refusal.
//!
//! It stands on all phases: `lucy_syntax`, `lucy_place`, `lucy_types`, `lucy_clock`, `lucy_check`, `lucy_inference`, `lucy_flat`
//! and `lucy_net`; what is accepted is a `lucy_program`. Begin with `accept` in `accepting.rt` and with `specs/Unclocked.antt`,
//! `specs/Unscheduled.antt` and `specs/Refusing.antt`; that a text has one answer stands in `specs/OneAnswer.antt`, with the laws
//! of `laws.rt`.
#![tactic(auto)]

mod accepting;
mod clocked;
mod clocking;
mod evidence;
mod fault;
mod items;
mod laws;
mod refusal;
mod scheduling;
mod streams;
mod terms;
mod texts;

pub use accepting::accept;
pub use evidence::cycle_text;
pub use fault::NodeFault;
pub use laws::{texts_have_one_answer, texts_have_one_program, texts_have_one_refusal};
pub use refusal::Refusal;
pub use texts::refusal_text;
