//! What an accepted program is, and its report.
//!
//! It stands on what the phases say of a text: `lucy_grammar`, `lucy_place`, `lucy_types`, `lucy_clock`, `lucy_inference`, `lucy_flat`
//! and `lucy_net`. `lucy_front` accepts a text, or says why not. Begin with `specs/Inferring.antt`, `specs/Clocked.antt`,
//! `specs/Scheduled.antt` and `specs/Accepting.antt`; `laws.rt` has what holds of every accepted program.
#![tactic(auto)]

mod accepted;
mod laws;
mod names;
mod options;
mod printing;

pub use accepted::Accepted;
pub use laws::accepted_programs_are_clocked;
pub use names::{bytes, node_line, number, param_places, place_name, place_names};
pub use options::Options;
pub use printing::{first_operand, report, report_node, type_name};
