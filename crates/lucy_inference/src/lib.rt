//! The clocks that are inferred for a node from its needs: the rates of the clocks give a shape, the shape inequalities, their
//! earliest solution the words, and the checker the sizes of the buffers.
//!
//! It stands on `lucy_rates`, `lucy_shape`, `lucy_solve` and `lucy_check`, and says in their words what comes of all of them.
//! Begin with `infer` in `inferring.rt` and with `specs/Earliest.antt`, which says which assignment is meant; then
//! `specs/Inference.antt`, `specs/Refusals.antt` and the laws of `laws.rt`.
#![tactic(auto)]

mod inferring;
mod laws;
mod refusal;

pub use inferring::{Inferred, infer};
pub use laws::{inference_meets, one_inference};
pub use refusal::Uninferred;
