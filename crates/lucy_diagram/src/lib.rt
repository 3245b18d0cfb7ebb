//! What feeds what in a program, as data whose contracts say what they are: the places of a node, which place reads which, its buffers
//! and its calls; what stands at a place, as text; and the layers in which a page sets places down.
//!
//! It stands on `lucy_program`, which says what is accepted, and on `lucy_picture`, which prints what stands at a place. Begin with
//! `diagram_of` in `diagram.rt` and with `specs/Diagrams.antt`; for texts with `put_text` in `text.rt` and `specs/Labels.antt`; for layers
//! with `layers_of` in `layers.rt` and `specs/Layers.antt`.
#![tactic(auto)]

mod buffer;
mod call;
mod diagram;
mod edge;
mod layers;
mod place;
mod text;

pub use buffer::DrawnBuffer;
pub use call::DrawnCall;
pub use diagram::{Diagram, diagram_of};
pub use edge::Edge;
pub use layers::{layers_are_determined, layers_of};
pub use place::{DrawnPlace, Figure, places};
pub use text::{entry_at, put_name, put_text, put_there, result_of};
