//! The rates of inferred clocks, and the shape that they give.
//!
//! It stands on the needs of `lucy_need` and the shapes of `lucy_shape`, and knows nothing of nodes. Begin with `rates` in
//! `rating.rt`. `specs/Walks.antt` says what a walk along needs multiplies a rate by, `specs/Trees.antt` which tree gives the
//! rates and which need isn't balanced, `specs/Vectors.antt` which shape the rates give, and `specs/ShapeLaws.antt` that there
//! is one.
#![tactic(auto)]

mod forest;
mod fraction;
mod laws;
mod rating;
mod shape_laws;
mod shaping;
mod vector;
mod walk;

pub use laws::{one_unequal_walk, tree_rates, walk_is_unmet, walks_balance};
pub use lucy_shape::{ClockShape, ClockShapes, RateFault, Shape, spread, words_of};
pub use rating::rates;
pub use shape_laws::{one_shape, one_verdict, shape_carries};
