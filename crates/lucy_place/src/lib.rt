//! The places of a program: the parameters, defined names and expressions of each node, by their numbers.
//!
//! It says what a placed program is, and holds one; `lucy_naming` makes it of a tree. Begin with `placed.rt` and `entry.rt`. What a
//! layer above may know of the tables is in `specs/Standing.antt`, `specs/Reads.antt`, `specs/Proper.antt` and
//! `specs/WrittenNodes.antt`.
#![tactic(auto)]

mod entry;
mod lists;
mod literal;
mod placed;

pub use entry::{CallSite, PlaceEntry, PlaceKind};
pub use lists::{Bounds, Calls, Numbers, Places};
pub use literal::literal_value;
pub use placed::{Placed, PlacedNode};
