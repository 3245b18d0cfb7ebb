//! The meaning of a program (Kahn 1974): the streams of its places, with its calls written out; and the plain interpreter,
//! which makes the iterates, list by list, one turn after another.
//!
//! It stands on the placed programs of `lucy_place` and the forms of `lucy_stream`. Begin with `specs/Spots.antt`, what a place
//! is and reads in each instance of its node; then `Sizes.antt`, what a program has with its calls written out, `Kahn.antt`,
//! the lists of the iterates, `Items.antt`, which item depends on which, and `Horizons.antt`, how many instants the inputs
//! allow. By the numbers of `Numbers.antt` instance places are places of `lucy_stream`. `counting.rt` counts what instances
//! have; the public functions of `horizon.rt`, `items.rt`, `iterates.rt` and `numbers.rt` have empty bodies, and their
//! contracts are laws.
//!
//! The interpreter is slow, and shares nothing with the flat net; the faster ways to the same lists are compared with it.
//! Begin with `kahn` in `interpreter.rt`. What a place makes of its operands' lists is in `own.rt`, and what parameters and
//! results of calls read in `iterate.rt`; a list of each form is made in `lists.rt`, `merging.rt`, `pointwise.rt` and
//! `hosting.rt`.
#![tactic(auto)]

mod count;
mod counting;
mod error;
mod grow;
mod horizon;
mod hosting;
mod instances;
mod interpreter;
mod items;
mod iterate;
mod iterates;
mod lists;
mod merging;
mod numbers;
mod own;
mod pointwise;
mod streams;
mod turn;

pub use count::places_of;
pub use counting::{add_calls, sizes};
pub use error::KahnError;
pub use horizon::one_horizon;
pub use interpreter::kahn;
pub use items::{items_there_have_no_cycle, programs_are_causal_by_number};
pub use iterates::{programs_grow, programs_iterate_by_number, what_is_read_is_there};
pub use numbers::instance_places_are_numbered;
