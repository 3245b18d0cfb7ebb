//! The flat net of a program: actors by their kinds, the rings between them, and the operations of an actor in turn; and its
//! static schedule, the events of each instant in a possible order, or a cycle of items that depend on each other.
//!
//! It stands on `lucy_word`, `lucy_host` and the theories of streams and events. Begin with `Net` in `net.rt` and with
//! `specs/Plans.antt`, which says what an actor has to do up to a horizon; `specs/Proper.antt` says which nets are proper, and
//! `specs/Causal.antt` which items of a net depend on which. For schedules begin with `schedule_of` in `schedule.rt` and with
//! `specs/Schedules.antt`; `settle` in `settle.rt` plays an instant by counts, and `one_answer.rt` says that a net has one
//! answer.
#![tactic(auto)]

mod advance;
mod agenda;
mod copy;
mod count;
mod cursor;
mod cycle;
mod ends;
mod error;
mod firing;
mod instant;
mod kind;
mod laws;
mod lengths;
mod lists;
mod net;
mod one_answer;
mod play;
mod schedule;
mod settle;
mod state;
mod value;
mod words;

pub use count::operations;
pub use ends::{EndMove, next_end_move};
pub use error::{CauseFault, Item};
pub use firing::{Move, firing_move, is_plain};
pub use kind::ActorKind;
pub use laws::{
    next_operations_are_planned, orders_make_sound_schedules, proper_nets_are_plugged,
    sound_schedules_are_causal, words_count_the_items,
};
pub use lists::{Actors, Numbers, Rings};
pub use net::{Actor, Net, RingSpec};
pub use one_answer::nets_have_one_answer;
pub use schedule::{Schedule, schedule_of};
pub use state::{
    ActorState, after_end_give, after_end_take, after_give, after_take, first_state, next_move,
};
pub use value::give_value;
pub use words::net_words_are_stored;
