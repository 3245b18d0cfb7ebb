//! The theory of streams and of the events that move them: what each form of the language makes of the lists of its operands and
//! the iterates of a program (Kahn 1974); then actors with fixed lists of operations on bounded rings, what every run of their
//! events keeps, and why none of them is ever stuck.
//!
//! It stands on `lucy_word` and `lucy_host`. It has no code: the body of each public function is empty, and its contract
//! is a law. Of streams begin with `specs/Forms.antt` and `specs/Lists.antt`, then `Iterates.antt` and `Firings.antt`; `Needs.antt`
//! says which items depend on which, and `Names.antt` what places are by names, whose law is `proofs/NameLaws.antt`. Of events begin
//! with `specs/Systems.antt` and `specs/Runs.antt`, then `States.antt`; `Operations.antt` and `Plans.antt` say which operations
//! an actor of a form has. `Deciding.antt` has what is possible as a truth that computes, `Actors.antt` what holds of one actor
//! by itself, `Counted.antt` the state of given counts, `Totals.antt` how many events there are, `Instants.antt` what a schedule
//! rests on, `Horizons.antt` actors with more to do, and `Schedules.antt` orders for every horizon.
#![tactic(auto)]

mod actor;
mod bounds;
mod causality;
mod converse;
mod counted;
mod counts;
mod deciding;
mod firing;
mod growth;
mod holding;
mod horizon;
mod instant;
mod joined;
mod kahn;
mod merge;
mod operation;
mod plan;
mod progress;
mod sampling;
mod schedule;
mod states;
mod total;

pub use actor::actors_stand_by_themselves;
pub use bounds::rings_stay_within;
pub use causality::{items_need_what_was_there, iterates_have_no_cycle};
pub use converse::{later_events_are_past_the_front, states_are_reached, within_is_reached};
pub use counted::counts_make_states;
pub use counts::firings_are_counted;
pub use deciding::events_are_decided;
pub use firing::firings_give_the_items;
pub use growth::{iterates_grow, lists_grow};
pub use holding::events_move_items;
pub use horizon::{longer_lists_keep_runs, more_firings_are_longer_lists};
pub use instant::{actors_go_on_or_wait, alike_counts_run_alike};
pub use joined::{runs_are_joined, runs_end_where_none_is_possible};
pub use kahn::{finished_states_hold_kahn_streams, runs_give_kahn_prefixes};
pub use merge::merges_are_longest;
pub use operation::{
    firings_take_what_is_needed, firings_use_their_rings, operations_stand_in_firings,
};
pub use plan::plugged_actors_are_wired;
pub use progress::nothing_is_stuck;
pub use sampling::samplings_keep_the_ones;
pub use schedule::steps_make_sound_schedules;
pub use states::{counts_decide, rings_hold_what_is_counted, runs_keep_states, taken_is_a_front};
pub use total::runs_are_counted;
