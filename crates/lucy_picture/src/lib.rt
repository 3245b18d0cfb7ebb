//! What pictures show of a program, as data whose contracts say what they are: the marks of streams and what waits in buffers,
//! instant by instant, where an offset stands in a text, and which form stands at a place; and these as text. How wide the columns of a
//! chronogram are, and what its ruler says, is tested.
//!
//! It stands on `lucy_front`, which accepts programs. Begin with `chart_of` in `chart.rt` and with `specs/Charts.antt`; for texts with
//! `spot_of` in `spot.rt` and `specs/Spots.antt`; for forms with `form_of` in `forms.rt` and `specs/Forms.antt`. Below `print` stands
//! what prints them, by `specs/Kinds.antt` and `specs/Lines.antt`.
#![tactic(auto)]

mod chart;
mod fill;
mod forms;
mod marks;
mod named;
mod print;
mod row;
mod span;
mod spot;
mod turn;
mod words;

pub use chart::{Chart, chart_of};
pub use fill::Fill;
pub use forms::{form_of, forms_stand_at_their_places};
pub use marks::Marks;
pub use print::{put_entry, put_kind, put_place, put_spot, put_time, put_word};
pub use row::Row;
pub use span::{offset_of, span_of};
pub use spot::{Spot, spot_of};
pub use turn::{Turn, turn_of};
pub use words::words_at;
