//! Chronograms as SVG. What they show beyond `lucy_picture`'s chronogram is data whose contracts say what it is: which instant reads an
//! item of a buffer, and how many items have gone in and out; and no text can end the element that it stands in. The names and the lanes
//! stand in the picture; where they do is tested.
//!
//! It stands on `lucy_picture`. Begin with `drawing_of` in `drawing.rt` and with `specs/Joins.antt` and `specs/Flows.antt`; for texts with
//! `put_escaped` in `escape.rt` and `specs/Escaping.antt`; for pictures with `put_time_svg` in `print/time.rt` and `specs/Sheets.antt`.
#![tactic(auto)]

mod drawing;
mod escape;
mod flow;
mod join;
mod ones;
mod print;
mod told;

pub use drawing::{Drawing, drawing_of};
pub use escape::{escaped_texts_are_read_back, put_escaped};
pub use flow::{Flow, flow_of};
pub use join::{Join, Joins};
pub use print::{
    Font, HEAD, Lanes, NAME, SMALL, STYLE, Sheet, Side, put, put_label, put_time_svg, shown_of,
    shown_text, turn_text, word_text,
};
pub use told::Told;
