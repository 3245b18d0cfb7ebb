// Printing: what pictures show, as text.
mod columns;
mod form;
mod pieces;
mod place;
mod time;

pub use form::{put_entry, put_kind, put_place};
pub use place::put_spot;
pub use time::{put_time, put_word};
