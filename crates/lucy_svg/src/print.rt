// Printing: what is drawn, as SVG. Where it stands is looked at.
mod band;
mod ink;
mod lane;
mod sheet;
mod side;
mod style;
mod time;

pub use ink::{Font, HEAD, NAME, SMALL, put, put_label};
pub use lane::Lanes;
pub use sheet::Sheet;
pub use side::{Side, word_text};
pub use style::STYLE;
pub use time::{put_time_svg, shown_of, shown_text, turn_text};
