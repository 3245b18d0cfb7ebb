//! Drawings for Graphviz, of a node, or of a whole program's net, whose contract says all that stands in them; and texts in its quotes,
//! which no byte of them ends.
//!
//! It stands on `lucy_diagram`, which says what a drawing of a node shows. Begin with `put_net` in `print.rt`, `specs/Graphs.antt` and
//! `specs/Nets.antt`; for labels with `put_quoted` in `quote.rt` and `specs/Quotes.antt`.
#![tactic(auto)]

mod print;
mod quote;

pub use print::put_net;
pub use quote::{put_quoted, quoted_texts_read_back};
