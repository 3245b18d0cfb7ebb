//! A page of a program that needs nothing else: its text, its report, and of each node its net, its chronogram and its buffers, with the
//! names of streams linked to where they are defined; or of a refused one its text and why it is refused. Whatever their bytes are, the texts
//! on it are read as themselves. Pictures are drawn by the crates below, and looked at.
//!
//! It stands on `lucy_svg`. Begin with `page` in `whole.rt` and with `specs/Pages.antt`, which says what stands on a page, and
//! `specs/Reading.antt`, which says how that is read.
#![tactic(auto)]

mod buffers;
mod layout;
mod mark;
mod net;
mod node;
mod part;
mod report;
mod style;
mod text;
mod uses;
mod whole;

pub use whole::{page, refused_page};
