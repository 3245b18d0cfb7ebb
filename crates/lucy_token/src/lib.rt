//! The tokens of a program text: keywords, signs, names, numbers and words, each with its place, and why they stop.
//!
//! It stands on `lucy_word`, `lucy_host` and `lucy_tree`, and on `lucy_fields` for blanks. Begin with `Token` in `token.rt` and
//! `tokens` in `scan.rt`, and with `specs/Cuts.antt`, which says what it is to cut a text into tokens. `specs/Written.antt` says
//! what is known of the tokens of a text without a fault, and `specs/Printed.antt` how tokens are printed. `name.rt` tells
//! whether bytes are a name.
#![tactic(auto)]

mod content;
mod front;
mod laws;
mod mark;
mod name;
mod scan;
mod state;
mod stop;
mod token;

pub use front::Front;
pub use laws::{old_texts_mean_the_same, texts_have_one_cut, words_end_with_their_form};
pub use mark::{Mark, op_mark, sign_of};
pub use name::is_name;
pub use scan::tokens;
pub use state::{Level, Side};
pub use stop::{Stop, SyntaxError};
pub use token::{Kind, Piece, Token, Tokens, What};
