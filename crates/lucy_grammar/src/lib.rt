//! The grammar of programs: its productions with what each stands for, what it is for tokens to be a program, to begin
//! one, and to be refused, when a text has a tree, and how a program is printed; and the text of a program from its tree.
//!
//! It stands on `lucy_word`, `lucy_host`, `lucy_tree` and `lucy_token`. Begin with the table, `specs/Grammar.antt`;
//! `specs/Texts.antt` says which texts have a tree and why one is refused, and `specs/Print.antt` how a program is printed, which
//! is what `print` in `printing.rt` does, token by token (`specs/PrintTokens.antt`); `expr.rt` has the forms of expressions.
#![tactic(auto)]

mod decl;
mod expr;
mod laws;
mod printing;
mod program;
mod sheet;

pub use laws::{one_refusal, one_tree, printed_again, read_again, texts_have_one_answer};
pub use printing::print;
