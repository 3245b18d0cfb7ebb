//! Program texts and their trees: `parse` reads a text, and `print` writes a tree.
//!
//! It stands on the trees of `lucy_tree`, the tokens of `lucy_token` and the grammar of `lucy_grammar`, whose
//! `specs/Texts.antt` says when a text has a tree and why one is refused. Begin with `parse` in `reading.rt`; `print` is that
//! of `lucy_grammar`.
#![tactic(auto)]

mod atoms;
mod cursor;
mod decl;
mod descent;
mod level;
mod make;
mod program;
mod reading;
mod refusal;

pub use lucy_grammar::print;
pub use lucy_token::SyntaxError;
pub use lucy_tree::{
    Decl, Decls, Def, Defs, Expr, Exprs, Lit, Name, Names, Node, Nodes, Program, Span,
};
pub use reading::parse;
