//! The tree of a program: nodes with their parameters, results and definitions, and expressions, each with the place in
//! the text from which it was read.
//!
//! It stands on `lucy_word`, `lucy_host` and `lucy_text`. Begin with `Program` in `program.rt` and `Expr` in `expr.rt`;
//! contracts see an expression as a `Tree`, `specs/Tree.antt`, and a program as its nodes, `specs/View.antt`.
#![tactic(auto)]

mod decl;
mod expr;
mod program;
mod span;

pub use decl::{Decl, Decls};
pub use expr::{Expr, Exprs, Lit};
pub use program::{Def, Defs, Node, Nodes, Program};
pub use span::{Name, Names, Span};
