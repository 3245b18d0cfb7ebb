ghost use Rattle.std.specs.Prelude.{◌≡◌};
ghost use Rattle.lucy_tree.specs.View.{expr_list};

use crate::span::{Name, Span};
use lucy_host::Op;
use lucy_word::Word;

/// A literal.
#[derive(Clone, Copy, Debug, PartialEq, Eq)]
pub enum Lit {
    Int(i64),
    Bool(bool),
}

/// An expression. A span is that of the literal, of the operator's token, or for `if` of that keyword; where there is a
/// name, that of the name.
#[cycle(expr)]
#[derive(Drop)]
pub enum Expr {
    /// A stream without end of one value.
    Lit {
        lit: Lit,
        span: Span,
    },
    /// A stream by its name.
    Var {
        name: Name,
    },
    /// An operator of the language, instant by instant, with as many operands as it takes.
    Op {
        op: Op,
        args: Exprs,
        span: Span,
    },
    /// An operator of the host, instant by instant, with two operands.
    Host {
        name: Name,
        args: Exprs,
    },
    /// The items at which the word has a one, or with `flip` a zero: `when`, or `whenot`.
    When {
        flip: bool,
        operand: Box<Expr>,
        word: Word,
    },
    /// Where the word has a one an item of `one`, and where it has a zero one of `zero`.
    Merge {
        word: Word,
        one: Box<Expr>,
        zero: Box<Expr>,
        span: Span,
    },
    /// The literal, and then the operand's items.
    Fby {
        first: Lit,
        operand: Box<Expr>,
        span: Span,
    },
    /// The operand's items, which may wait; with a written bound, at most so many at a time.
    Buffer {
        most: Option<u64>,
        operand: Box<Expr>,
        span: Span,
    },
    /// A call of a node, with the word of its base clock where it is written.
    Call {
        node: Name,
        at: Option<Word>,
        args: Exprs,
    },
}

/// Expressions in the order of the text.
#[cycle(expr)]
#[derive(Drop)]
pub struct Exprs {
    list: Vec<Expr>,
}

impl Exprs {
    /// These expressions.
    pub fn new(list: Vec<Expr>) -> Exprs
        ensures { expr_list result ≡ list.items }
    {
        Exprs { list }
    }

    /// The expressions.
    pub fn list(&self) -> &[Expr]
        ensures { result.now ≡ expr_list self.now }
    {
        &self.list
    }
}
