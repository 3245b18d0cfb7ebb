ghost use Rattle.std.specs.Prelude.{◌≡◌};
ghost use Rattle.lucy_token.specs.Tokens as spec;

use crate::mark::Mark;
use crate::stop::Stop;
use lucy_tree::Span;
use lucy_word::Spelled;
use std::marker::Model;

/// The kinds of tokens, and the end behind the last one.
#[derive(Clone, Copy, PartialEq, Eq)]
pub enum Kind {
    End,
    Name,
    Number,
    Word,
    Mark(Mark),
}

/// Bytes of the text. Contracts see their list.
#[derive(Drop)]
pub struct Piece<'a> {
    bytes: &'a [u8],
}

impl<'a> Model for Piece<'a> {
    ghost use Rattle.std.specs.Prelude.{List, ℕ};

    ghost Value = { List ℕ };

    ghost view = { λ piece. piece.bytes.now };
}

impl<'a> Piece<'a> {
    /// These bytes.
    pub fn new(bytes: &'a [u8]) -> Piece<'a>
        ensures { result ≡ bytes.now }
    {
        Piece { bytes }
    }

    /// The bytes.
    pub fn bytes(&self) -> &'a [u8]
        ensures { result.now ≡ self.now }
    {
        self.bytes
    }
}

/// What a token is. A word stays as it is spelled: it is made where the tree takes it.
#[derive(Drop)]
pub enum What<'a> {
    Mark(Mark),
    Name(Piece<'a>),
    Number(i64),
    Word(Spelled<'a>),
}

impl<'a> What<'a> {
    /// Its kind.
    pub fn kind(&self) -> Kind
        ensures { result ≡ spec.kind_of self.now }
    {
        match self {
            What::Mark(mark) => Kind::Mark(*mark),
            What::Name(_) => Kind::Name,
            What::Number(_) => Kind::Number,
            What::Word(_) => Kind::Word,
        }
    }
}

/// A token, and where it stands.
#[derive(Drop)]
pub struct Token<'a> {
    pub what: What<'a>,
    pub span: Span,
}

/// The tokens of a text, and why they stop.
#[derive(Drop)]
pub struct Tokens<'a> {
    pub list: Vec<Token<'a>>,
    pub stop: Stop,
}
