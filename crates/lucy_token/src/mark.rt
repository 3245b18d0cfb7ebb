ghost use Rattle.std.specs.Prelude.{◌≡◌};
ghost use Rattle.lucy_token.specs.Marks as spec;

use lucy_host::Op;

/// A keyword or a sign: a token that is always spelled the same.
#[derive(Clone, Copy, PartialEq, Eq)]
pub enum Mark {
    Let,
    Node,
    Where,
    Rec,
    And,
    When,
    Whenot,
    Merge,
    Fby,
    Buffer,
    At,
    Host,
    If,
    Then,
    Else,
    Not,
    True,
    False,
    Int,
    Bool,
    /// `(`
    Open,
    /// `)`
    Close,
    /// `,`
    Comma,
    /// `:`
    Colon,
    /// `::`
    Colons,
    /// `=`
    Equals,
    /// `==`
    Same,
    /// `!=`
    Differs,
    /// `<`
    Less,
    /// `<=`
    AtMost,
    /// `>`
    Greater,
    /// `>=`
    AtLeast,
    /// `+`
    Plus,
    /// `-`
    Minus,
    /// `*`
    Star,
    /// `/`
    Slash,
    /// `%`
    Percent,
    /// `&&`
    Both,
    /// `||`
    Either,
}

impl Mark {
    /// How it is spelled, in ASCII.
    pub fn text(&self) -> &'static str
        ensures { result.now ≡ spec.spelling self.now }
    {
        match self {
            Mark::Let => "let",
            Mark::Node => "node",
            Mark::Where => "where",
            Mark::Rec => "rec",
            Mark::And => "and",
            Mark::When => "when",
            Mark::Whenot => "whenot",
            Mark::Merge => "merge",
            Mark::Fby => "fby",
            Mark::Buffer => "buffer",
            Mark::At => "at",
            Mark::Host => "host",
            Mark::If => "if",
            Mark::Then => "then",
            Mark::Else => "else",
            Mark::Not => "not",
            Mark::True => "true",
            Mark::False => "false",
            Mark::Int => "int",
            Mark::Bool => "bool",
            Mark::Open => "(",
            Mark::Close => ")",
            Mark::Comma => ",",
            Mark::Colon => ":",
            Mark::Colons => "::",
            Mark::Equals => "=",
            Mark::Same => "==",
            Mark::Differs => "!=",
            Mark::Less => "<",
            Mark::AtMost => "<=",
            Mark::Greater => ">",
            Mark::AtLeast => ">=",
            Mark::Plus => "+",
            Mark::Minus => "-",
            Mark::Star => "*",
            Mark::Slash => "/",
            Mark::Percent => "%",
            Mark::Both => "&&",
            Mark::Either => "||",
        }
    }
}

/// The sign of an operator, or its first keyword.
pub fn op_mark(op: Op) -> Mark
    ensures { result ≡ spec.op_mark op }
{
    match op {
        Op::Add => Mark::Plus,
        Op::Sub => Mark::Minus,
        Op::Mul => Mark::Star,
        Op::Div => Mark::Slash,
        Op::Rem => Mark::Percent,
        Op::Eq => Mark::Same,
        Op::Ne => Mark::Differs,
        Op::Lt => Mark::Less,
        Op::Le => Mark::AtMost,
        Op::Gt => Mark::Greater,
        Op::Ge => Mark::AtLeast,
        Op::And => Mark::Both,
        Op::Or => Mark::Either,
        Op::Not => Mark::Not,
        Op::If => Mark::If,
    }
}

/// The sign of an operator, or its first keyword, as it is spelled.
pub fn sign_of(op: Op) -> &'static str
    ensures { result.now ≡ spec.spelling (spec.op_mark op) }
{
    op_mark(op).text()
}

/// The keywords.
pub(crate) const KEYWORDS: [Mark; 20] = [
    Mark::Let,
    Mark::Node,
    Mark::Where,
    Mark::Rec,
    Mark::And,
    Mark::When,
    Mark::Whenot,
    Mark::Merge,
    Mark::Fby,
    Mark::Buffer,
    Mark::At,
    Mark::Host,
    Mark::If,
    Mark::Then,
    Mark::Else,
    Mark::Not,
    Mark::True,
    Mark::False,
    Mark::Int,
    Mark::Bool,
];

/// The signs, those of two bytes before those of one.
pub(crate) const SIGNS: [Mark; 19] = [
    Mark::Colons,
    Mark::Same,
    Mark::Differs,
    Mark::AtMost,
    Mark::AtLeast,
    Mark::Both,
    Mark::Either,
    Mark::Open,
    Mark::Close,
    Mark::Comma,
    Mark::Colon,
    Mark::Equals,
    Mark::Less,
    Mark::Greater,
    Mark::Plus,
    Mark::Minus,
    Mark::Star,
    Mark::Slash,
    Mark::Percent,
];
