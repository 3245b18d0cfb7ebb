// How tightly operators bind.
ghost use Rattle.std.specs.Prelude.{◌≡◌, ◌<◌, ◌≤◌, ◌↔◌, IsTrue, IfSome, MatchOption, length};
ghost use Rattle.lucy_syntax.specs.Levels as spec;
ghost use Rattle.lucy_syntax.specs.Levels.{rank, SignAt, NoSignAt};

use crate::atoms::{comparison, product_sign, sum_sign};
use crate::cursor::sign;
use lucy_host::Op;
use lucy_token::{Mark, Token};
use lucy_tree::Span;

/// What is read with its operators: a sampled operand, and then what binds looser and looser.
#[derive(Clone, Copy)]
pub(crate) enum Level {
    Samp,
    Prod,
    Sum,
    Cmp,
    And,
    Or,
}

impl Level {
    fn rank(self) -> u8
        ensures { result ≡ rank self }
    {
        match self {
            Level::Samp => 0,
            Level::Prod => 1,
            Level::Sum => 2,
            Level::Cmp => 3,
            Level::And => 4,
            Level::Or => 5,
        }
    }

    /// Whether it binds tighter.
    pub(crate) fn is_below(self, other: Level) -> bool
        ensures { IsTrue result ↔ rank self < rank other }
    {
        self.rank() < other.rank()
    }

    /// The next level that binds looser.
    pub(crate) fn looser(self) -> Level
        ensures { result ≡ spec.looser self }
    {
        match self {
            Level::Samp => Level::Prod,
            Level::Prod => Level::Sum,
            Level::Sum => Level::Cmp,
            Level::Cmp => Level::And,
            Level::And | Level::Or => Level::Or,
        }
    }

    /// The level after one more operand: the same, but for a comparison, of which there is one alone.
    pub(crate) fn behind(self) -> Level
        ensures { result ≡ spec.behind self }
    {
        match self {
            Level::Sum => Level::Cmp,
            _ => self,
        }
    }

    /// The sign at the front between operands of this level.
    pub(crate) fn sign<'a, 't>(self, ts: &'a [Token<'t>]) -> Option<((Op, Span), &'a [Token<'t>])>
        ensures read { MatchOption result (NoSignAt self ts.now) (λ p. SignAt self ts.now p.0 p.1.now) }
        ensures shorter { IfSome result (λ p. length p.1.now < length ts.now) }
    {
        match self {
            Level::Samp => product_sign(ts),
            Level::Prod => sum_sign(ts),
            Level::Sum => comparison(ts),
            Level::Cmp => sign(ts, Mark::Both, Op::And),
            Level::And => sign(ts, Mark::Either, Op::Or),
            Level::Or => None,
        }
    }
}
