// The token at the front, if it is the one that is wanted.
ghost use Rattle.std.specs.Prelude.{◌≡◌, ◌≢◌, ◌<◌, ◌↔◌, IfOk, IfErr, IsTrue, IfSome, MatchOption, length};
ghost use Rattle.lucy_token.specs.Tokens.{first};
ghost use Rattle.lucy_token.specs.declared.token.Kind.TheVariants as kind;
ghost use Rattle.lucy_token.specs.declared.token.Token.{Token};
ghost use Rattle.lucy_grammar.specs.Meanings.{token_name, token_word};
ghost use Rattle.lucy_grammar.specs.Reading.{Begins, IsOther};
ghost use Rattle.lucy_syntax.specs.Refusals.{RefusedBy};

use crate::make::{name_of, word_of};
use crate::refusal::Refusal;
use lucy_host::Op;
use lucy_token::{Kind, Mark, Token};
use lucy_tree::{Name, Span};
use lucy_word::Word;
use std::alloc::Global;

/// The kind of the first token, or the end.
pub(crate) fn ahead(ts: &[Token]) -> Kind
    ensures { result ≡ first ts.now }
{
    match ts.first() {
        Some(t) => t.what.kind(),
        None => Kind::End,
    }
}

/// Whether a token of this kind is the first.
pub(crate) fn at(ts: &[Token], kind: Kind) -> bool
    ensures { IsTrue result ↔ first ts.now ≡ kind }
{
    ahead(ts) == kind
}

/// The first token, and what follows it, where it is of the kind; none is of the kind of the end.
pub(crate) fn next<'a, 't>(
    ts: &'a [Token<'t>],
    wanted: Kind,
) -> Option<(&'a Token<'t>, &'a [Token<'t>])>
    ensures read { MatchOption result (first ts.now ≡ wanted → wanted ≡ kind.End) (λ p. Begins ts.now p.0.now wanted p.1.now) }
    ensures shorter { IfSome result (λ p. length p.1.now < length ts.now) }
{
    match ts.split_first() {
        Some((t, rest)) if t.what.kind() == wanted => Some((t, rest)),
        _ => None,
    }
}

/// The place of a keyword or a sign, and what follows it, where it is the first token.
pub(crate) fn take<'a, 't>(ts: &'a [Token<'t>], mark: Mark) -> Option<(Span, &'a [Token<'t>])>
    ensures read { MatchOption result (first ts.now ≡ kind.Mark mark → ⊥) (λ p. (t : Token) × Begins ts.now t (kind.Mark mark) p.1.now × (p.0 ≡ t.span)) }
    ensures shorter { IfSome result (λ p. length p.1.now < length ts.now) }
{
    match ts.split_first() {
        Some((t, rest)) if t.what.kind() == Kind::Mark(mark) => Some((t.span, rest)),
        _ => None,
    }
}

/// An operator's sign with its place, and what follows it, where it is the first token.
pub(crate) fn sign<'a, 't>(
    ts: &'a [Token<'t>],
    mark: Mark,
    op: Op,
) -> Option<((Op, Span), &'a [Token<'t>])>
    ensures read { MatchOption result (first ts.now ≡ kind.Mark mark → ⊥) (λ p. (t : Token) × Begins ts.now t (kind.Mark mark) p.1.now × (p.0.0 ≡ op) × (p.0.1 ≡ t.span)) }
    ensures shorter { IfSome result (λ p. length p.1.now < length ts.now) }
{
    let (span, rest) = take(ts, mark)?;
    Some(((op, span), rest))
}

/// A keyword or a sign: its place, and what follows it.
pub(crate) fn want<'a, 't>(
    ts: &'a [Token<'t>],
    mark: Mark,
) -> Result<(Span, &'a [Token<'t>]), Refusal<'a, 't>>
    ensures ok { IfOk result (λ p. (t : Token) × Begins ts.now t (kind.Mark mark) p.1.now × (p.0 ≡ t.span)) }
    ensures refused { IfErr result (RefusedBy (IsOther ts.now (kind.Mark mark))) }
    ensures shorter { IfOk result (λ p. length p.1.now < length ts.now) }
{
    match take(ts, mark) {
        Some(taken) => Ok(taken),
        None => Err(Refusal::At(ts)),
    }
}

/// A token of the kind, and what follows it.
pub(crate) fn token<'a, 't>(
    ts: &'a [Token<'t>],
    wanted: Kind,
) -> Result<(&'a Token<'t>, &'a [Token<'t>]), Refusal<'a, 't>>
    requires { wanted ≢ kind.End }
    ensures ok { IfOk result (λ p. Begins ts.now p.0.now wanted p.1.now) }
    ensures refused { IfErr result (RefusedBy (IsOther ts.now wanted)) }
    ensures shorter { IfOk result (λ p. length p.1.now < length ts.now) }
{
    match next(ts, wanted) {
        Some(taken) => Ok(taken),
        None => Err(Refusal::At(ts)),
    }
}

/// A name, and what follows it.
pub(crate) fn name<'a, 't>(
    alloc: Global,
    ts: &'a [Token<'t>],
) -> Result<(Name, &'a [Token<'t>]), Refusal<'a, 't>>
    ensures ok { IfOk result (λ p. (t : Token) × Begins ts.now t kind.Name p.1.now × (p.0 ≡ token_name t)) }
    ensures refused { IfErr result (RefusedBy (IsOther ts.now kind.Name)) }
    ensures shorter { IfOk result (λ p. length p.1.now < length ts.now) }
{
    let (t, rest) = token(ts, Kind::Name)?;
    Ok((name_of(alloc, t)?, rest))
}

/// A word, and what follows it.
pub(crate) fn word<'a, 't>(
    alloc: Global,
    ts: &'a [Token<'t>],
) -> Result<(Word, &'a [Token<'t>]), Refusal<'a, 't>>
    ensures ok { IfOk result (λ p. (t : Token) × Begins ts.now t kind.Word p.1.now × (p.0 ≡ token_word t.what)) }
    ensures refused { IfErr result (RefusedBy (IsOther ts.now kind.Word)) }
    ensures shorter { IfOk result (λ p. length p.1.now < length ts.now) }
{
    let (t, rest) = token(ts, Kind::Word)?;
    Ok((word_of(alloc, t)?, rest))
}
