// Reads what needs no expression: literals, samplings, and the signs of operators.
ghost use Rattle.std.specs.Prelude.{◌≡◌, ◌<◌, ◌≤◌, ◌↔◌, IfOk, IfErr, IfSome, IsTrue, List, MatchOption, length, ◌∷◌, true, false};
ghost use Rattle.lucy_grammar.specs.Symbols.{Part};
ghost use Rattle.lucy_token.specs.Tokens.{first, kind_of};
ghost use Rattle.lucy_token.specs.declared.mark.Mark.TheVariants as mark;
ghost use Rattle.lucy_token.specs.declared.token.Kind.TheVariants as kind;
ghost use Rattle.lucy_token.specs.declared.token.Token.{Token};
ghost use Rattle.lucy_token.specs.declared.token.What.TheVariants as what;
ghost use Rattle.lucy_grammar.specs.Kinds.{is_bound};
ghost use Rattle.lucy_grammar.specs.Meanings.{token_literal, token_bound};
ghost use Rattle.lucy_grammar.specs.Reading.{Reads, Unfit, IsBegun, Begins, ReadsOptional, UnfitOptional};
ghost use Rattle.lucy_syntax.specs.Piles.{base_word};
ghost use Rattle.lucy_syntax.specs.Refusals.{RefusedBy, IsBounded, IsLiteral, begins_expr};

use crate::cursor::{ahead, at, sign, take, token, want, word};
use crate::refusal::Refusal;
use lucy_host::Op;
use lucy_token::{Kind, Mark, Token, What};
use lucy_tree::{Lit, Span};
use lucy_word::Word;
use std::alloc::Global;

// A number that a buffer's bound may be.
fn bound<'a, 't>(ts: &'a [Token<'t>]) -> Option<(u64, &'a [Token<'t>])>
    ensures read { MatchOption result ((t : Token) (rest : List Token) → ts.now ≡ t ∷ rest → is_bound t.what ≡ false) (λ p. (t : Token) × (ts.now ≡ t ∷ p.1.now) × (is_bound t.what ≡ true) × (p.0 ≡ token_bound t.what)) }
    ensures shorter { IfSome result (λ p. length p.1.now < length ts.now) }
{
    let (t, rest) = ts.split_first()?;
    match &t.what {
        What::Number(n) if may_bound(*n) => Some((as_bound(*n), rest)),
        _ => None,
    }
}

/// A buffer's bound before an opening parenthesis, and the tokens from that on.
pub(crate) fn bounded<'a, 't>(ts: &'a [Token<'t>]) -> Option<(u64, &'a [Token<'t>])>
    ensures read { MatchOption result (IsBounded ts.now → ⊥) (λ p. (t : Token) × (ts.now ≡ t ∷ p.1.now) × (is_bound t.what ≡ true) × (p.0 ≡ token_bound t.what) × (first p.1.now ≡ kind.Mark mark.Open)) }
    ensures shorter { IfSome result (λ p. length p.1.now < length ts.now) }
{
    let (most, rest) = bound(ts)?;
    if at(rest, Kind::Mark(Mark::Open)) {
        return Some((most, rest));
    }
    None
}

// The greatest bound that a buffer may have, in items.
const MOST_BOUND: i64 = 4_095;

// Whether the number may be a buffer's bound.
fn may_bound(n: i64) -> bool
    ensures { result ≡ is_bound (what.Number n) }
{
    0 <= n && n <= MOST_BOUND
}

// The bound that the number is.
fn as_bound(n: i64) -> u64
    requires { is_bound (what.Number n) ≡ true }
    ensures { result ≡ token_bound (what.Number n) }
{
    n as u64
}

// A number and its place.
fn number<'a, 't>(ts: &'a [Token<'t>]) -> Option<((Lit, Span), &'a [Token<'t>])>
    ensures read { MatchOption result (first ts.now ≡ kind.Number → ⊥) (λ p. (t : Token) × Begins ts.now t kind.Number p.1.now × (p.0.0 ≡ token_literal t.what) × (p.0.1 ≡ t.span)) }
    ensures shorter { IfSome result (λ p. length p.1.now < length ts.now) }
{
    let (t, rest) = ts.split_first()?;
    match &t.what {
        What::Number(n) => Some(((Lit::Int(*n), t.span), rest)),
        _ => None,
    }
}

/// A literal and its place, if one begins here.
pub(crate) fn literal<'a, 't>(ts: &'a [Token<'t>]) -> Option<((Lit, Span), &'a [Token<'t>])>
    ensures read { MatchOption result (IsBegun Part.Lit ts.now → ⊥) (λ p. IsLiteral ts.now p.0 p.1.now) }
    ensures shorter { IfSome result (λ p. length p.1.now < length ts.now) }
{
    if let Some((span, rest)) = take(ts, Mark::True) {
        return Some(((Lit::Bool(true), span), rest));
    }
    if let Some((span, rest)) = take(ts, Mark::False) {
        return Some(((Lit::Bool(false), span), rest));
    }
    number(ts)
}

/// Whether a sampling begins here.
pub(crate) fn at_sampling(ts: &[Token]) -> bool
    ensures { IsTrue result ↔ IsBegun Part.Sampling ts.now }
{
    if at(ts, Kind::Mark(Mark::When)) {
        return true;
    }
    at(ts, Kind::Mark(Mark::Whenot))
}

/// `when` and its word, or with true `whenot` and its word.
pub(crate) fn sampling<'a, 't>(
    alloc: Global,
    ts: &'a [Token<'t>],
) -> Result<((bool, Word), &'a [Token<'t>]), Refusal<'a, 't>>
    ensures ok { IfOk result (λ p. Reads Part.Sampling ts.now p.0 p.1.now) }
    ensures refused { IfErr result (RefusedBy (Unfit Part.Sampling ts.now)) }
    ensures shorter { IfOk result (λ p. length p.1.now < length ts.now) }
{
    if let Some((_, ts)) = take(ts, Mark::When) {
        let (word, ts) = word(alloc, ts)?;
        return Ok(((false, word), ts));
    }
    let (_, ts) = want(ts, Mark::Whenot)?;
    let (word, ts) = word(alloc, ts)?;
    Ok(((true, word), ts))
}

/// The sign of a comparison at the front.
pub(crate) fn comparison<'a, 't>(ts: &'a [Token<'t>]) -> Option<((Op, Span), &'a [Token<'t>])>
    ensures read { MatchOption result (IsBegun Part.CmpOp ts.now → ⊥) (λ p. IsBegun Part.CmpOp ts.now × Reads Part.CmpOp ts.now p.0 p.1.now) }
    ensures shorter { IfSome result (λ p. length p.1.now < length ts.now) }
{
    if let Some(found) = sign(ts, Mark::Same, Op::Eq) {
        return Some(found);
    }
    if let Some(found) = sign(ts, Mark::Differs, Op::Ne) {
        return Some(found);
    }
    if let Some(found) = sign(ts, Mark::Less, Op::Lt) {
        return Some(found);
    }
    if let Some(found) = sign(ts, Mark::AtMost, Op::Le) {
        return Some(found);
    }
    if let Some(found) = sign(ts, Mark::Greater, Op::Gt) {
        return Some(found);
    }
    sign(ts, Mark::AtLeast, Op::Ge)
}

/// The sign of a sum at the front.
pub(crate) fn sum_sign<'a, 't>(ts: &'a [Token<'t>]) -> Option<((Op, Span), &'a [Token<'t>])>
    ensures read { MatchOption result (IsBegun Part.SumOp ts.now → ⊥) (λ p. IsBegun Part.SumOp ts.now × Reads Part.SumOp ts.now p.0 p.1.now) }
    ensures shorter { IfSome result (λ p. length p.1.now < length ts.now) }
{
    if let Some(found) = sign(ts, Mark::Plus, Op::Add) {
        return Some(found);
    }
    sign(ts, Mark::Minus, Op::Sub)
}

/// The sign of a product at the front.
pub(crate) fn product_sign<'a, 't>(ts: &'a [Token<'t>]) -> Option<((Op, Span), &'a [Token<'t>])>
    ensures read { MatchOption result (IsBegun Part.ProdOp ts.now → ⊥) (λ p. IsBegun Part.ProdOp ts.now × Reads Part.ProdOp ts.now p.0 p.1.now) }
    ensures shorter { IfSome result (λ p. length p.1.now < length ts.now) }
{
    if let Some(found) = sign(ts, Mark::Star, Op::Mul) {
        return Some(found);
    }
    if let Some(found) = sign(ts, Mark::Slash, Op::Div) {
        return Some(found);
    }
    sign(ts, Mark::Percent, Op::Rem)
}

/// Whether a call's base or arguments begin here.
pub(crate) fn at_applied(ts: &[Token]) -> bool
    ensures { IsTrue result ↔ IsBegun Part.Applied ts.now }
{
    if at(ts, Kind::Mark(Mark::At)) {
        return true;
    }
    at(ts, Kind::Mark(Mark::Open))
}

/// The written base of a call, if one stands here.
pub(crate) fn base<'a, 't>(
    ts: &'a [Token<'t>],
) -> Result<(Option<&'a Token<'t>>, &'a [Token<'t>]), Refusal<'a, 't>>
    ensures ok { IfOk result (λ p. ReadsOptional Part.Base ts.now (base_word p.0) p.1.now) }
    ensures word { IfOk result (λ p. IfSome p.0 (λ t. kind_of t.now.what ≡ kind.Word)) }
    ensures refused { IfErr result (RefusedBy (UnfitOptional Part.Base ts.now)) }
    ensures shorter { IfOk result (λ p. length p.1.now ≤ length ts.now) }
{
    if let Some((_, rest)) = take(ts, Mark::At) {
        let (word, rest) = token(rest, Kind::Word)?;
        return Ok((Some(word), rest));
    }
    Ok((None, ts))
}

fn begins_expr(kind: Kind) -> bool
    ensures { result ≡ begins_expr kind }
{
    match kind {
        Kind::Name => true,
        Kind::Number => true,
        Kind::Mark(Mark::If) => true,
        Kind::Mark(Mark::Not) => true,
        Kind::Mark(Mark::Buffer) => true,
        Kind::Mark(Mark::Merge) => true,
        Kind::Mark(Mark::Host) => true,
        Kind::Mark(Mark::True) => true,
        Kind::Mark(Mark::False) => true,
        Kind::Mark(Mark::Open) => true,
        _ => false,
    }
}

/// Whether an expression begins here.
pub(crate) fn at_expr(ts: &[Token]) -> bool
    ensures { IsTrue result ↔ IsBegun Part.Args ts.now }
{
    begins_expr(ahead(ts))
}
