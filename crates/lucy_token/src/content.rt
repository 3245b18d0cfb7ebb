// What a token's bytes stand for.
ghost use Rattle.std.specs.Prelude.{◌≡◌, MatchOption};
ghost use Rattle.std.specs.Int.{w64};
ghost use Rattle.std.specs.Str.Parse.{IsNumeral, without_leading_sign, signed_digits_value};
ghost use mir.Val.{SFits as FitsSigned};
ghost use Rattle.lucy_word.specs.Bits.{Bits};
ghost use Rattle.lucy_token.specs.Contents.{IsWordAfter};
ghost use Rattle.lucy_token.specs.Steps.{IsTokenOf, IsContent};

use crate::state::wants_zero;
use crate::stop::SyntaxError;
use crate::token::{Kind, Piece, What};
use lucy_word::{Limit, Spelled};
use std::str;

// The number that digits, behind a `-` or not, stand for; none where it is outside of 64 bits.
fn number(bytes: &[u8]) -> Option<i64>
    requires { IsNumeral 10 (without_leading_sign bytes.now) }
    ensures { MatchOption result (FitsSigned w64 (signed_digits_value 10 bytes.now) → ⊥) (λ n. FitsSigned w64 (signed_digits_value 10 bytes.now) × (n ≡ signed_digits_value 10 bytes.now)) }
{
    match str::from_utf8(bytes) {
        Ok(text) => text.parse::<i64>().ok(),
        Err(_) => None,
    }
}

// The word that the bytes spell, where it may stand behind a token of this kind.
fn word<'a>(before: Kind, bytes: &'a [u8]) -> Option<Spelled<'a>>
    ensures { MatchOption result ((v : Bits) → IsWordAfter before bytes.now v → ⊥) (IsWordAfter before bytes.now) }
{
    let Ok(word) = Spelled::read(bytes) else {
        return None;
    };
    if wants_zero(before) && !word.has_zero() {
        return None;
    }
    Some(word)
}

// What the bytes of a token of a kind, which begin at an offset, stand for behind one of another kind; else why not.
pub(crate) fn content<'a>(
    before: Kind,
    kind: Kind,
    bytes: &'a [u8],
    from: u64,
) -> Result<What<'a>, SyntaxError>
    requires { IsTokenOf kind bytes.now }
    ensures { IsContent before kind bytes.now from result }
{
    match kind {
        Kind::End => unreachable!(),
        Kind::Mark(mark) => Ok(What::Mark(mark)),
        Kind::Name if bytes.len() as u64 > Limit::Name.number() => {
            Err(SyntaxError::TooLarge(Limit::Name))
        }
        Kind::Name => Ok(What::Name(Piece::new(bytes))),
        Kind::Number => match number(bytes) {
            Some(n) => Ok(What::Number(n)),
            None => Err(SyntaxError::BadNumber(from)),
        },
        Kind::Word => match word(before, bytes) {
            Some(w) => Ok(What::Word(w)),
            None => Err(SyntaxError::BadWord(from)),
        },
    }
}
