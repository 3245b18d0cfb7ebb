// Words on words.
ghost use Rattle.std.specs.Prelude.{◌≡◌, ◌⊎◌, ◌≤◌, IfOk, IfErr, OnOk};
ghost use Rattle.lucy_word.specs.Bits.{bit_count};
ghost use Rattle.lucy_word.specs.Stored.{IsStored};
ghost use Rattle.lucy_word.specs.Sampling.{IsOn, IsOnTooLong};
ghost use Rattle.lucy_word.specs.Limits.{limit_number};
ghost use Rattle.lucy_word.specs.declared.limit.Limit.TheVariants as lim;
ghost use Rattle.lucy_clock.specs.HandedDown.{HandsTooLong};
ghost use Rattle.lucy_flat.specs.declared.error.FlatError.TheVariants as err;
ghost use Rattle.lucy_flat.specs.Drafts.{HasTooLong};

use crate::error::FlatError;
use lucy_clock::{is_too_long, test_handed};
use lucy_place::PlaceKind;
use lucy_word::{Limit, Word};
use std::alloc::Global;

/// A clock on a word.
pub(crate) fn sampled(alloc: Global, own: &Word, word: &Word) -> Result<Word, FlatError>
    ensures ok { IfOk result (IsOn own.now word.now) }
    ensures fits { IfOk result (λ w. IsOnTooLong own.now word.now → ⊥) }
    ensures stored { IfOk result IsStored }
    ensures refused { IfErr result (λ e. (e ≡ err.OutOfMemory) ⊎ ((e ≡ err.Limit lim.Word) × IsOnTooLong own.now word.now)) }
{
    match lucy_word::sampled(alloc, own, word)? {
        Some(word) => Ok(word),
        None => Err(FlatError::Limit(Limit::Word)),
    }
}

// Tests that no word on which a place of a kind takes is too long, where this is its own; none is made.
fn test_reads(kind: &PlaceKind, own: &Word) -> Result<(), FlatError>
    ensures ok { OnOk result (HandsTooLong kind.now own.now → ⊥) }
    ensures refused { IfErr result (λ e. (e ≡ err.Limit lim.Word) × HandsTooLong kind.now own.now) }
{
    match test_handed(kind, own) {
        Ok(()) => Ok(()),
        Err(_) => Err(FlatError::Limit(Limit::Word)),
    }
}

/// Tests that a clock on a word isn't too long; it isn't made.
pub(crate) fn test_sampled(own: &Word, word: &Word) -> Result<(), FlatError>
    ensures ok { OnOk result (IsOnTooLong own.now word.now → ⊥) }
    ensures refused { IfErr result (λ e. (e ≡ err.Limit lim.Word) × IsOnTooLong own.now word.now) }
{
    if is_too_long(own, word) {
        return Err(FlatError::Limit(Limit::Word));
    }
    Ok(())
}

/// The word of a place of a kind, with this word in its node, in an instance with this base, unless it or one on which the place
/// takes is too long.
pub(crate) fn own_word(
    alloc: Global,
    kind: &PlaceKind,
    base: &Word,
    word: &Word,
) -> Result<Word, FlatError>
    ensures ok { IfOk result (IsOn base.now word.now) }
    ensures stored { IfOk result IsStored }
    ensures fits { IfOk result (λ own. IsOnTooLong base.now word.now → ⊥) }
    ensures reads { IfOk result (λ own. HandsTooLong kind.now own → ⊥) }
    ensures refused { IfErr result (λ e. (e ≡ err.OutOfMemory) ⊎ ((e ≡ err.Limit lim.Word) × HasTooLong kind.now base.now word.now)) }
{
    let own = sampled(alloc, base, word)?;
    test_reads(kind, &own)?;
    Ok(own)
}

// Tests that no word of a place of a kind is too long, for which its own is made.
fn test_made(alloc: Global, kind: &PlaceKind, base: &Word, word: &Word) -> Result<(), FlatError>
    ensures ok { OnOk result (HasTooLong kind.now base.now word.now → ⊥) }
    ensures refused { IfErr result (λ e. (e ≡ err.OutOfMemory) ⊎ ((e ≡ err.Limit lim.Word) × HasTooLong kind.now base.now word.now)) }
{
    own_word(alloc, kind, base, word)?;
    Ok(())
}

/// Tests that a place of a kind, with this word in its node, has no word that is too long in an instance with this base: its
/// own, or one on which it takes. Only that of a merge is made, since how long it is in shortest form isn't known before.
pub(crate) fn test_place(
    alloc: Global,
    kind: &PlaceKind,
    base: &Word,
    word: &Word,
) -> Result<(), FlatError>
    ensures ok { OnOk result (HasTooLong kind.now base.now word.now → ⊥) }
    ensures refused { IfErr result (λ e. (e ≡ err.OutOfMemory) ⊎ ((e ≡ err.Limit lim.Word) × HasTooLong kind.now base.now word.now)) }
{
    match kind {
        PlaceKind::Merge(..) => test_made(alloc, kind, base, word),
        _ => test_sampled(base, word),
    }
}

/// How many bits the word has.
pub(crate) fn bits(word: &Word) -> u64
    ensures is { result ≡ bit_count word.now }
    ensures few { result ≤ limit_number lim.Word }
{
    let (prefix, period) = word.lengths();
    prefix + period
}
