// What a place hands down to an operand.
ghost use Rattle.std.specs.Prelude.{ℕ, ◌≡◌, ◌⊎◌, ◌↔◌, ◌+◌, ◌<◌, not, true, Some, length, slice_get, IsTrue, IfOk, IfErr, OnOk};
ghost use Rattle.lucy_tree.specs.Shaped.{HasZero};
ghost use Rattle.lucy_word.specs.Stored.{IsStored};
ghost use Rattle.lucy_word.specs.Bits.{most_bits};
ghost use Rattle.lucy_word.specs.Sampling.{IsOn, IsOnTooLong};
ghost use Rattle.lucy_word.specs.declared.limit.Limit.TheVariants as lim;
ghost use Rattle.lucy_place.specs.Standing.{sampling_word};
ghost use Rattle.lucy_place.specs.Reads.{operands_of};
ghost use Rattle.lucy_word.specs.Complement.{turned};
ghost use Rattle.lucy_clock.specs.declared.error.ClockError.TheVariants as err;
ghost use Rattle.lucy_clock.specs.HandedDown.{Hands, HandsTooLong};
ghost use Rattle.lucy_clock.specs.Reading.{IsAmong, HasTurned};

use crate::error::ClockError;
use lucy_place::PlaceKind;
use lucy_word::{Limit, Word, lcm, turned};
use std::alloc::Global;

// A clock on a word.
fn sampled(alloc: Global, own: &Word, word: &Word) -> Result<Word, ClockError>
    ensures ok { IfOk result (IsOn own.now word.now) }
    ensures fits { IfOk result (λ w. IsOnTooLong own.now word.now → ⊥) }
    ensures stored { IfOk result IsStored }
    ensures refused { IfErr result (λ e. (e ≡ err.OutOfMemory) ⊎ ((e ≡ err.Limit lim.Word) × IsOnTooLong own.now word.now)) }
{
    match lucy_word::sampled(alloc, own, word)? {
        Some(word) => Ok(word),
        None => Err(ClockError::Limit(Limit::Word)),
    }
}

// What a merge hands down to its first operand, or to its second.
fn merged(alloc: Global, word: &Word, own: &Word, first: bool) -> Result<Word, ClockError>
    requires { HasZero word.now }
    ensures ok { IfOk result (IsOn own.now (sampling_word (not first) word.now)) }
    ensures stored { IfOk result IsStored }
    ensures refused { IfErr result (λ e. (e ≡ err.OutOfMemory) ⊎ ((e ≡ err.Limit lim.Word) × IsOnTooLong own.now (sampling_word (not first) word.now))) }
{
    if first {
        return sampled(alloc, own, word);
    }
    let word = turned(alloc, word)?;
    sampled(alloc, own, &word)
}

/// The word that a place of a kind, with its own word, hands down to one of its operands.
pub(crate) fn handed(
    alloc: Global,
    kind: &PlaceKind,
    own: &Word,
    to: u32,
) -> Result<Word, ClockError>
    requires zero { HasTurned kind.now }
    requires among { IsAmong (operands_of kind.now) to }
    requires once { (j k : ℕ) → slice_get (operands_of kind.now) j ≡ Some to → slice_get (operands_of kind.now) k ≡ Some to → j ≡ k }
    ensures ok { IfOk result (λ w. (k : ℕ) → slice_get (operands_of kind.now) k ≡ Some to → Hands kind.now k own.now w) }
    ensures stored { IfOk result IsStored }
    ensures refused { IfErr result (λ e. (e ≡ err.OutOfMemory) ⊎ ((e ≡ err.Limit lim.Word) × HandsTooLong kind.now own.now)) }
{
    match kind {
        PlaceKind::Merge(word, one, _) => merged(alloc, word, own, *one == to),
        _ => Ok(own.copy(alloc)?),
    }
}

// Whether a prefix and a period of these lengths are together too long.
fn is_past(prefix: u64, period: u64) -> bool
    ensures { IsTrue result ↔ (most_bits < prefix + period) }
{
    let most = Limit::Word.number();
    prefix > most || period > most - prefix
}

/// Whether a clock on a word is computed with more bits than `Limit::Word` allows, which is known before any is made.
pub fn is_too_long(own: &Word, word: &Word) -> bool
    ensures { IsTrue result ↔ IsOnTooLong own.now word.now }
{
    let (prefix, _) = own.lengths();
    let (read, period) = word.lengths();
    let (ones, turn) = own.rate();
    match own.index(read) {
        None => true,
        Some(place) => is_past(prefix.max(place), lcm(ones, period) / ones * turn),
    }
}

// What a merge hands down to one operand is computed with as many bits as what it hands down to the other.
fn test_merge(word: &Word, own: &Word) -> Result<(), ClockError>
    ensures first { OnOk result (IsOnTooLong own.now word.now → ⊥) }
    ensures second { OnOk result (IsOnTooLong own.now (turned word.now) → ⊥) }
    ensures refused { IfErr result (λ e. (e ≡ err.Limit lim.Word) × (IsOnTooLong own.now word.now ⊎ IsOnTooLong own.now (turned word.now))) }
{
    if is_too_long(own, word) {
        return Err(ClockError::Limit(Limit::Word));
    }
    Ok(())
}

/// Tests that what a place of a kind hands down, with its own word, isn't too long. An operand may be a name that has a word
/// of its own: what would be handed down to it is looked at all the same.
pub fn test_handed(kind: &PlaceKind, own: &Word) -> Result<(), ClockError>
    ensures ok { OnOk result (HandsTooLong kind.now own.now → ⊥) }
    ensures refused { IfErr result (λ e. (e ≡ err.Limit lim.Word) × HandsTooLong kind.now own.now) }
{
    match kind {
        PlaceKind::Merge(word, _, _) => test_merge(word, own),
        _ => Ok(()),
    }
}
