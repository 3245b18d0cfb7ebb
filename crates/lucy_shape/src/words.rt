// The words of positions.
ghost use Rattle.std.specs.Prelude.{ℕ, List, ◌≡◌, ◌⊎◌, ◌+◌, ◌<◌, ◌≤◌, ◌↔◌, length, true, IfOk, IfErr, IsTrue};
ghost use Rattle.lucy_word.specs.Shortest.{IsShortForm};
ghost use Rattle.lucy_word.specs.Stored.{IsStored};
ghost use Rattle.lucy_word.specs.declared.limit.Limit.TheVariants as limit;
ghost use Rattle.lucy_need.specs.Meeting.{assigned};
ghost use Rattle.lucy_shape.specs.declared.shape.RateFault.TheVariants as fault;
ghost use Rattle.lucy_shape.specs.Fitting.{IsLaidOut, IsFitting, ArePositions};
ghost use Rattle.lucy_shape.specs.Rows.{SolvesClock};
ghost use Rattle.lucy_shape.specs.Inequalities.{SolvesShape};
ghost use Rattle.lucy_shape.specs.WordOf.{written_word};
ghost use Rattle.lucy_shape.specs.Writing.{IsWordOf, IsWrittenLong, AreAnswered, AreRefused};
ghost use Rattle.lucy_shape.specs.Marking.{IsSolved, PassesFirst};

use crate::marking::{marks, part, start_of};
use crate::{ClockShape, RateFault, Shape};
use lucy_need::always;
use lucy_word::{Limit, Word};
use std::alloc::Global;

// Whether a clock's word is written with more bits than a word may have.
fn is_long(clock: &ClockShape, period: u64, positions: &[i64]) -> bool
    requires { IsSolved period clock.now positions.now }
    ensures { IsTrue result ↔ IsWrittenLong period clock.now positions.now }
{
    let turn = part(positions, clock.first as usize + clock.lead as usize, 1);
    let before = start_of(turn) - 1;
    let most = Limit::Word.number();
    before > most || period > most - before
}

// The word of a clock that has positions.
fn written(
    alloc: Global,
    clock: &ClockShape,
    period: u64,
    positions: &[i64],
) -> Result<Word, RateFault>
    requires { IsSolved period clock.now positions.now }
    ensures ok { IfOk result (IsShortForm (written_word period clock.now positions.now)) }
    ensures stored { IfOk result IsStored }
    ensures short { IfOk result (λ _. IsWrittenLong period clock.now positions.now → ⊥) }
    ensures refused { IfErr result (λ e. (e ≡ fault.OutOfMemory) ⊎ ((e ≡ fault.Limit limit.Word) × IsWrittenLong period clock.now positions.now)) }
{
    if is_long(clock, period, positions) {
        return Err(RateFault::Limit(Limit::Word));
    }
    let first = clock.first as usize;
    let lead = clock.lead as usize;
    let low = part(positions, first, lead);
    let high = part(positions, first + lead, clock.ones as usize);
    let start = start_of(high);
    let before = start - 1;
    let prefix = marks(alloc, before, low, 1)?;
    let turn = marks(alloc, period, high, start)?;
    // Its bits are few and its period has a one, so that only memory can be wanting.
    match Word::from_bits(alloc, &prefix, &turn) {
        Ok(word) => Ok(word),
        Err(_) => Err(RateFault::OutOfMemory),
    }
}

// The word of a clock: (1) where it has no positions.
fn clock_word(
    alloc: Global,
    clock: &ClockShape,
    period: u64,
    positions: &[i64],
) -> Result<Word, RateFault>
    requires { clock.now.used ≡ true → IsSolved period clock.now positions.now }
    ensures ok { IfOk result (IsWordOf period clock.now positions.now) }
    ensures stored { IfOk result IsStored }
    ensures short { IfOk result (λ _. clock.now.used ≡ true → IsWrittenLong period clock.now positions.now → ⊥) }
    ensures refused { IfErr result (λ e. (e ≡ fault.OutOfMemory) ⊎ ((e ≡ fault.Limit limit.Word) × (clock.now.used ≡ true) × IsWrittenLong period clock.now positions.now)) }
{
    if clock.used {
        return written(alloc, clock, period, positions);
    }
    match always(alloc) {
        Ok(word) => Ok(word),
        Err(_) => Err(RateFault::OutOfMemory),
    }
}

// The limit that is passed where the words have too many bits together: `Word` where one of them is written too long.
fn limit_of(shape: &Shape, positions: &[i64]) -> Limit
    requires laid { IsLaidOut shape.now }
    requires solves { SolvesShape shape.now positions.now }
    ensures { PassesFirst shape.now positions.now result }
{
    for clock in shape.clocks.list() {
        if clock.used && is_long(clock, shape.period, positions) {
            return Limit::Word;
        }
    }
    Limit::Bits
}

/// The words of the clocks of a shape, by their numbers, from numbers that meet its bounds, neighbours and periods: the k-th
/// one of a clock stands at its k-th position. `Limit(Word)` comes exactly where a clock's word, as it is written before it is
/// brought into shortest form, has more bits than that limit allows; else `Limit(Bits)` exactly where the words, in shortest
/// form, have more together than that limit allows. No more words are made than have so many bits. It never answers `Unequal`.
pub fn words_of(alloc: Global, shape: &Shape, positions: &[i64]) -> Result<Vec<Word>, RateFault>
    requires laid { IsLaidOut shape.now }
    requires solves { SolvesShape shape.now positions.now }
    ensures words { IfOk result (λ words. AreAnswered shape.now positions.now words.items) }
    ensures stored { IfOk result (λ words. (c : ℕ) → c < length words.items → IsStored (assigned words.items c)) }
    ensures refused { IfErr result (AreRefused shape.now positions.now) }
    ensures fitting { IfOk result (λ words. IsFitting shape.now (assigned words.items)) }
    ensures positions { IfOk result (λ words. ArePositions shape.now (assigned words.items) positions.now) }
{
    let mut words = Vec::new(alloc);
    let mut left = Limit::Bits.number();
    for clock in shape.clocks.list() {
        let word = clock_word(alloc, clock, shape.period, positions)?;
        let (prefix, period) = word.lengths();
        if prefix + period > left {
            return Err(RateFault::Limit(limit_of(shape, positions)));
        }
        left -= prefix + period;
        words.push(word)?;
    }
    Ok(words)
}
