// The least size of a buffer, its clocks and its evidence.
ghost use Rattle.std.specs.Prelude.{ℕ, ℤ, List, [], ◌≡◌, ◌⊎◌, ◌-◌, ◌<◌, ◌≤◌, length, IfOk, IfErr, MatchResult};
ghost use Rattle.std.specs.List.{AllByRecursion, Contains};
ghost use Rattle.lucy_word.specs.Adaptable.{IsSize};
ghost use Rattle.lucy_word.specs.Bits.{most_bits};
ghost use Rattle.lucy_word.specs.declared.limit.Limit.TheVariants as limit;
ghost use Rattle.lucy_need.specs.Meeting.{Assignment, MeetsAll, alone, assigned};
ghost use Rattle.lucy_need.specs.Stored.{HasWords};
ghost use Rattle.lucy_need.specs.declared.need.Need.TheVariants.{Adapt};
ghost use Rattle.lucy_solve.specs.System.{IsNegativeCycle};
ghost use Rattle.lucy_shape.specs.declared.shape.RateFault.TheVariants as fault;
ghost use Rattle.lucy_shape.specs.Fitting.{IsShapeFor, IsFitting};
ghost use Rattle.lucy_shape.specs.Sized.{sized_system, MeetsWithin};
ghost use Rattle.lucy_shape.specs.Writing.{AreAnswered, AreRefused};
ghost use Rattle.lucy_tight.specs.Least.{IsLeast, IsEarliestAtLeast, IsTightest, RefusesTightest};
ghost use Rattle.lucy_tight.specs.declared.answer.TightError.{TightError as Refusal};
ghost use Rattle.lucy_tight.specs.declared.answer.TightError.TheVariants as error;

use crate::search::search;
use crate::sizes::{Trial, try_size};
use crate::{TightError, Tightest};
use lucy_need::{Needs, needs_have_words};
use lucy_shape::{RateFault, Shape, words_of};
use lucy_solve::{Diffs, Outcome};
use lucy_word::Word;
use std::alloc::Global;

// The words that have their ones at the earliest solution for the least size.
fn words_at(
    alloc: Global,
    needs: &Needs,
    shape: &Shape,
    from: u32,
    to: u32,
    least: u64,
    positions: &[i64],
) -> Result<Vec<Word>, TightError>
    requires shape { IsShapeFor needs.now shape.now }
    requires earliest { IsEarliestAtLeast needs.now shape.now from to least positions.now }
    ensures words { IfOk result (λ words. AreAnswered shape.now positions.now words.items) }
    ensures refused { IfErr result (λ e. (e ≡ error.OutOfMemory) ⊎ RefusesTightest needs.now shape.now from to e) }
{
    match words_of(alloc, shape, positions) {
        Ok(words) => Ok(words),
        Err(RateFault::Limit(limit)) => Err(TightError::Limit(limit)),
        Err(RateFault::OutOfMemory) => Err(TightError::OutOfMemory),
        Err(RateFault::Unequal(_)) => unreachable!(),
    }
}

// The earliest words for the least size.
fn earliest(
    alloc: Global,
    needs: &Needs,
    shape: &Shape,
    from: u32,
    to: u32,
    least: u64,
) -> Result<Vec<Word>, TightError>
    requires shape { IsShapeFor needs.now shape.now }
    requires buffer { Contains needs.now.list (Adapt (alone from) (alone to)) }
    requires size { least ≤ most_bits }
    requires least { IsLeast needs.now shape.now from to least }
    ensures words { IfOk result (λ words. (xs : List ℤ) × IsEarliestAtLeast needs.now shape.now from to least xs × AreAnswered shape.now xs words.items) }
    ensures refused { IfErr result (λ e. (e ≡ error.OutOfMemory) ⊎ RefusesTightest needs.now shape.now from to e) }
{
    let Trial { diffs: _, outcome } = try_size(alloc, needs, shape, from, to, least)?;
    match outcome {
        Outcome::Earliest(positions) => {
            words_at(alloc, needs, shape, from, to, least, &positions)
        }
        Outcome::Cycle(_) => unreachable!(),
    }
}

// The inequalities of one less, with the cycle that shows that they have no solution; for size 0 those of 0, and no cycle.
fn evidence(
    alloc: Global,
    needs: &Needs,
    shape: &Shape,
    from: u32,
    to: u32,
    least: u64,
) -> Result<(Diffs, Vec<u32>), TightError>
    requires shape { IsShapeFor needs.now shape.now }
    requires buffer { Contains needs.now.list (Adapt (alone from) (alone to)) }
    requires size { least ≤ most_bits }
    requires least { IsLeast needs.now shape.now from to least }
    ensures diffs { IfOk result (λ r. r.0 ≡ sized_system needs.now shape.now from to (least - 1)) }
    ensures cycle { IfOk result (λ r. 0 < least → IsNegativeCycle r.0.list r.1.items) }
    ensures none { IfOk result (λ r. least ≡ 0 → r.1.items ≡ []) }
    ensures refused { IfErr result (λ e. (e ≡ error.OutOfMemory) ⊎ RefusesTightest needs.now shape.now from to e) }
{
    let Trial { diffs, outcome } = try_size(
        alloc,
        needs,
        shape,
        from,
        to,
        least.saturating_sub(1),
    )?;
    match outcome {
        Outcome::Earliest(_) => Ok((diffs, Vec::new(alloc))),
        Outcome::Cycle(cycle) => Ok((diffs, cycle)),
    }
}

/// The least size of the buffer that is written on clock `from` and read on clock `to`, among all clocks that fit the shape and meet
/// the needs, in items; with the earliest clocks that have it, and the inequalities and a cycle of them that show that one less is
/// too small. `printed` is a size, at most 2^20, within which some such clocks keep. `Limit(Inequalities)` comes exactly where the
/// inequalities of a size, as many for each, pass that limit; else `Limit(Word)`, and then `Limit(Bits)`, exactly where the words of
/// the earliest clocks pass them, as in `words_of`. The time is that of some twenty solutions of the inequalities.
pub fn least_size(
    alloc: Global,
    needs: &Needs,
    shape: &Shape,
    from: u32,
    to: u32,
    printed: u64,
) -> Result<Tightest, TightError>
    requires shape { IsShapeFor needs.now shape.now }
    requires buffer { Contains needs.now.list (Adapt (alone from) (alone to)) }
    requires size { printed ≤ most_bits }
    requires kept { (w : Assignment) × IsFitting shape.now w × MeetsWithin needs.now from to printed w }
    ensures tightest { IfOk result (λ t. IsTightest needs.now shape.now from to t.least t.words.items t.diffs t.cycle.items) }
    ensures within { IfOk result (λ t. t.least ≤ printed) }
    ensures reached { IfOk result (λ t. IsFitting shape.now (assigned t.words.items) × MeetsAll (assigned t.words.items) needs.now.list × IsSize (assigned t.words.items from) (assigned t.words.items to) t.least) }
    ensures smallest { IfOk result (λ t. (w : Assignment) (size : ℕ) → IsFitting shape.now w → MeetsWithin needs.now from to size w → t.least ≤ size) }
    ensures refused { IfErr result (λ e. (e ≡ error.OutOfMemory) ⊎ RefusesTightest needs.now shape.now from to e) }
    ensures only { (e : Refusal) → RefusesTightest needs.now shape.now from to e → MatchResult result (λ _. ⊥) (λ f. (f ≡ error.OutOfMemory) ⊎ (f ≡ e)) }
{
    needs_have_words(needs);
    let least = search(alloc, needs, shape, from, to, printed)?;
    let words = earliest(alloc, needs, shape, from, to, least)?;
    let (diffs, cycle) = evidence(alloc, needs, shape, from, to, least)?;
    Ok(Tightest {
        least,
        words,
        diffs,
        cycle,
    })
}
