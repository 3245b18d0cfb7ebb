// The clocks of a node, step by step: a shape, its inequalities, their earliest solution, its words, and the sizes of the buffers.
ghost use Rattle.std.specs.Prelude.{ℕ, List, ◌≡◌, ◌⊎◌, ◌≤◌, length, IfOk, IfErr, MatchResult, Vec};
ghost use Rattle.std.specs.Global.{Global};
ghost use Rattle.std.specs.List.{AllByRecursion};
ghost use Rattle.lucy_word.specs.Bits.{Bits};
ghost use Rattle.lucy_word.specs.Always.{always};
ghost use Rattle.lucy_need.specs.Meeting.{assigned, AreProperNeeds, MeetsAll};
ghost use Rattle.lucy_need.specs.Stored.{HasWords};
ghost use Rattle.lucy_check.specs.Passing.{AllWithinLimits};
ghost use Rattle.lucy_solve.specs.System.{IsEarliest};
ghost use Rattle.lucy_shape.specs.Fitting.{IsShapeFor};
ghost use Rattle.lucy_shape.specs.Inequalities.{system_of, SolvesShape};
ghost use Rattle.lucy_rates.specs.Walks.{IsUnequalWalk};
ghost use Rattle.lucy_inference.specs.Inference.{AreFewInequalities, AreInferredWords, IsInference};
ghost use Rattle.lucy_inference.specs.Refusals.{OrNoMemory, RefusesIn, RefusesInference, AreAlike};
ghost use Rattle.lucy_inference.specs.Stages.{AreAllUsed, IsInferenceIn};
ghost use Rattle.lucy_inference.specs.declared.refusal.Uninferred.{Uninferred as Refusal};
ghost use Rattle.lucy_inference.specs.declared.refusal.Uninferred.TheVariants as refusal;

use crate::refusal::Uninferred;
use lucy_check::{CheckFault, check};
use lucy_need::{Needs, needs_have_words};
use lucy_rates::rates;
use lucy_shape::{Shape, spread, words_of};
use lucy_solve::{Outcome, solve};
use lucy_word::Word;
use std::alloc::Global;

/// The clocks of a node: the word of each clock by its number, the base first, and the sizes of the buffers in items, one for
/// each need of adaptability in order.
#[derive(Drop)]
pub struct Inferred {
    pub words: Vec<Word>,
    pub sizes: Vec<u64>,
}

// The words, with the sizes of the buffers. They meet the needs, so that the checker finds nothing but a passed limit.
fn measured(
    alloc: Global,
    needs: &Needs,
    shape: &Shape,
    words: Vec<Word>,
) -> Result<Inferred, Uninferred>
    requires proper { AreProperNeeds needs.now }
    requires words { AreInferredWords needs.now shape.now words.items }
    ensures inferred { IfOk result (λ found. IsInferenceIn needs.now shape.now found.words.items found.sizes.items) }
    ensures refused { IfErr result (OrNoMemory (RefusesIn needs.now shape.now)) }
{
    match check(alloc, needs, &words) {
        Ok(sizes) => Ok(Inferred { words, sizes }),
        Err(CheckFault::Limit { need: _, limit }) => Err(Uninferred::Limit(limit)),
        Err(CheckFault::OutOfMemory) => Err(Uninferred::OutOfMemory),
        Err(CheckFault::Differs { .. } | CheckFault::Rates { .. } | CheckFault::Late { .. }) => {
            unreachable!()
        }
    }
}

// The clocks whose ones stand at the earliest solution of the inequalities.
fn placed(
    alloc: Global,
    needs: &Needs,
    shape: &Shape,
    positions: &[i64],
) -> Result<Inferred, Uninferred>
    requires proper { AreProperNeeds needs.now }
    requires words { AllByRecursion HasWords needs.now.list }
    requires shape { IsShapeFor needs.now shape.now }
    requires used { AreAllUsed shape.now }
    requires few { AreFewInequalities needs.now shape.now }
    requires earliest { IsEarliest (system_of needs.now shape.now) positions.now }
    requires solves { SolvesShape shape.now positions.now }
    ensures inferred { IfOk result (λ found. IsInferenceIn needs.now shape.now found.words.items found.sizes.items) }
    ensures refused { IfErr result (OrNoMemory (RefusesIn needs.now shape.now)) }
{
    let words = words_of(alloc, shape, positions)?;
    measured(alloc, needs, shape, words)
}

// The clocks in a shape.
fn shaped(alloc: Global, needs: &Needs, shape: Shape) -> Result<Inferred, Uninferred>
    requires proper { AreProperNeeds needs.now }
    requires words { AllByRecursion HasWords needs.now.list }
    requires shape { IsShapeFor needs.now shape }
    requires used { AreAllUsed shape }
    ensures inferred { IfOk result (λ found. IsInferenceIn needs.now shape found.words.items found.sizes.items) }
    ensures refused { IfErr result (OrNoMemory (RefusesIn needs.now shape)) }
{
    let diffs = spread(alloc, needs, &shape)?;
    match solve(alloc, &diffs)? {
        Outcome::Earliest(positions) => placed(alloc, needs, &shape, &positions),
        Outcome::Cycle(cycle) => Err(Uninferred::Clocks {
            shape,
            diffs,
            cycle,
        }),
    }
}

/// The clocks of needs in the shape that they have with this scale and this lead, each from 1 to 64: the earliest words that
/// fit the shape and meet the needs, with (1) for the base. Else the first of these that holds: a rate passes `Rate`; a need
/// isn't balanced (`Rates`); the shape passes `Positions`; its inequalities pass `Inequalities`; no words fit the shape and meet
/// the needs (`Clocks`); a word passes `Word`; all words pass `Bits`; a need passes a limit of the checker.
pub fn infer(alloc: Global, needs: &Needs, scale: u64, lead: u64) -> Result<Inferred, Uninferred>
    requires proper { AreProperNeeds needs.now }
    requires scale { 1 ≤ scale }
    requires scale_few { scale ≤ 64 }
    requires lead { 1 ≤ lead }
    requires lead_few { lead ≤ 64 }
    ensures inferred { IfOk result (λ found. IsInference needs.now scale lead found.words.items found.sizes.items) }
    ensures refused { IfErr result (OrNoMemory (RefusesInference needs.now scale lead)) }
    ensures accepted { (words : List Bits) (sizes : List ℕ) → IsInference needs.now scale lead words sizes → MatchResult result (λ found. (found.words.items ≡ words) × (found.sizes.items ≡ sizes)) (λ e. e ≡ refusal.OutOfMemory) }
    ensures only { (e : Refusal) → RefusesInference needs.now scale lead e → MatchResult result (λ found. ⊥) (λ f. (f ≡ refusal.OutOfMemory) ⊎ AreAlike f e) }
    ensures met { IfOk result (λ found. MeetsAll (assigned found.words.items) needs.now.list) }
    ensures within { IfOk result (λ found. AllWithinLimits (assigned found.words.items) needs.now.list) }
    ensures base { IfOk result (λ found. assigned found.words.items 0 ≡ always) }
    ensures unequal { IfErr result (λ e. (walk : Vec ℕ Global) → e ≡ refusal.Rates walk → IsUnequalWalk needs.now.list walk.items) }
{
    needs_have_words(needs);
    let shape = rates(alloc, needs, scale, lead)?;
    shaped(alloc, needs, shape)
}
