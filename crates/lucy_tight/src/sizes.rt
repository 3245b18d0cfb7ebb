// One size: its inequalities, and what they come to.
ghost use Rattle.std.specs.Prelude.{ℕ, ℤ, List, ◌≡◌, ◌⊎◌, ◌<◌, ◌≤◌, ◌↔◌, length, IfOk, IfErr, IsTrue};
ghost use Rattle.std.specs.List.{Contains};
ghost use Rattle.lucy_word.specs.Bits.{most_bits};
ghost use Rattle.lucy_word.specs.declared.limit.Limit.TheVariants as limit;
ghost use Rattle.lucy_need.specs.Meeting.{alone};
ghost use Rattle.lucy_need.specs.declared.need.Need.TheVariants.{Adapt};
ghost use Rattle.lucy_solve.specs.System.{Solves, IsGrounded};
ghost use Rattle.lucy_solve.specs.Outcomes.{IsOutcome};
ghost use Rattle.lucy_shape.specs.Fitting.{IsShapeFor};
ghost use Rattle.lucy_shape.specs.Inequalities.{SolvesShape};
ghost use Rattle.lucy_shape.specs.Sized.{sized_system};
ghost use Rattle.lucy_tight.specs.Least.{HasTooManyInequalities};
ghost use Rattle.lucy_tight.specs.declared.answer.TightError.TheVariants as error;

use crate::TightError;
use lucy_need::Needs;
use lucy_shape::{RateFault, Shape, spread_sized};
use lucy_solve::{Diffs, Outcome, solve};
use std::alloc::Global;

/// The inequalities of a size, with their earliest solution or a negative cycle.
#[derive(Drop)]
pub(crate) struct Trial {
    pub diffs: Diffs,
    pub outcome: Outcome,
}

// The inequalities of a size.
fn inequalities(
    alloc: Global,
    needs: &Needs,
    shape: &Shape,
    from: u32,
    to: u32,
    size: u64,
) -> Result<Diffs, TightError>
    requires shape { IsShapeFor needs.now shape.now }
    requires buffer { Contains needs.now.list (Adapt (alone from) (alone to)) }
    requires size { size ≤ most_bits }
    ensures list { IfOk result (λ diffs. diffs ≡ sized_system needs.now shape.now from to size) }
    ensures ready { IfOk result IsGrounded }
    ensures few { IfOk result (λ _. HasTooManyInequalities needs.now shape.now from to → ⊥) }
    ensures solved { IfOk result (λ diffs. (xs : List ℤ) → Solves diffs xs → SolvesShape shape.now xs) }
    ensures refused { IfErr result (λ e. (e ≡ error.OutOfMemory) ⊎ ((e ≡ error.Limit limit.Inequalities) × HasTooManyInequalities needs.now shape.now from to)) }
{
    match spread_sized(alloc, needs, shape, from, to, size) {
        Ok(diffs) => Ok(diffs),
        Err(RateFault::Limit(limit)) => Err(TightError::Limit(limit)),
        Err(RateFault::OutOfMemory) => Err(TightError::OutOfMemory),
        Err(RateFault::Unequal(_)) => unreachable!(),
    }
}

/// What the inequalities of a size come to.
pub(crate) fn try_size(
    alloc: Global,
    needs: &Needs,
    shape: &Shape,
    from: u32,
    to: u32,
    size: u64,
) -> Result<Trial, TightError>
    requires shape { IsShapeFor needs.now shape.now }
    requires buffer { Contains needs.now.list (Adapt (alone from) (alone to)) }
    requires size { size ≤ most_bits }
    ensures list { IfOk result (λ t. t.diffs ≡ sized_system needs.now shape.now from to size) }
    ensures outcome { IfOk result (λ t. IsOutcome (sized_system needs.now shape.now from to size) t.outcome) }
    ensures few { IfOk result (λ _. HasTooManyInequalities needs.now shape.now from to → ⊥) }
    ensures solved { IfOk result (λ _. (xs : List ℤ) → Solves (sized_system needs.now shape.now from to size) xs → SolvesShape shape.now xs) }
    ensures refused { IfErr result (λ e. (e ≡ error.OutOfMemory) ⊎ ((e ≡ error.Limit limit.Inequalities) × HasTooManyInequalities needs.now shape.now from to)) }
{
    let diffs = inequalities(alloc, needs, shape, from, to, size)?;
    let outcome = solve(alloc, &diffs)?;
    Ok(Trial { diffs, outcome })
}
