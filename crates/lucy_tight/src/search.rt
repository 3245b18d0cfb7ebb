// The search for the least size, by halves.
ghost use Rattle.std.specs.Prelude.{ℕ, ℤ, List, ◌≡◌, ◌⊎◌, ◌<◌, ◌≤◌, length, true, false, IfOk, IfErr};
ghost use Rattle.std.specs.List.{AllByRecursion, Contains};
ghost use Rattle.lucy_word.specs.Bits.{most_bits};
ghost use Rattle.lucy_word.specs.declared.limit.Limit.TheVariants as limit;
ghost use Rattle.lucy_need.specs.Meeting.{alone};
ghost use Rattle.lucy_need.specs.Stored.{HasWords};
ghost use Rattle.lucy_need.specs.declared.need.Need.TheVariants.{Adapt};
ghost use Rattle.lucy_solve.specs.System.{Solves, HasNoSolution};
ghost use Rattle.lucy_shape.specs.Fitting.{IsShapeFor};
ghost use Rattle.lucy_shape.specs.Sized.{sized_system};
ghost use Rattle.lucy_tight.specs.Least.{HasTooManyInequalities, IsLeast};
ghost use Rattle.lucy_tight.specs.declared.answer.TightError.TheVariants as error;

use crate::TightError;
use crate::sizes::try_size;
use lucy_need::Needs;
use lucy_shape::Shape;
use lucy_solve::Outcome;
use std::alloc::Global;

// Whether the inequalities of a size have a solution.
fn has_solution(
    alloc: Global,
    needs: &Needs,
    shape: &Shape,
    from: u32,
    to: u32,
    size: u64,
) -> Result<bool, TightError>
    requires shape { IsShapeFor needs.now shape.now }
    requires buffer { Contains needs.now.list (Adapt (alone from) (alone to)) }
    requires size { size ≤ most_bits }
    ensures some { IfOk result (λ b. b ≡ true → (xs : List ℤ) × Solves (sized_system needs.now shape.now from to size) xs) }
    ensures none { IfOk result (λ b. b ≡ false → HasNoSolution (sized_system needs.now shape.now from to size)) }
    ensures refused { IfErr result (λ e. (e ≡ error.OutOfMemory) ⊎ ((e ≡ error.Limit limit.Inequalities) × HasTooManyInequalities needs.now shape.now from to)) }
{
    match try_size(alloc, needs, shape, from, to, size)?.outcome {
        Outcome::Earliest(_) => Ok(true),
        Outcome::Cycle(_) => Ok(false),
    }
}

/// The least size for which the inequalities have a solution, as they have for `printed`.
pub(crate) fn search(
    alloc: Global,
    needs: &Needs,
    shape: &Shape,
    from: u32,
    to: u32,
    printed: u64,
) -> Result<u64, TightError>
    requires shape { IsShapeFor needs.now shape.now }
    requires words { AllByRecursion HasWords needs.now.list }
    requires buffer { Contains needs.now.list (Adapt (alone from) (alone to)) }
    requires size { printed ≤ most_bits }
    requires solved { (xs : List ℤ) × Solves (sized_system needs.now shape.now from to printed) xs }
    ensures least { IfOk result (IsLeast needs.now shape.now from to) }
    ensures within { IfOk result (λ least. least ≤ printed) }
    ensures refused { IfErr result (λ e. (e ≡ error.OutOfMemory) ⊎ ((e ≡ error.Limit limit.Inequalities) × HasTooManyInequalities needs.now shape.now from to)) }
{
    let mut low = 0u64;
    let mut high = printed;
    while low < high {
        let middle = low + (high - low) / 2;
        if has_solution(alloc, needs, shape, from, to, middle)? {
            high = middle;
        } else {
            low = middle + 1;
        }
    }
    Ok(high)
}
