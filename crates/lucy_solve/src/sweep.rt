// Visits of variables, each of which tries the inequalities from it. A variable is visited again only where it moved since.
ghost use Rattle.std.specs.Prelude.{◌≤◌, length, IfOk};
ghost use Rattle.lucy_solve.specs.System.{most_inequalities};
ghost use Rattle.lucy_solve.specs.Search.{IsReached, AreWithin, most_swept, IsSwept};

use crate::Diffs;
use crate::flow::Flow;
use crate::lift::lift_from_low;
use crate::moved::Moved;
use crate::order::Walk;
use std::alloc::{AllocError, Global};

// After so many visits for each variable a sweep ends, so that a circle of parents is looked for.
const MOST_VISITS: usize = 2;

// The inequalities at these positions, which are those from one variable.
fn visit(
    diffs: &Diffs,
    values: &mut [u64],
    parents: &mut [u32],
    positions: &[usize],
    moved: &mut Moved,
) -> Result<(), AllocError>
    requires reached { IsReached diffs.now values.old parents.old }
    requires within { AreWithin values.old most_swept }
    requires few { length diffs.now.list ≤ most_inequalities }
    ensures swept { IfOk result (λ _. IsSwept diffs.now values.old values.new parents.new) }
{
    for position in positions {
        if let Some(variable) = lift_from_low(diffs, values, parents, *position) {
            moved.push(variable)?;
        }
    }
    Ok(())
}

// Visits of the variables that moved, and of those that they lift, as far as these come later in the order.
fn round(
    diffs: &Diffs,
    values: &mut [u64],
    parents: &mut [u32],
    flow: &Flow,
    walk: &mut Walk,
    moved: &mut Moved,
) -> Result<(), AllocError>
    requires reached { IsReached diffs.now values.old parents.old }
    requires within { AreWithin values.old most_swept }
    requires few { length diffs.now.list ≤ most_inequalities }
    ensures swept { IfOk result (λ _. IsSwept diffs.now values.old values.new parents.new) }
{
    walk.go(diffs, values, flow, moved)?;
    moved.clear_list();
    for variable in walk.done().iter().rev() {
        if moved.has(*variable) {
            moved.remove(*variable);
            visit(diffs, values, parents, flow.from(*variable), moved)?;
        }
    }
    Ok(())
}

// Rounds until no variable moves, or after many visits. Each round has one at least.
pub(crate) fn sweep(
    alloc: Global,
    diffs: &Diffs,
    values: &mut [u64],
    parents: &mut [u32],
    flow: &Flow,
) -> Result<(), AllocError>
    requires reached { IsReached diffs.now values.old parents.old }
    requires within { AreWithin values.old most_swept }
    requires few { length diffs.now.list ≤ most_inequalities }
    ensures swept { IfOk result (λ _. IsSwept diffs.now values.old values.new parents.new) }
{
    let mut moved = Moved::all(alloc, flow.count())?;
    let mut walk = Walk::new(alloc, flow.count())?;
    let most = flow.count().saturating_mul(MOST_VISITS);
    let mut visits = 0usize;
    'rounds: for _ in 0..most {
        if visits >= most || moved.list().is_empty() {
            return Ok(());
        }
        round(diffs, values, parents, flow, &mut walk, &mut moved)?;
        visits = visits.saturating_add(walk.done().len());
    }
    Ok(())
}
