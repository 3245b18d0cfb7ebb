ghost use Rattle.std.specs.Prelude.{◌≡◌, ◌<◌, ◌≤◌, ◌^◌, ◌↔◌, length, map, pos, IfOk, MatchOption};
ghost use Rattle.std.specs.List.{All};
ghost use Rattle.lucy_solve.specs.System.{IsSystem, IsGrounded, IsEarliest, HasNoSolution, most_inequalities};
ghost use Rattle.lucy_solve.specs.Outcomes.{IsOutcome, IsCycle, IsRefutedBy};
ghost use Rattle.lucy_solve.specs.Search.{IsReached, AreWithin, most_swept};

use crate::Diffs;
use crate::cycle::find_cycle;
use crate::flow::Flow;
use crate::pass::pass;
use crate::sweep::sweep;
use std::alloc::{AllocError, Global};

/// What a system of inequalities comes to.
#[derive(Drop)]
pub enum Outcome {
    /// Its earliest solution: the value of each variable, 0 for the origin.
    Earliest(Vec<i64>),
    /// It has no solution. These are the positions, counted from 0, of inequalities that no values meet together: the
    /// right variable of each is the left one of the next, and that of the last is the left one of the first.
    Cycle(Vec<u32>),
}

// No position of an inequality: the variable has no parent.
const NONE: u32 = u32::MAX;

// From this pass on a sweep follows each.
const FIRST_PASSES: u32 = 4;

// Passes over the inequalities, in both directions in turn, until none lifts a variable or some parents are a circle. Where a few passes
// don't do, a sweep of the variables follows each.
fn settle(
    alloc: Global,
    diffs: &Diffs,
    values: &mut [u64],
    parents: &mut [u32],
) -> Result<Option<Vec<u32>>, AllocError>
    requires reached { IsReached diffs.now values.old parents.old }
    requires within { AreWithin values.old (length diffs.now.list) }
    requires proper { IsSystem diffs.now }
    requires few { length diffs.now.list ≤ most_inequalities }
    ensures settled { IfOk result (λ o. MatchOption o (IsEarliest diffs.now (map pos values.new)) (λ cycle. IsRefutedBy diffs.now cycle.items)) }
    ensures within { IfOk result (λ _. AreWithin values.new most_swept) }
{
    let mut backwards = false;
    let mut passes = 0u32;
    let mut flow = Flow::none(alloc);
    'passes: while pass(diffs, values, parents, backwards) {
        backwards = !backwards;
        passes = passes.saturating_add(1);
        if passes == FIRST_PASSES {
            flow = Flow::of(alloc, diffs)?;
        }
        sweep(alloc, diffs, values, parents, &flow)?;
        let mut marks = vec![in alloc; 0u32; parents.len()]?;
        if let Some(cycle) = find_cycle(alloc, diffs, parents, &mut marks)? {
            return Ok(Some(cycle));
        }
    }
    Ok(None)
}

fn signed(alloc: Global, values: &[u64]) -> Result<Vec<i64>, AllocError>
    requires { All (λ x. x < 2 ^ 63) values.now }
    ensures { IfOk result (λ v. v.items ≡ map pos values.now) }
{
    let mut list = Vec::with_capacity(alloc, values.len())?;
    for value in values {
        list.push(*value as i64)?;
    }
    Ok(list)
}

/// The earliest solution: each variable has the least value that it has in any. Where there is no solution, a cycle of
/// inequalities that shows it, which `confirm_cycle` confirms. Want of memory says nothing of the inequalities.
pub fn solve(alloc: Global, diffs: &Diffs) -> Result<Outcome, AllocError>
    requires { IsGrounded diffs.now }
    ensures is { IfOk result (IsOutcome diffs.now) }
    ensures exact { IfOk result (λ outcome. IsCycle outcome ↔ HasNoSolution diffs.now) }
{
    let count = diffs.count() as usize;
    let mut values = vec![in alloc; 0u64; count]?;
    let mut parents = vec![in alloc; NONE; count]?;
    match settle(alloc, diffs, &mut values, &mut parents)? {
        Some(cycle) => Ok(Outcome::Cycle(cycle)),
        None => Ok(Outcome::Earliest(signed(alloc, &values)?)),
    }
}
