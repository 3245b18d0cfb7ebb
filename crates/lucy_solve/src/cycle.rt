ghost use Rattle.std.specs.Prelude.{◌≡◌, ◌≤◌, length, drop, reverse, replicate, IfOk, MatchOption};
ghost use Rattle.lucy_solve.specs.System.{most_inequalities};
ghost use Rattle.lucy_solve.specs.Parents.{IsForest, IsRound, HasTargets};

use crate::Diffs;
use crate::climb::climb;
use std::alloc::{AllocError, Global};

// The positions from `first` on, last first: a path is climbed against the direction of its inequalities.
fn reversed_from(alloc: Global, path: &[u32], first: usize) -> Result<Vec<u32>, AllocError>
    requires { first ≤ length path.now }
    ensures { IfOk result (λ v. v.items ≡ reverse (drop first path.now)) }
{
    Ok(path[first..].iter().rev().copied().collect(alloc)?)
}

// A circle of parents, where there is one. `marks` holds a zero for each variable.
pub(crate) fn find_cycle(
    alloc: Global,
    diffs: &Diffs,
    parents: &[u32],
    marks: &mut [u32],
) -> Result<Option<Vec<u32>>, AllocError>
    requires targets { HasTargets diffs.now parents.now }
    requires few { length diffs.now.list ≤ most_inequalities }
    requires parents { length parents.now ≡ diffs.now.count }
    requires zeros { marks.old ≡ replicate diffs.now.count 0 }
    ensures { IfOk result (λ o. MatchOption o (IsForest diffs.now parents.now) (λ cycle. IsRound diffs.now parents.now cycle.items)) }
{
    let mut path = Vec::new(alloc);
    let mut before = 0u32;
    for start in 0..diffs.count() {
        let at = climb(diffs, parents, marks, &mut path, before, start)?;
        let mark = marks[at as usize];
        if before < mark {
            let first = (mark - before - 1) as usize;
            return Ok(Some(reversed_from(alloc, &path, first)?));
        }
        before += path.len() as u32;
        path.clear();
    }
    Ok(None)
}
