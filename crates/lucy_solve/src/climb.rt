ghost use Rattle.std.specs.Prelude.{◌≡◌, ◌<◌, ◌≤◌, ◌⊎◌, length, slice_index, IfOk};
ghost use Rattle.lucy_solve.specs.System.{most_inequalities};
ghost use Rattle.lucy_solve.specs.Climb.{IsClimb, IsEnd};
ghost use Rattle.lucy_solve.specs.Parents.{HasTargets};

use crate::Diffs;
use std::alloc::AllocError;

// From `start` up the parents, which the path collects, to a variable that is marked or has no parent. A variable on the
// path is marked with its place on it, from 1, plus the `before` variables of earlier paths.
pub(crate) fn climb(
    diffs: &Diffs,
    parents: &[u32],
    marks: &mut [u32],
    path: &mut Vec<u32>,
    before: u32,
    start: u32,
) -> Result<u32, AllocError>
    requires ready { IsClimb diffs.now parents.now marks.old path.old.items before start start }
    requires targets { HasTargets diffs.now parents.now }
    requires few { length diffs.now.list ≤ most_inequalities }
    requires inside { start < diffs.now.count }
    requires parents { length parents.now ≡ diffs.now.count }
    ensures climbed { IfOk result (λ at. IsClimb diffs.now parents.now marks.new path.new.items before start at) }
    ensures ended { IfOk result (λ at. before < slice_index marks.new at ⊎ IsEnd diffs.now parents.now marks.new before at) }
    ensures inside { IfOk result (λ at. at < diffs.now.count) }
{
    let list = diffs.list();
    let mut at = start;
    while marks[at as usize] == 0 {
        let parent = parents[at as usize];
        let Some(diff) = list.get(parent as usize) else {
            return Ok(at);
        };
        path.push(parent)?;
        marks[at as usize] = before + path.len() as u32;
        at = diff.left;
    }
    Ok(at)
}
