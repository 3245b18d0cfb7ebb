// One pass over the inequalities (Bellman 1958): each lifts its right variable where the values break it.
ghost use Rattle.std.specs.Prelude.{◌≡◌, ◌<◌, ◌≤◌, length};
ghost use Rattle.lucy_solve.specs.System.{most_inequalities};
ghost use Rattle.lucy_solve.specs.Search.{position_at, IsReached, AreWithin, IsPassed};

use crate::Diffs;
use crate::lift::lift;

// The position that a pass comes to after `steps` others.
fn position_at(len: usize, backwards: bool, steps: usize) -> usize
    requires { steps < len }
    ensures is { result ≡ position_at len backwards steps }
    ensures within { result < len }
{
    if backwards { len - 1 - steps } else { steps }
}

// Whether a variable was lifted.
pub(crate) fn pass(diffs: &Diffs, values: &mut [u64], parents: &mut [u32], backwards: bool) -> bool
    requires reached { IsReached diffs.now values.old parents.old }
    requires within { AreWithin values.old (length diffs.now.list) }
    requires few { length diffs.now.list ≤ most_inequalities }
    ensures reached { IsReached diffs.now values.new parents.new }
    ensures passed { IsPassed diffs.now.list backwards values.old values.new (length diffs.now.list) result }
{
    let len = diffs.list().len();
    let mut moved = false;
    for steps in 0..len {
        let position = position_at(len, backwards, steps);
        if lift(diffs, values, parents, position) {
            moved = true;
        }
    }
    moved
}
