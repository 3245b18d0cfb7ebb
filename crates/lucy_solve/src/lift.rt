// One inequality: its right variable is lifted where the values break it.
ghost use Rattle.std.specs.Prelude.{◌≡◌, ◌<◌, ◌≤◌, ◌*◌, length, pos, neg_ℤ, ◌≤ℤ◌};
ghost use Rattle.lucy_solve.specs.System.{most_inequalities, most_constant};
ghost use Rattle.lucy_solve.specs.Search.{shifted, IsReached, AreWithin, most_lifted, most_swept, IsRaised, IsSwept};

use crate::Diffs;

// 2^40. Added to a constant it gives no number below 0, so values and sums need no sign.
const SHIFT: u64 = 1 << 40;

fn shifted(most: i64) -> u64
    requires low { neg_ℤ (pos most_constant) ≤ℤ most }
    requires high { most ≤ℤ pos most_constant }
    ensures is { result ≡ shifted most }
    ensures fits { result ≤ 2 * most_constant }
{
    (most + SHIFT as i64) as u64
}

// Whether the variable was lifted. The parent of a variable is the inequality that lifted it last.
pub(crate) fn lift(diffs: &Diffs, values: &mut [u64], parents: &mut [u32], position: usize) -> bool
    requires reached { IsReached diffs.now values.old parents.old }
    requires within { AreWithin values.old most_lifted }
    requires few { length diffs.now.list ≤ most_inequalities }
    requires inside { position < length diffs.now.list }
    ensures reached { IsReached diffs.now values.new parents.new }
    ensures raised { IsRaised diffs.now.list values.old values.new position result }
{
    let diff = diffs.list()[position];
    let wanted = values[diff.left as usize] + SHIFT;
    let has = values[diff.right as usize] + shifted(diff.most);
    if has < wanted {
        values[diff.right as usize] += wanted - has;
        parents[diff.right as usize] = position as u32;
        return true;
    }
    false
}

// The highest value from which a sweep lifts: however often it does, values stay at or below 2^61 + 2^40.
const LOW: u64 = 1 << 61;

// The variable that was lifted, where one was.
pub(crate) fn lift_from_low(
    diffs: &Diffs,
    values: &mut [u64],
    parents: &mut [u32],
    position: usize,
) -> Option<usize>
    requires reached { IsReached diffs.now values.old parents.old }
    requires within { AreWithin values.old most_swept }
    requires few { length diffs.now.list ≤ most_inequalities }
    ensures swept { IsSwept diffs.now values.old values.new parents.new }
{
    let list = diffs.list();
    if position >= list.len() || values[list[position].left as usize] > LOW {
        return None;
    }
    if lift(diffs, values, parents, position) {
        return Some(list[position].right as usize);
    }
    None
}
