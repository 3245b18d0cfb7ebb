// Inequalities that follow one another, told as one.
ghost use Rattle.std.specs.Prelude.{◌≡◌, ◌+◌, ◌*◌, ◌<◌, ◌≤◌, true, length, slice_index, ℤ, pos, neg_ℤ, ◌+ℤ◌, ◌≤ℤ◌};
ghost use Rattle.std.specs.List.{All};
ghost use Rattle.lucy_solve.specs.System.{diff_at, most_inequalities, most_constant};
ghost use Rattle.lucy_explain.specs.Folds.{Folds};
ghost use Rattle.lucy_explain.specs.Folded.{IsOfOneStream, GoesOn, IsLongest};

use lucy_solve::{Diff, Diffs};
use lucy_word::Limit;

/// The inequality `left <= right + most` between two variables, which stands for so many inequalities that follow one another: it
/// leads from the first left variable to the last right one, and its constant is the sum of theirs.
#[derive(Clone, Copy)]
pub struct Line {
    pub left: u32,
    pub right: u32,
    pub most: i64,
    /// At least 1.
    pub count: usize,
}

// A line for one inequality.
fn alone(diff: Diff) -> Line
    ensures left { result.left ≡ diff.left }
    ensures right { result.right ≡ diff.right }
    ensures most { result.most ≡ diff.most }
    ensures count { result.count ≡ 1 }
{
    Line {
        left: diff.left,
        right: diff.right,
        most: diff.most,
        count: 1,
    }
}

// The line with an inequality more.
fn longer(line: Line, next: Diff) -> Line
    requires few { line.count < most_inequalities }
    requires low { neg_ℤ (pos (most_constant * line.count)) ≤ℤ line.most }
    requires high { line.most ≤ℤ pos (most_constant * line.count) }
    requires next_low { neg_ℤ (pos most_constant) ≤ℤ next.most }
    requires next_high { next.most ≤ℤ pos most_constant }
    ensures left { result.left ≡ line.left }
    ensures right { result.right ≡ next.right }
    ensures most { result.most ≡ line.most +ℤ next.most }
    ensures count { result.count ≡ line.count + 1 }
{
    Line {
        left: line.left,
        right: next.right,
        most: line.most + next.most,
        count: line.count + 1,
    }
}

// Whether an inequality begins where the line ends, and all of it is of the line's stream. None that goes back in time is told together
// with others.
fn goes_on(streams: &[u32], line: Line, next: Diff) -> bool
    requires left { line.left < length streams.now }
    requires right { line.right < length streams.now }
    requires next { next.right < length streams.now }
    ensures joined { result ≡ true → line.right ≡ next.left }
    ensures within { result ≡ true → slice_index streams.now line.right ≡ slice_index streams.now line.left }
    ensures more { result ≡ true → slice_index streams.now next.right ≡ slice_index streams.now line.left }
    ensures exact { GoesOn streams.now line next → result ≡ true }
{
    let stream = streams[line.left as usize];
    line.right == next.left
        && line.most <= 0
        && next.most <= 0
        && streams[line.right as usize] == stream
        && streams[next.right as usize] == stream
}

/// The longest line for inequalities at the first of these positions, of which there is one at least: for one, or for several of one
/// stream.
pub(crate) fn line_of(diffs: &Diffs, streams: &[u32], positions: &[u32]) -> Line
    requires some { 0 < length positions.now }
    requires there { All (λ p. p < length diffs.now.list) positions.now }
    requires streams { length streams.now ≡ diffs.now.count }
    ensures folds { Folds diffs.now.list positions.now result }
    ensures stream { IsOfOneStream streams.now diffs.now.list positions.now result }
    ensures longest { IsLongest streams.now diffs.now.list positions.now result }
{
    let list = diffs.list();
    let end = positions.len().min(Limit::Inequalities.number() as usize);
    let mut line = alone(list[positions[0] as usize]);
    'more: for k in 1..end {
        let next = list[positions[k] as usize];
        if !goes_on(streams, line, next) {
            return line;
        }
        line = longer(line, next);
    }
    line
}
