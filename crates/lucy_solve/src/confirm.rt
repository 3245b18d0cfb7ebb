ghost use Rattle.std.specs.Prelude.{◌↔◌, IsTrue};
ghost use Rattle.lucy_solve.specs.System.{IsNegativeCycle, HasNoSolution};

use crate::Diffs;
use lucy_word::Limit;

/// Whether the inequalities at these positions follow one another in a circle, by which their constants sum below 0.
/// A list of more positions than the number of `Limit::Inequalities` is not confirmed. No memory is taken.
pub fn confirm_cycle(diffs: &Diffs, cycle: &[u32]) -> bool
    ensures exact { IsTrue result ↔ IsNegativeCycle diffs.now.list cycle.now }
    ensures refutes { IsTrue result → HasNoSolution diffs.now }
{
    let list = diffs.list();
    if cycle.is_empty() || cycle.len() as u64 > Limit::Inequalities.number() {
        return false;
    }
    let Some(first) = list.get(cycle[0] as usize) else {
        return false;
    };
    let mut at = first.left;
    let mut sum = 0i64;
    for position in cycle {
        let Some(diff) = list.get(*position as usize) else {
            return false;
        };
        if diff.left != at {
            return false;
        }
        sum += diff.most;
        at = diff.right;
    }
    at == first.left && sum < 0
}
