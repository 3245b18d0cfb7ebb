ghost use Rattle.std.specs.Prelude.{◌≡◌, ◌↔◌, ℕ, Some, IfSome, IsNone};
ghost use Rattle.lucy_word.specs.Shortest.{Same};
ghost use Rattle.lucy_check.specs.Difference.{IsFirstDifference};

use lucy_word::Word;

/// The first instant, counted from 1, at which the bits of the words differ; `None` where they are the same at every instant.
///
/// Words that agree on the longer prefix and on as many bits more as both periods have together agree for ever, so no
/// common period is walked; equal words are not walked at all.
pub fn first_difference(a: &Word, b: &Word) -> Option<u64>
    ensures some { IfSome result (IsFirstDifference a.now b.now) }
    ensures only { (at : ℕ) → IsFirstDifference a.now b.now at → result ≡ Some at }
    ensures none { IsNone result ↔ Same a.now b.now }
{
    if a.same(b) {
        return None;
    }
    let (prefix_a, period_a) = a.lengths();
    let (prefix_b, period_b) = b.lengths();
    let mut walk_a = a.walk();
    let mut walk_b = b.walk();
    for i in 0..prefix_a.max(prefix_b) + period_a + period_b {
        if walk_a.step() != walk_b.step() {
            return Some(i + 1);
        }
    }
    None
}
