ghost use Rattle.std.specs.Prelude.{◌<◌, ◌^◌, ◌↔◌, IsTrue};
ghost use Rattle.lucy_check.specs.Horizon.{AreDecidedBy, IsHorizonNear};

use lucy_word::{Word, lcm};

/// How many instants decide about all of them: the greater prefix length plus the least common multiple of the lengths of
/// the periods.
pub fn horizon_of(a: &Word, b: &Word) -> u64
    ensures is { AreDecidedBy a.now b.now result }
    ensures fits { result < 2 ^ 63 }
{
    let (prefix_a, period_a) = a.lengths();
    let (prefix_b, period_b) = b.lengths();
    prefix_a.max(prefix_b) + lcm(period_a, period_b)
}

/// Whether the horizon has at most 64 instants for each bit of the two words, so that a walk to it is linear in their
/// lengths.
pub(crate) fn is_horizon_near(a: &Word, b: &Word) -> bool
    ensures { IsTrue result ↔ IsHorizonNear a.now b.now }
{
    let (prefix_a, period_a) = a.lengths();
    let (prefix_b, period_b) = b.lengths();
    horizon_of(a, b) <= 64 * (prefix_a + period_a + prefix_b + period_b)
}
