// How far one word is ahead of another in its count of ones. Where the horizon is far, the leads are found class by class;
// a walk from instant to instant follows only where a word is late, up to the first late instant.
ghost use Rattle.std.specs.Prelude.{◌↔◌, IsTrue, IfOk, IfErr};
ghost use Rattle.lucy_word.specs.Adaptable.{SameRate, Precedes, IsSize, IsFirstLate};
ghost use Rattle.lucy_check.specs.Rates.{IsNoSlower};

use crate::classes::lead_by_classes;
use crate::horizon::is_horizon_near;
use crate::rate::is_no_slower;
use crate::walked::lead_by_walk;
use lucy_word::Word;

// The greatest lead of `a` over `b`, whose rates are the same, or the first instant, counted from 1, at which `a` is behind.
pub(crate) fn greatest_lead(a: &Word, b: &Word) -> Result<u64, u64>
    requires { SameRate a.now b.now }
    ensures size { IfOk result (IsSize a.now b.now) }
    ensures precedes { IfOk result (λ _. Precedes a.now b.now) }
    ensures late { IfErr result (IsFirstLate a.now b.now) }
{
    if is_horizon_near(a, b) || lead_by_classes(b, a) > 0 {
        return lead_by_walk(a, b);
    }
    Ok(lead_by_classes(a, b))
}

// Whether `a`, which is no slower, is never behind.
fn is_never_late(a: &Word, b: &Word) -> bool
    requires { IsNoSlower a.now b.now }
    ensures { IsTrue result ↔ Precedes a.now b.now }
{
    if is_horizon_near(a, b) {
        lead_by_walk(a, b).is_ok()
    } else {
        lead_by_classes(b, a) == 0
    }
}

/// Whether `a` has had at least as many ones as `b` at every instant. The rates may differ.
pub fn precedes(a: &Word, b: &Word) -> bool
    ensures { IsTrue result ↔ Precedes a.now b.now }
{
    is_no_slower(a, b) && is_never_late(a, b)
}
