// How far one word is ahead of another, looked at instant by instant.
ghost use Rattle.std.specs.Prelude.{IfOk, IfErr};
ghost use Rattle.lucy_word.specs.Adaptable.{SameRate, Precedes, IsSize, IsFirstLate};
ghost use Rattle.lucy_check.specs.Rates.{IsNoSlower};

use crate::horizon::horizon_of;
use lucy_word::Word;

// The greatest lead of `a` over `b` up to their horizon, or the first instant, counted from 1, at which `a` is behind. Past
// it each common period adds the same to each count, so with the rates this decides about all instants.
pub(crate) fn lead_by_walk(a: &Word, b: &Word) -> Result<u64, u64>
    ensures size { IfOk result (λ lead. SameRate a.now b.now → IsSize a.now b.now lead) }
    ensures precedes { IfOk result (λ _. IsNoSlower a.now b.now → Precedes a.now b.now) }
    ensures late { IfErr result (IsFirstLate a.now b.now) }
{
    let mut walk_a = a.walk();
    let mut walk_b = b.walk();
    let mut lead = 0u64;
    let mut most = 0u64;
    for i in 0..horizon_of(a, b) {
        let given = lead + u64::from(walk_a.step());
        let taken = u64::from(walk_b.step());
        if given < taken {
            return Err(i + 1);
        }
        lead = given - taken;
        most = most.max(lead);
    }
    Ok(most)
}
