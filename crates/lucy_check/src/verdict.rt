ghost use Rattle.std.specs.Prelude.{◌≡◌};
ghost use Rattle.lucy_check.specs.Verdicts.{IsVerdict};
ghost use Rattle.lucy_check.specs.declared.verdict.Verdict.{Verdict};

use crate::lead::greatest_lead;
use crate::rate::same_rate;
use lucy_word::Word;

/// How two words stand to each other.
#[derive(Clone, Copy)]
pub enum Verdict {
    /// The first is adaptable to the second. The number is the size of the buffer between them: the most items that wait
    /// in it.
    Adaptable(u64),
    /// The rates differ.
    Rates,
    /// At this instant, counted from 1, and at none before it the second has had more ones than the first.
    Late(u64),
}

/// Whether `a` is adaptable to `b`, written `a <: b`: `a` gives into a buffer and `b` takes from it. It is decided for all
/// instants (Mandel, Plateau and Pouzet 2010). Rates are looked at first.
pub fn adapt(a: &Word, b: &Word) -> Verdict
    ensures is { IsVerdict a.now b.now result }
    ensures only { (verdict : Verdict) → IsVerdict a.now b.now verdict → result ≡ verdict }
{
    if !same_rate(a, b) {
        return Verdict::Rates;
    }
    match greatest_lead(a, b) {
        Ok(most) => Verdict::Adaptable(most),
        Err(at) => Verdict::Late(at),
    }
}
