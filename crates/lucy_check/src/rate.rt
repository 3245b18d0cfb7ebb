// The shares of ones in the periods of two words.
ghost use Rattle.std.specs.Prelude.{◌≡◌, ◌*◌, ◌↔◌, length, IsTrue};
ghost use Rattle.lucy_word.specs.Bits.{ones_in};
ghost use Rattle.lucy_word.specs.Adaptable.{SameRate};
ghost use Rattle.lucy_check.specs.Rates.{IsNoSlower};

use lucy_word::Word;

// The rates over one denominator, the product of the lengths of the periods.
fn rates(a: &Word, b: &Word) -> (u64, u64)
    ensures first { result.0 ≡ ones_in a.now.period * length b.now.period }
    ensures second { result.1 ≡ ones_in b.now.period * length a.now.period }
{
    let (ones_a, period_a) = a.rate();
    let (ones_b, period_b) = b.rate();
    (ones_a * period_b, ones_b * period_a)
}

/// Whether the periods have the same share of ones.
pub fn same_rate(a: &Word, b: &Word) -> bool
    ensures { IsTrue result ↔ SameRate a.now b.now }
{
    let (rate_a, rate_b) = rates(a, b);
    rate_a == rate_b
}

// Whether the period of `a` has at least the share of ones of that of `b`.
pub(crate) fn is_no_slower(a: &Word, b: &Word) -> bool
    ensures { IsTrue result ↔ IsNoSlower a.now b.now }
{
    let (rate_a, rate_b) = rates(a, b);
    rate_b <= rate_a
}
