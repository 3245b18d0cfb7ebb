// Exact rates.
ghost use Rattle.std.specs.Prelude.{ℕ, ◌≡◌, ◌*◌, ◌<◌, ◌≤◌, ◌^◌};
ghost use Rattle.std.specs.Int.{IsGcd};

use lucy_word::gcd;

/// A fraction in lowest terms, both numbers above 0.
#[derive(Clone, Copy)]
pub(crate) struct Fraction {
    pub num: u64,
    pub den: u64,
}

/// A fraction times another, which needn't be in lowest terms.
pub(crate) fn times(rate: Fraction, num: u64, den: u64) -> Fraction
    requires some { 0 < rate.num }
    requires over { 0 < rate.den }
    requires by { 0 < num }
    requires per { 0 < den }
    requires fits { rate.num * num < 2 ^ 64 }
    requires fits_too { rate.den * den < 2 ^ 64 }
    ensures lowest { IsGcd result.num result.den 1 }
    ensures same { result.num * (rate.den * den) ≡ rate.num * num * result.den }
    ensures some { 0 < result.num }
    ensures over { 0 < result.den }
{
    let num = rate.num * num;
    let den = rate.den * den;
    let common = gcd(num, den);
    Fraction {
        num: num / common,
        den: den / common,
    }
}
