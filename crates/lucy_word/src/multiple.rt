// Common divisors and multiples, by which periods are brought together.
ghost use Rattle.std.specs.Prelude.{◌*◌, ◌<◌, ◌≤◌, ◌^◌};
ghost use Rattle.std.specs.Int.{IsGcd};
ghost use Rattle.lucy_word.specs.Multiple.{IsLcm};

/// The greatest common divisor, by Euclid's remainders: 0 where both numbers are 0.
pub fn gcd(a: u64, b: u64) -> u64
    ensures { IsGcd a b result }
{
    let mut x = a;
    let mut y = b;
    while y != 0 {
        let rest = x % y;
        x = y;
        y = rest;
    }
    x
}

/// The least common multiple of two numbers above 0, whose product fits 64 bits.
pub fn lcm(a: u64, b: u64) -> u64
    requires left { 0 < a }
    requires right { 0 < b }
    requires fits { a * b < 2 ^ 64 }
    ensures least { IsLcm a b result }
    ensures within { result ≤ a * b }
{
    a / gcd(a, b) * b
}
