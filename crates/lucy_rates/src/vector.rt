// The least whole numbers in the proportion of the rates.
ghost use Rattle.std.specs.Prelude.{ℕ, ◌≡◌, ◌⊎◌, ◌↔◌, ◌*◌, ◌/◌, ◌<◌, ◌≤◌, ◌^◌, length, slice_index, OnOk, IfOk, IfErr};
ghost use Rattle.std.specs.List.{All};
ghost use Prim.Native.Nat.{◌∣◌};
ghost use Rattle.lucy_word.specs.Bits.{most_bits};
ghost use Rattle.lucy_word.specs.Multiple.{IsLcm};
ghost use Rattle.lucy_word.specs.declared.limit.Limit.TheVariants as limit;
ghost use Rattle.lucy_need.specs.Meeting.{IsWithin};
ghost use Rattle.lucy_shape.specs.declared.shape.RateFault.TheVariants as fault;
ghost use Rattle.lucy_shape.specs.Fitting.{most_positions};
ghost use Rattle.lucy_rates.specs.Trees.{most_rate};
ghost use Rattle.lucy_rates.specs.Forests.{rate_at, IsRateFraction, IsForest};
ghost use Rattle.lucy_rates.specs.Laying.{AreFactors, AreAsked, AsksTooMuch, HasLargeFactor, AreMultiplied, AreNumbers};

use crate::forest::Forest;
use crate::fraction::Fraction;
use lucy_need::{Need, Term};
use lucy_shape::RateFault;
use lucy_word::{Limit, gcd, lcm};
use std::alloc::Global;

/// The least common multiple of two numbers, of which the first is within the limit of positions and the second has at most 36
/// bits, if it is within the limit too. In each component some clock has as many ones as the period, and the period is a multiple
/// of each number that is met on the way to it: so one past the limit means that there are too many positions, and none is
/// computed further.
pub(crate) fn multiple(a: u64, b: u64) -> Result<u64, RateFault>
    requires left { 0 < a }
    requires few { a ≤ most_positions }
    requires right { 0 < b }
    requires short { b ≤ most_bits * most_rate }
    ensures least { IfOk result (IsLcm a b) }
    ensures few { IfOk result (λ m. m ≤ most_positions) }
    ensures refused { IfErr result (λ e. (e ≡ fault.Limit limit.Positions) × ((m : ℕ) → IsLcm a b m → most_positions < m)) }
{
    let least = lcm(a, b);
    if least > Limit::Positions.number() {
        return Err(RateFault::Limit(Limit::Positions));
    }
    Ok(least)
}

// What a word after a clock of this rate asks of the number that the rates of the clock's component are multiplied by: to be a
// multiple of the result. The length is that of the word's period.
fn share(rate: Fraction, length: u64) -> u64
    requires rate { IsRateFraction rate }
    requires length { 0 < length }
    requires short { length ≤ most_bits }
    ensures exact { (n : ℕ) → ((length * rate.den) ∣ (n * rate.num) ↔ result ∣ n) }
    ensures some { 0 < result }
    ensures few { result ≤ most_bits * most_rate }
{
    let product = length * rate.den;
    product / gcd(product, rate.num)
}

// Brings what the word of a term asks into the factor of its component.
fn ask(factors: &mut [u64], forest: &Forest, term: &Term) -> Result<(), RateFault>
    requires clock { term.now.clock < length forest.now.roots.items }
    requires rates { length forest.now.rates.items ≡ length forest.now.roots.items }
    requires root { slice_index forest.now.roots.items term.now.clock < length factors.old }
    requires rate { IsRateFraction (rate_at forest.now.rates.items term.now.clock) }
    requires some { (i : ℕ) → i < length factors.old → 0 < slice_index factors.old i }
    requires few { (i : ℕ) → i < length factors.old → slice_index factors.old i ≤ most_positions }
    ensures asked { OnOk result (AreAsked forest.now.roots.items forest.now.rates.items term.now factors.old factors.new) }
    ensures refused { IfErr result (λ e. (e ≡ fault.Limit limit.Positions) × AsksTooMuch forest.now.roots.items forest.now.rates.items term.now factors.old) }
{
    let clock = term.clock as usize;
    let root = forest.roots[clock] as usize;
    let (_, length) = term.word.rate();
    let asked = share(forest.rates[clock], length);
    factors[root] = multiple(factors[root], asked)?;
    Ok(())
}

// Brings what the words of all needs ask into the factors, each of which is 1.
fn ask_all(factors: &mut [u64], forest: &Forest, needs: &[Need]) -> Result<(), RateFault>
    requires within { All (IsWithin (length forest.now.roots.items)) needs.now }
    requires forest { IsForest needs.now (length forest.now.roots.items) forest.now.roots.items forest.now.parents.items forest.now.rates.items }
    requires none { AreFactors needs.now forest.now.roots.items forest.now.rates.items 0 factors.old }
    ensures ok { OnOk result (AreFactors needs.now forest.now.roots.items forest.now.rates.items (length needs.now) factors.new) }
    ensures refused { IfErr result (λ e. (e ≡ fault.Limit limit.Positions) × HasLargeFactor needs.now forest.now.roots.items forest.now.rates.items) }
{
    for need in needs {
        let (first, second) = need.terms();
        ask(factors, forest, first)?;
        ask(factors, forest, second)?;
    }
    Ok(())
}

// For each root, by its clock's number, the least number by which the rates of its component are multiples of the period lengths
// of all words after their clocks; 1 for a clock that is no root.
fn factors(alloc: Global, forest: &Forest, needs: &[Need]) -> Result<Vec<u64>, RateFault>
    requires within { All (IsWithin (length forest.now.roots.items)) needs.now }
    requires forest { IsForest needs.now (length forest.now.roots.items) forest.now.roots.items forest.now.parents.items forest.now.rates.items }
    ensures ok { IfOk result (λ list. AreFactors needs.now forest.now.roots.items forest.now.rates.items (length needs.now) list.items) }
    ensures refused { IfErr result (λ e. (e ≡ fault.OutOfMemory) ⊎ ((e ≡ fault.Limit limit.Positions) × HasLargeFactor needs.now forest.now.roots.items forest.now.rates.items)) }
{
    let mut list = vec![in alloc; 1u64; forest.roots.len()]?;
    ask_all(&mut list, forest, needs)?;
    Ok(list)
}

// A rate times a factor of which its denominator is a divisor.
fn multiplied(rate: Fraction, factor: u64) -> u64
    requires rate { IsRateFraction rate }
    requires factor { factor ≤ most_positions }
    ensures exact { result ≡ factor / rate.den * rate.num }
    ensures few { result ≤ 2 ^ 32 }
{
    factor / rate.den * rate.num
}

// For each clock by its number its rate times the factor of its component.
fn vector(alloc: Global, forest: &Forest, factors: &[u64]) -> Result<Vec<u64>, RateFault>
    requires sizes { (length forest.now.rates.items ≡ length forest.now.roots.items) × (length factors.now ≡ length forest.now.roots.items) }
    requires roots { (c : ℕ) → c < length forest.now.roots.items → slice_index forest.now.roots.items c < length forest.now.roots.items }
    requires rates { (c : ℕ) → c < length forest.now.roots.items → IsRateFraction (rate_at forest.now.rates.items c) }
    requires few { (i : ℕ) → i < length factors.now → slice_index factors.now i ≤ most_positions }
    ensures ok { IfOk result (λ list. AreMultiplied forest.now.roots.items forest.now.rates.items factors.now (length forest.now.roots.items) list.items) }
    ensures refused { IfErr result (λ e. e ≡ fault.OutOfMemory) }
{
    let mut list = Vec::new(alloc);
    for clock in 0..forest.roots.len() {
        let factor = factors[forest.roots[clock] as usize];
        list.push(multiplied(forest.rates[clock], factor))?;
    }
    Ok(list)
}

/// For each clock by its number the least whole number in the proportion of the rates, of which the period length of each word
/// after the clock is a divisor. `Limit(Positions)` comes where a factor of the rates is past that limit.
pub(crate) fn numbers(alloc: Global, forest: &Forest, needs: &[Need]) -> Result<Vec<u64>, RateFault>
    requires within { All (IsWithin (length forest.now.roots.items)) needs.now }
    requires forest { IsForest needs.now (length forest.now.roots.items) forest.now.roots.items forest.now.parents.items forest.now.rates.items }
    ensures ok { IfOk result (λ list. AreNumbers needs.now forest.now.roots.items forest.now.rates.items list.items) }
    ensures refused { IfErr result (λ e. (e ≡ fault.OutOfMemory) ⊎ ((e ≡ fault.Limit limit.Positions) × HasLargeFactor needs.now forest.now.roots.items forest.now.rates.items)) }
{
    let factors = factors(alloc, forest, needs)?;
    vector(alloc, forest, &factors)
}
