// Trees of needs, and the rates that they give.
ghost use Rattle.std.specs.Prelude.{ℕ, List, ◌≡◌, ◌⊎◌, ◌↔◌, ◌+◌, ◌*◌, ◌<◌, ◌≤◌, length, slice_index, IsTrue, IfSome, IfNone, IfOk, IfErr, [], Vec};
ghost use Rattle.std.specs.Int.{IsGcd};
ghost use Rattle.std.specs.List.{All, count_by};
ghost use Rattle.lucy_word.specs.declared.limit.Limit.TheVariants as limit;
ghost use Rattle.lucy_word.specs.Bits.{most_bits, ones_in};
ghost use Rattle.lucy_need.specs.declared.need.Term.{Term as TheTerm};
ghost use Rattle.lucy_need.specs.Meeting.{IsWithin, most_needs};
ghost use Rattle.lucy_need.specs.Stored.{HasWords};
ghost use Rattle.lucy_shape.specs.declared.shape.RateFault.TheVariants as fault;
ghost use Rattle.lucy_rates.specs.Walks.{first_of, second_of, over, under};
ghost use Rattle.lucy_rates.specs.Trees.{AreEven, IsTree, HasLargeRate};
ghost use Rattle.lucy_rates.specs.Forests.{rate_at, IsForest, IsRateFraction};
ghost use Rattle.lucy_rates.specs.Growing.{no_number, IsGrowing, IsRated, AreKept, AreFirstNeeds, AreFirstSoFar, ArePlanted, IsGrown, AreDeep, IsLargeNext, HasLargeFrom, set_at, IsJoiningStep};

use crate::fraction::{Fraction, times};
use lucy_need::{Need, Term};
use lucy_shape::RateFault;
use lucy_word::Limit;
use std::alloc::{AllocError, Global};

/// No clock, or no need.
pub(crate) const NONE: u32 = u32::MAX;

/// The trees of all components. For each clock by its number: the root of its component, which is its least clock; the need that
/// reached it, by its number from 0 (`NONE` for a root); how many needs lead from it to its root along the tree; and its rate,
/// that of the root being 1.
#[derive(Drop)]
pub(crate) struct Forest {
    pub roots: Vec<u32>,
    pub parents: Vec<u32>,
    pub depths: Vec<u32>,
    pub rates: Vec<Fraction>,
}

/// By what a rate is multiplied from the clock of the first term to that of the second: numerator and denominator, not in lowest
/// terms.
pub(crate) fn factor(first: &Term, second: &Term) -> (u64, u64)
    ensures over { result.0 ≡ ones_in first.now.word.period * length second.now.word.period }
    ensures under { result.1 ≡ length first.now.word.period * ones_in second.now.word.period }
    ensures some { 0 < result.0 }
    ensures some_under { 0 < result.1 }
    ensures few { result.0 ≤ most_bits * most_bits }
    ensures few_under { result.1 ≤ most_bits * most_bits }
{
    let (ones, length) = first.word.rate();
    let (second_ones, second_length) = second.word.rate();
    (ones * second_length, length * second_ones)
}

/// For each clock the first need that names it, or the number of needs where none does.
pub(crate) fn first_needs(
    alloc: Global,
    clocks: u32,
    needs: &[Need],
) -> Result<Vec<u32>, AllocError>
    requires within { All (IsWithin clocks) needs.now }
    requires few { length needs.now ≤ most_needs }
    ensures { IfOk result (λ firsts. AreFirstNeeds needs.now clocks firsts.items) }
{
    let mut list = vec![in alloc; needs.len() as u32; clocks as usize]?;
    name_all(&mut list, needs);
    Ok(list)
}

// Each need names its clocks, in order.
fn name_all(list: &mut [u32], needs: &[Need])
    requires within { All (IsWithin (length list.old)) needs.now }
    requires few { length needs.now ≤ most_needs }
    requires none { AreFirstSoFar needs.now (length list.old) 0 list.old }
    ensures { AreFirstSoFar needs.now (length list.old) (length needs.now) list.new }
{
    for k in 0..needs.len() {
        let (first, second) = needs[k].terms();
        name(list, first.clock as usize, k as u32);
        name(list, second.clock as usize, k as u32);
    }
}

// The need of this number names the clock, which may be for the first time.
fn name(list: &mut [u32], clock: usize, need: u32)
    requires { clock < length list.old }
    ensures { list.new ≡ set_at list.old clock need }
{
    if list[clock] > need {
        list[clock] = need;
    }
}

// From a clock that is reached to one that isn't, where the need joins such.
fn step<'a>(need: &'a Need, roots: &[u32]) -> Option<(&'a Term, &'a Term)>
    requires { IsWithin (length roots.now) need.now }
    ensures some { IfSome result (λ r. IsJoiningStep roots.now need.now r.0.now r.1.now) }
    ensures within { IfSome result (λ r. (r.0.now.clock < length roots.now) × (r.1.now.clock < length roots.now)) }
    ensures none { IfNone result ((s t : TheTerm) → IsJoiningStep roots.now need.now s t → ⊥) }
{
    let (first, second) = need.terms();
    let from = roots[first.clock as usize] != NONE;
    let to = roots[second.clock as usize] != NONE;
    if from && !to {
        return Some((first, second));
    }
    if to && !from {
        return Some((second, first));
    }
    None
}

// The rate of a clock that a need reaches from a clock of this rate, if its numbers are within the limit.
fn next_rate(rate: Fraction, from: &Term, to: &Term) -> Result<Fraction, RateFault>
    requires { IsRateFraction rate }
    ensures ok { IfOk result IsRateFraction }
    ensures same { IfOk result (λ next. next.num * (rate.den * (length from.now.word.period * ones_in to.now.word.period)) ≡ rate.num * (ones_in from.now.word.period * length to.now.word.period) * next.den) }
    ensures refused { IfErr result (λ e. (e ≡ fault.Limit limit.Rate) × IsLargeNext rate from.now to.now) }
{
    let (num, den) = factor(from, to);
    let next = times(rate, num, den);
    if next.num > Limit::Rate.number() || next.den > Limit::Rate.number() {
        return Err(RateFault::Limit(Limit::Rate));
    }
    Ok(next)
}

// Grows the tree of a root: adds the first need that joins, again and again. No need below `at` joins, and after a clock is
// reached `at` goes back to the first need that names it.
fn grow_from(
    needs: &[Need],
    firsts: &[u32],
    roots: &mut [u32],
    parents: &mut [u32],
    depths: &mut [u32],
    rates: &mut [Fraction],
    root: u32,
) -> Result<(), RateFault>
    requires within { All (IsWithin (length roots.old)) needs.now }
    requires few { length needs.now ≤ most_needs }
    requires firsts { AreFirstNeeds needs.now (length roots.old) firsts.now }
    requires sizes { (length parents.old ≡ length roots.old) × (length depths.old ≡ length roots.old) × (length rates.old ≡ length roots.old) }
    requires clocks { length roots.old ≤ no_number }
    requires root { root < length roots.old }
    requires start { IsGrowing needs.now (length roots.old) root [] (slice_index firsts.now root) roots.old }
    requires rated { IsRated needs.now root [] parents.old depths.old rates.old }
    requires deep { AreDeep roots.old depths.old }
    ensures grown { IfOk result (λ _. (tree : List ℕ) × IsTree needs.now root tree × IsGrowing needs.now (length roots.old) root tree (length needs.now) roots.new × IsRated needs.now root tree parents.new depths.new rates.new) }
    ensures kept { AreKept root roots.old parents.old depths.old rates.old roots.new parents.new depths.new rates.new }
    ensures deep { AreDeep roots.new depths.new }
    ensures sizes { (length roots.new ≡ length roots.old) × (length parents.new ≡ length roots.old) × (length depths.new ≡ length roots.old) × (length rates.new ≡ length roots.old) }
    ensures refused { IfErr result (λ e. (e ≡ fault.Limit limit.Rate) × HasLargeFrom needs.now (length roots.old) root) }
{
    let mut at = firsts[root as usize] as usize;
    while at < needs.len() {
        match step(&needs[at], roots) {
            None => at += 1,
            Some((from, to)) => {
                let clock = to.clock as usize;
                let rate = next_rate(rates[from.clock as usize], from, to)?;
                depths[clock] = depths[from.clock as usize] + 1;
                roots[clock] = root;
                rates[clock] = rate;
                parents[clock] = at as u32;
                at = at.min(firsts[clock] as usize);
            }
        }
    }
    Ok(())
}

// Makes a clock a root where no tree has reached it, and grows its tree.
fn plant(
    needs: &[Need],
    firsts: &[u32],
    roots: &mut [u32],
    parents: &mut [u32],
    depths: &mut [u32],
    rates: &mut [Fraction],
    root: u32,
) -> Result<(), RateFault>
    requires within { All (IsWithin (length roots.old)) needs.now }
    requires few { length needs.now ≤ most_needs }
    requires firsts { AreFirstNeeds needs.now (length roots.old) firsts.now }
    requires sizes { (length parents.old ≡ length roots.old) × (length depths.old ≡ length roots.old) × (length rates.old ≡ length roots.old) }
    requires clocks { length roots.old ≤ no_number }
    requires root { root < length roots.old }
    requires planted { (tree : ℕ → List ℕ) × ArePlanted needs.now (length roots.old) root tree roots.old parents.old depths.old rates.old }
    requires deep { AreDeep roots.old depths.old }
    ensures planted { IfOk result (λ _. (tree : ℕ → List ℕ) × ArePlanted needs.now (length roots.old) (root + 1) tree roots.new parents.new depths.new rates.new) }
    ensures deep { AreDeep roots.new depths.new }
    ensures sizes { (length roots.new ≡ length roots.old) × (length parents.new ≡ length roots.old) × (length depths.new ≡ length roots.old) × (length rates.new ≡ length roots.old) }
    ensures refused { IfErr result (λ e. (e ≡ fault.Limit limit.Rate) × HasLargeRate needs.now (length roots.old)) }
{
    let clock = root as usize;
    if roots[clock] != NONE {
        return Ok(());
    }
    roots[clock] = root;
    depths[clock] = 0;
    rates[clock] = Fraction { num: 1, den: 1 };
    grow_from(needs, firsts, roots, parents, depths, rates, root)
}

// The trees of all components, each from its least clock.
fn plant_all(
    needs: &[Need],
    firsts: &[u32],
    roots: &mut [u32],
    parents: &mut [u32],
    depths: &mut [u32],
    rates: &mut [Fraction],
) -> Result<(), RateFault>
    requires within { All (IsWithin (length roots.old)) needs.now }
    requires few { length needs.now ≤ most_needs }
    requires firsts { AreFirstNeeds needs.now (length roots.old) firsts.now }
    requires sizes { (length parents.old ≡ length roots.old) × (length depths.old ≡ length roots.old) × (length rates.old ≡ length roots.old) }
    requires clocks { length roots.old ≤ no_number }
    requires words { All HasWords needs.now }
    requires none { All (λ root. root ≡ no_number) roots.old }
    requires level { All (λ depth. depth ≡ 0) depths.old }
    ensures forest { IfOk result (λ _. IsForest needs.now (length roots.old) roots.new parents.new rates.new) }
    ensures planted { IfOk result (λ _. (tree : ℕ → List ℕ) × ArePlanted needs.now (length roots.old) (length roots.old) tree roots.new parents.new depths.new rates.new) }
    ensures sizes { (length roots.new ≡ length roots.old) × (length parents.new ≡ length roots.old) × (length depths.new ≡ length roots.old) × (length rates.new ≡ length roots.old) }
    ensures refused { IfErr result (λ e. (e ≡ fault.Limit limit.Rate) × HasLargeRate needs.now (length roots.old)) }
{
    for clock in 0..roots.len() {
        plant(needs, firsts, roots, parents, depths, rates, clock as u32)?;
    }
    Ok(())
}

/// The trees of all components of the clocks below a number, each from its least clock, with the rates that they give.
/// `Limit(Rate)` comes exactly where the rate of some clock in lowest terms has a number over that limit.
pub(crate) fn grow_all(
    alloc: Global,
    clocks: u32,
    needs: &[Need],
    firsts: &[u32],
) -> Result<Forest, RateFault>
    requires within { All (IsWithin clocks) needs.now }
    requires few { length needs.now ≤ most_needs }
    requires firsts { AreFirstNeeds needs.now clocks firsts.now }
    requires words { All HasWords needs.now }
    ensures grown { IfOk result (IsGrown needs.now clocks) }
    ensures refused { IfErr result (λ e. (e ≡ fault.OutOfMemory) ⊎ ((e ≡ fault.Limit limit.Rate) × HasLargeRate needs.now clocks)) }
{
    let mut roots = vec![in alloc; NONE; clocks as usize]?;
    let mut parents = vec![in alloc; NONE; clocks as usize]?;
    let mut depths = vec![in alloc; 0u32; clocks as usize]?;
    let mut rates = vec![in alloc; Fraction { num: 1, den: 1 }; clocks as usize]?;
    plant_all(
        needs,
        firsts,
        &mut roots,
        &mut parents,
        &mut depths,
        &mut rates,
    )?;
    Ok(Forest {
        roots,
        parents,
        depths,
        rates,
    })
}
