// The shape that the numbers of clocks give.
ghost use Rattle.std.specs.Prelude.{ℕ, List, ◌≡◌, ◌⊎◌, ◌↔◌, ◌+◌, ◌*◌, ◌<◌, ◌≤◌, ◌^◌, max, true, false, length, slice_index, slice_set, IsTrue, IfOk, IfErr};
ghost use Rattle.std.specs.List.{All, AllByRecursion};
ghost use Rattle.lucy_word.specs.Bits.{most_bits};
ghost use Rattle.lucy_word.specs.Multiple.{IsLcm};
ghost use Rattle.lucy_word.specs.declared.limit.Limit.TheVariants as limit;
ghost use Rattle.lucy_need.specs.Meeting.{IsWithin, AreProperNeeds};
ghost use Rattle.lucy_need.specs.Stored.{HasWords};
ghost use Rattle.lucy_shape.specs.declared.shape.RateFault.TheVariants as fault;
ghost use Rattle.lucy_shape.specs.declared.shape.ClockShape.{ClockShape as ClockShapeOf};
ghost use Rattle.lucy_shape.specs.Fitting.{unused, variable_count, most_positions};
ghost use Rattle.lucy_rates.specs.Trees.{most_rate};
ghost use Rattle.lucy_rates.specs.Forests.{IsForest};
ghost use Rattle.lucy_rates.specs.Vectors.{IsNamedBySome, AreBalanced, IsShapeOf, IsTooWide};
ghost use Rattle.lucy_rates.specs.Laying.{AreTops, counts, IsPeriodTo, HasLargeCommon, AreLongest, most_period, HaveOnes, HaveLargeCommon, AreCounted, AreShapes, most_ones, AreOnes, laid_out};

use crate::forest::Forest;
use crate::vector::{multiple, numbers};
use lucy_need::{Need, Needs};
use lucy_shape::{ClockShape, ClockShapes, RateFault, Shape};
use lucy_word::Limit;
use std::alloc::Global;

// Whether some need names the base.
fn is_base_named(needs: &[Need]) -> bool
    ensures { IsTrue result ↔ IsNamedBySome needs.now 0 }
{
    for need in needs {
        let (first, second) = need.terms();
        if first.clock == 0 || second.clock == 0 {
            return true;
        }
    }
    false
}

// The entry at a place is at least this number from now on.
fn raise(list: &mut [u64], place: usize, number: u64)
    requires { place < length list.old }
    ensures { list.new ≡ slice_set list.old place (max (slice_index list.old place) number) }
{
    if list[place] < number {
        list[place] = number;
    }
}

// The number of a clock where it counts for the top of its component, else 0: in the base's own component the base alone counts.
fn counted(roots: &[u32], vector: &[u64], clock: usize) -> u64
    requires clock { clock < length roots.now }
    requires sizes { length vector.now ≡ length roots.now }
    ensures some { ((clock ≡ 0) ⊎ (slice_index roots.now clock ≡ 0 → ⊥)) → result ≡ slice_index vector.now clock }
    ensures none { (clock ≡ 0 → ⊥) → slice_index roots.now clock ≡ 0 → result ≡ 0 }
{
    if clock == 0 || roots[clock] != 0 {
        vector[clock]
    } else {
        0
    }
}

// Raises the top of each component to the numbers that count for it.
fn raise_tops(tops: &mut [u64], roots: &[u32], vector: &[u64])
    requires sizes { length vector.now ≡ length roots.now }
    requires roots { (c : ℕ) → c < length roots.now → slice_index roots.now c < length roots.now }
    requires none { AreTops roots.now vector.now 0 tops.old }
    ensures { AreTops roots.now vector.now (length roots.now) tops.new }
{
    for clock in 0..roots.len() {
        raise(tops, roots[clock] as usize, counted(roots, vector, clock));
    }
}

// For each root the number of its component that is to be a one of each instant: that of the base, or the greatest.
fn tops(alloc: Global, roots: &[u32], vector: &[u64]) -> Result<Vec<u64>, RateFault>
    requires sizes { length vector.now ≡ length roots.now }
    requires roots { (c : ℕ) → c < length roots.now → slice_index roots.now c < length roots.now }
    ensures ok { IfOk result (λ list. AreTops roots.now vector.now (length roots.now) list.items) }
    ensures refused { IfErr result (λ e. e ≡ fault.OutOfMemory) }
{
    let mut list = vec![in alloc; 0u64; roots.len()]?;
    raise_tops(&mut list, roots, vector);
    Ok(list)
}

// Whether a clock has positions, as all have but an unused base.
fn is_used(clock: usize, is_base_used: bool) -> bool
    ensures { result ≡ counts is_base_used clock }
{
    clock != 0 || is_base_used
}

// The least common multiple of a period and a top, where the top counts, if it is within the limit of positions.
fn with_top(period: u64, top: u64, is_counted: bool) -> Result<u64, RateFault>
    requires some { 0 < period }
    requires few { period ≤ most_positions }
    requires top { 0 < top }
    requires short { top ≤ most_bits * most_rate }
    ensures least { IfOk result (λ next. is_counted ≡ true → IsLcm period top next) }
    ensures same { IfOk result (λ next. is_counted ≡ false → next ≡ period) }
    ensures few { IfOk result (λ next. next ≤ most_positions) }
    ensures refused { IfErr result (λ e. (e ≡ fault.Limit limit.Positions) × (is_counted ≡ true) × ((m : ℕ) → IsLcm period top m → most_positions < m)) }
{
    if is_counted {
        multiple(period, top)
    } else {
        Ok(period)
    }
}

// The least common multiple of the tops of all components, an unused base's apart, if it is within the limit of positions.
fn common_period(roots: &[u32], tops: &[u64], is_base_used: bool) -> Result<u64, RateFault>
    requires roots { (c : ℕ) → c < length roots.now → slice_index roots.now c < length tops.now }
    requires some { (c : ℕ) → c < length roots.now → 0 < slice_index tops.now (slice_index roots.now c) }
    requires few { (c : ℕ) → c < length roots.now → slice_index tops.now (slice_index roots.now c) ≤ 2 ^ 32 }
    ensures ok { IfOk result (IsPeriodTo is_base_used roots.now tops.now (length roots.now)) }
    ensures refused { IfErr result (λ e. (e ≡ fault.Limit limit.Positions) × HasLargeCommon is_base_used (λ c. slice_index tops.now (slice_index roots.now c)) (length roots.now)) }
{
    let mut period = 1;
    for clock in 0..roots.len() {
        let top = tops[roots[clock] as usize];
        period = with_top(period, top, is_used(clock, is_base_used))?;
    }
    Ok(period)
}

// Raises the number of each clock to the lengths of the prefixes after it.
fn raise_prefixes(prefixes: &mut [u64], needs: &[Need])
    requires within { All (IsWithin (length prefixes.old)) needs.now }
    requires none { AreLongest needs.now (length prefixes.old) 0 prefixes.old }
    ensures { AreLongest needs.now (length prefixes.old) (length needs.now) prefixes.new }
{
    for need in needs {
        let (first, second) = need.terms();
        let (first_prefix, _) = first.word.lengths();
        let (second_prefix, _) = second.word.lengths();
        raise(prefixes, first.clock as usize, first_prefix);
        raise(prefixes, second.clock as usize, second_prefix);
    }
}

// For each clock by its number the greatest length of a prefix of the words after it, in bits.
fn prefixes(alloc: Global, clocks: usize, needs: &[Need]) -> Result<Vec<u64>, RateFault>
    requires { All (IsWithin clocks) needs.now }
    ensures ok { IfOk result (λ list. AreLongest needs.now clocks (length needs.now) list.items) }
    ensures refused { IfErr result (λ e. e ≡ fault.OutOfMemory) }
{
    let mut list = vec![in alloc; 0u64; clocks]?;
    raise_prefixes(&mut list, needs);
    Ok(list)
}

// For each clock by its number how many ones it has in a period.
fn ones(
    alloc: Global,
    roots: &[u32],
    vector: &[u64],
    tops: &[u64],
    period: u64,
) -> Result<Vec<u64>, RateFault>
    requires sizes { length vector.now ≡ length roots.now }
    requires roots { (c : ℕ) → c < length roots.now → slice_index roots.now c < length tops.now }
    requires some { (c : ℕ) → c < length roots.now → 0 < slice_index tops.now (slice_index roots.now c) }
    requires few { (c : ℕ) → c < length roots.now → slice_index vector.now c ≤ 2 ^ 32 }
    requires short { period ≤ most_period }
    ensures ok { IfOk result (λ list. AreOnes roots.now vector.now tops.now period (length roots.now) list.items) }
    ensures refused { IfErr result (λ e. e ≡ fault.OutOfMemory) }
{
    let mut list = Vec::new(alloc);
    for clock in 0..roots.len() {
        let periods = period / tops[roots[clock] as usize];
        list.push(vector[clock] * periods)?;
    }
    Ok(list)
}

// The shape of a clock with so many ones in a period, behind clocks that take the variables below `first`, if there is room for
// its positions.
fn clock_shape(
    is_used: bool,
    lead: u64,
    ones: u64,
    prefix: u64,
    first: u64,
) -> Result<ClockShape, RateFault>
    requires lead { lead ≤ 64 }
    requires ones { ones ≤ most_ones }
    requires prefix { prefix ≤ most_bits }
    requires first { first ≤ 1 + most_positions }
    ensures used { IfOk result (λ shape. is_used ≡ true → shape ≡ record { used = true; lead = lead * ones + prefix; ones = ones; first = first }) }
    ensures unused { IfOk result (λ shape. is_used ≡ false → shape ≡ unused) }
    ensures few { IfOk result (λ shape. first + shape.lead + shape.ones ≤ 1 + most_positions) }
    ensures refused { IfErr result (λ e. (e ≡ fault.Limit limit.Positions) × (is_used ≡ true) × (1 + most_positions < first + (lead * ones + prefix) + ones)) }
{
    if !is_used {
        return Ok(ClockShape {
            used: false,
            lead: 0,
            ones: 0,
            first: 0,
        });
    }
    let before = lead * ones + prefix;
    if first + before + ones > 1 + Limit::Positions.number() {
        return Err(RateFault::Limit(Limit::Positions));
    }
    Ok(ClockShape {
        used: true,
        lead: before,
        ones,
        first: first as u32,
    })
}

// The shapes of all clocks, one behind the other, if there are no more positions than are allowed.
fn shapes(
    alloc: Global,
    ones: &[u64],
    prefixes: &[u64],
    lead: u64,
    is_base_used: bool,
) -> Result<Vec<ClockShape>, RateFault>
    requires sizes { length prefixes.now ≡ length ones.now }
    requires ones { (c : ℕ) → c < length ones.now → slice_index ones.now c ≤ most_ones }
    requires prefixes { (c : ℕ) → c < length ones.now → slice_index prefixes.now c ≤ most_bits }
    requires lead { lead ≤ 64 }
    ensures exact { IfOk result (λ list. list.items ≡ laid_out is_base_used lead (slice_index ones.now) (slice_index prefixes.now) (length ones.now)) }
    ensures few { IfOk result (λ list. variable_count list.items ≤ 1 + most_positions) }
    ensures refused { IfErr result (λ e. (e ≡ fault.OutOfMemory) ⊎ ((e ≡ fault.Limit limit.Positions)
        × (1 + most_positions < variable_count (laid_out is_base_used lead (slice_index ones.now) (slice_index prefixes.now) (length ones.now))))) }
{
    let mut list = Vec::new(alloc);
    let mut first = 1;
    for clock in 0..ones.len() {
        let shape = clock_shape(
            is_used(clock, is_base_used),
            lead,
            ones[clock],
            prefixes[clock],
            first,
        )?;
        first += shape.lead + shape.ones;
        list.push(shape)?;
    }
    Ok(list)
}

// How many instants a period has, `scale` times as many as the common multiple of the tops, and for each clock by its number how
// many ones it has in one.
fn counted_ones(
    alloc: Global,
    roots: &[u32],
    vector: &[u64],
    scale: u64,
    is_base_used: bool,
) -> Result<(u64, Vec<u64>), RateFault>
    requires sizes { length vector.now ≡ length roots.now }
    requires roots { (c : ℕ) → c < length roots.now → slice_index roots.now c < length roots.now }
    requires tops { (tops : List ℕ) → AreTops roots.now vector.now (length roots.now) tops → HaveOnes roots.now tops }
    requires few { (c : ℕ) → c < length roots.now → slice_index vector.now c ≤ 2 ^ 32 }
    requires scale { scale ≤ 64 }
    ensures ok { IfOk result (λ r. AreCounted is_base_used roots.now vector.now scale r.0 r.1.items) }
    ensures refused { IfErr result (λ e. (e ≡ fault.OutOfMemory) ⊎ ((e ≡ fault.Limit limit.Positions) × HaveLargeCommon is_base_used roots.now vector.now)) }
{
    let tops = tops(alloc, roots, vector)?;
    let period = scale * common_period(roots, &tops, is_base_used)?;
    let ones = ones(alloc, roots, vector, &tops, period)?;
    Ok((period, ones))
}

// The shapes of all clocks that have so many ones, each behind the prefixes of the words after it.
fn all_shapes(
    alloc: Global,
    needs: &Needs,
    ones: &[u64],
    lead: u64,
    is_base_used: bool,
) -> Result<Vec<ClockShape>, RateFault>
    requires proper { AreProperNeeds needs.now }
    requires size { length ones.now ≡ needs.now.clocks }
    requires ones { (c : ℕ) → c < length ones.now → slice_index ones.now c ≤ most_ones }
    requires lead { lead ≤ 64 }
    ensures ok { IfOk result (λ list. AreShapes is_base_used lead needs.now ones.now list.items) }
    ensures few { IfOk result (λ list. variable_count list.items ≤ 1 + most_positions) }
    ensures refused { IfErr result (λ e. (e ≡ fault.OutOfMemory) ⊎ ((e ≡ fault.Limit limit.Positions)
        × ((list : List ClockShapeOf) × AreShapes is_base_used lead needs.now ones.now list × (1 + most_positions < variable_count list)))) }
{
    let prefixes = prefixes(alloc, needs.clocks as usize, needs.list.list())?;
    shapes(alloc, ones, &prefixes, lead, is_base_used)
}

/// The shape of balanced needs, with a scale and a lead from 1 to 64, from the trees and rates of their clocks.
/// `Limit(Positions)` comes where it has more positions than that limit allows. It never answers `Unequal`, or another limit.
pub(crate) fn shape_of(
    alloc: Global,
    needs: &Needs,
    forest: &Forest,
    scale: u64,
    lead: u64,
) -> Result<Shape, RateFault>
    requires proper { AreProperNeeds needs.now }
    requires words { AllByRecursion HasWords needs.now.list }
    requires forest { IsForest needs.now.list needs.now.clocks forest.now.roots.items forest.now.parents.items forest.now.rates.items }
    requires balanced { AreBalanced needs.now.list }
    requires scale { 1 ≤ scale }
    requires scale_few { scale ≤ 64 }
    requires lead { 1 ≤ lead }
    requires lead_few { lead ≤ 64 }
    ensures shape { IfOk result (IsShapeOf needs.now scale lead) }
    ensures refused { IfErr result (λ e. (e ≡ fault.OutOfMemory) ⊎ ((e ≡ fault.Limit limit.Positions) × IsTooWide needs.now scale lead)) }
{
    let list = needs.list.list();
    let is_base_used = is_base_named(list);
    let vector = numbers(alloc, forest, list)?;
    let (period, ones) = counted_ones(alloc, &forest.roots, &vector, scale, is_base_used)?;
    let clocks = all_shapes(alloc, needs, &ones, lead, is_base_used)?;
    Ok(Shape {
        period,
        clocks: ClockShapes::new(clocks),
    })
}
