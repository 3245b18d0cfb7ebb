// The inequalities of needs, instance by instance.
ghost use Rattle.std.specs.Prelude.{ℕ, ◌≡◌, ◌+◌, ◌*◌, ◌/◌, ◌<◌, ◌≤◌, ◌^◌, ◌∷◌, [], length, map, max, OnOk, IfErr};
ghost use Rattle.std.specs.List.{range_with_len, flat_map, AllByRecursion};
ghost use Rattle.lucy_word.specs.Bits.{ones_in};
ghost use Rattle.lucy_solve.specs.System.{most_inequalities};
ghost use Rattle.lucy_shape.specs.declared.shape.RateFault.TheVariants as fault;
ghost use Rattle.lucy_shape.specs.Index.{index_of};
ghost use Rattle.lucy_need.specs.Stored.{HasWords};
ghost use Rattle.lucy_shape.specs.Fitting.{IsShapeFor, variable_count, most_positions};
ghost use Rattle.lucy_shape.specs.Rows.{row};
ghost use Rattle.lucy_shape.specs.Inequalities.{lead_instances, need_rows};
ghost use Rattle.lucy_shape.specs.Added.{with_rows, IsSpreadable, IsNeedSpreadable, IsSmall};

use crate::positions::positions;
use crate::rows::{add, add_pair, instance};
use crate::{ClockShape, RateFault, Shape};
use lucy_need::{Need, Needs};
use lucy_solve::Diffs;
use lucy_word::Word;
use std::alloc::Global;

// How many instances a need has: until both terms come again, and then one period.
fn instances_of(first: &ClockShape, u: &Word, second: &ClockShape, v: &Word) -> u64
    requires first { IsSpreadable (1 + most_positions) first.now u.now }
    requires second { IsSpreadable (1 + most_positions) second.now v.now }
    ensures is { result ≡ max (lead_instances first.now.lead u.now) (lead_instances second.now.lead v.now) + first.now.ones * ones_in u.now.period / length u.now.period }
    ensures few { result < 2 ^ 32 }
{
    let (prefix_u, _) = u.lengths();
    let (prefix_v, _) = v.lengths();
    let (ones, length) = u.rate();
    let before = u.ones(first.lead.max(prefix_u));
    let after = v.ones(second.lead.max(prefix_v));
    before.max(after) + first.ones * ones / length
}

// The instances of an adaptability.
fn add_adapt(
    alloc: Global,
    diffs: &mut Diffs,
    period: u64,
    first: &ClockShape,
    u: &Word,
    second: &ClockShape,
    v: &Word,
    count: u64,
) -> Result<(), RateFault>
    requires first { IsSpreadable diffs.old.count first.now u.now }
    requires second { IsSpreadable diffs.old.count second.now v.now }
    requires small { IsSmall period diffs.old.count }
    requires few { count ≤ most_inequalities }
    ensures ok { OnOk result (diffs.new ≡ with_rows diffs.old (map (λ k. row period first.now (index_of u.now k) second.now (index_of v.now k)) (range_with_len 1 count))) }
    ensures refused { IfErr result (λ e. e ≡ fault.OutOfMemory) }
{
    let before = positions(alloc, u, count)?;
    let after = positions(alloc, v, count)?;
    for k in 0..count as usize {
        let diff = instance(period, first, before[k], second, after[k]);
        add(alloc, diffs, diff)?;
    }
    Ok(())
}

// The instances of an equation.
fn add_equal(
    alloc: Global,
    diffs: &mut Diffs,
    period: u64,
    first: &ClockShape,
    u: &Word,
    second: &ClockShape,
    v: &Word,
    count: u64,
) -> Result<(), RateFault>
    requires first { IsSpreadable diffs.old.count first.now u.now }
    requires second { IsSpreadable diffs.old.count second.now v.now }
    requires small { IsSmall period diffs.old.count }
    requires few { count ≤ most_inequalities }
    ensures ok { OnOk result (diffs.new ≡ with_rows diffs.old (flat_map (λ k. row period first.now (index_of u.now k) second.now (index_of v.now k) ∷ row period second.now (index_of v.now k) first.now (index_of u.now k) ∷ []) (range_with_len 1 count))) }
    ensures refused { IfErr result (λ e. e ≡ fault.OutOfMemory) }
{
    let before = positions(alloc, u, count)?;
    let after = positions(alloc, v, count)?;
    for k in 0..count as usize {
        let left = before[k];
        let right = after[k];
        let one = instance(period, first, left, second, right);
        let two = instance(period, second, right, first, left);
        add_pair(alloc, diffs, one, two)?;
    }
    Ok(())
}

// The instances of a need.
fn add_need(
    alloc: Global,
    diffs: &mut Diffs,
    period: u64,
    clocks: &[ClockShape],
    need: &Need,
) -> Result<(), RateFault>
    requires ready { IsNeedSpreadable diffs.old.count clocks.now need.now }
    requires small { IsSmall period diffs.old.count }
    requires few { length (need_rows period clocks.now need.now) ≤ most_inequalities }
    ensures ok { OnOk result (diffs.new ≡ with_rows diffs.old (need_rows period clocks.now need.now)) }
    ensures refused { IfErr result (λ e. e ≡ fault.OutOfMemory) }
{
    match need {
        Need::Equal(s, t) => {
            let first = &clocks[s.clock as usize];
            let second = &clocks[t.clock as usize];
            let count = instances_of(first, &s.word, second, &t.word);
            add_equal(alloc, diffs, period, first, &s.word, second, &t.word, count)
        }
        Need::Adapt(s, t) => {
            let first = &clocks[s.clock as usize];
            let second = &clocks[t.clock as usize];
            let count = instances_of(first, &s.word, second, &t.word);
            add_adapt(alloc, diffs, period, first, &s.word, second, &t.word, count)
        }
    }
}

/// The inequalities of all needs, one after the other.
pub(crate) fn add_needs(
    alloc: Global,
    diffs: &mut Diffs,
    needs: &Needs,
    shape: &Shape,
) -> Result<(), RateFault>
    requires shape { IsShapeFor needs.now shape.now }
    requires words { AllByRecursion HasWords needs.now.list }
    requires count { diffs.old.count ≡ variable_count shape.now.clocks }
    requires few { length (flat_map (need_rows shape.now.period shape.now.clocks) needs.now.list) ≤ most_inequalities }
    ensures ok { OnOk result (diffs.new ≡ with_rows diffs.old (flat_map (need_rows shape.now.period shape.now.clocks) needs.now.list)) }
    ensures refused { IfErr result (λ e. e ≡ fault.OutOfMemory) }
{
    let clocks = shape.clocks.list();
    for need in needs.list.list() {
        add_need(alloc, diffs, shape.period, clocks, need)?;
    }
    Ok(())
}

/// How many inequalities a need has.
pub(crate) fn rows_of_need(clocks: &[ClockShape], need: &Need) -> u64
    requires { IsNeedSpreadable (1 + most_positions) clocks.now need.now }
    ensures { (period : ℕ) → result ≡ length (need_rows period clocks.now need.now) }
{
    match need {
        Need::Equal(s, t) => {
            let first = &clocks[s.clock as usize];
            let second = &clocks[t.clock as usize];
            2 * instances_of(first, &s.word, second, &t.word)
        }
        Need::Adapt(s, t) => {
            let first = &clocks[s.clock as usize];
            let second = &clocks[t.clock as usize];
            instances_of(first, &s.word, second, &t.word)
        }
    }
}
