// The inequalities of clocks: their bounds, their neighbours and the period.
ghost use Rattle.std.specs.Prelude.{ℕ, ◌≡◌, ◌+◌, ◌*◌, ◌≤◌, ◌∷◌, [], pos, neg_ℤ, length, true, OnOk, IfErr, if◌then◌else◌};
ghost use Rattle.lucy_shape.specs.declared.shape.RateFault.TheVariants as fault;
ghost use Rattle.lucy_shape.specs.Fitting.{IsLaidOut, variable_count, most_positions};
ghost use Rattle.lucy_shape.specs.Inequalities.{bound_rows, base_rows, neighbour_rows, period_row, clock_rows, shape_rows};
ghost use Rattle.lucy_shape.specs.Added.{with_rows, IsPlaced, IsSmall};

use crate::rows::{add, add_pair};
use crate::{ClockShape, RateFault, Shape};
use lucy_solve::{Diff, Diffs};
use std::alloc::Global;

// Each position stands at instant 1 or later.
fn add_bounds(alloc: Global, diffs: &mut Diffs, clock: &ClockShape) -> Result<(), RateFault>
    requires placed { IsPlaced diffs.old.count clock.now }
    requires small { IsSmall 0 diffs.old.count }
    ensures ok { OnOk result (diffs.new ≡ with_rows diffs.old (bound_rows clock.now)) }
    ensures refused { IfErr result (λ e. e ≡ fault.OutOfMemory) }
{
    for place in 0..(clock.lead + clock.ones) as u32 {
        let diff = Diff {
            left: 0,
            right: clock.first + place,
            most: -1,
        };
        add(alloc, diffs, diff)?;
    }
    Ok(())
}

// The variable is at least this number, and at most.
fn stands_at(variable: u32, number: u32) -> (Diff, Diff)
    ensures low { result.0 ≡ record { left = 0; right = variable; most = neg_ℤ (pos number) } }
    ensures high { result.1 ≡ record { left = variable; right = 0; most = pos number } }
{
    let low = Diff {
        left: 0,
        right: variable,
        most: -(number as i64),
    };
    let high = Diff {
        left: variable,
        right: 0,
        most: number as i64,
    };
    (low, high)
}

// Each position of the base stands at its own instant.
fn add_base(alloc: Global, diffs: &mut Diffs, clock: &ClockShape) -> Result<(), RateFault>
    requires placed { IsPlaced diffs.old.count clock.now }
    requires small { IsSmall 0 diffs.old.count }
    ensures ok { OnOk result (diffs.new ≡ with_rows diffs.old (base_rows clock.now)) }
    ensures refused { IfErr result (λ e. e ≡ fault.OutOfMemory) }
{
    for place in 0..(clock.lead + clock.ones) as u32 {
        let (low, high) = stands_at(clock.first + place, place + 1);
        add_pair(alloc, diffs, low, high)?;
    }
    Ok(())
}

// Each position stands before the next.
fn add_neighbours(alloc: Global, diffs: &mut Diffs, clock: &ClockShape) -> Result<(), RateFault>
    requires placed { IsPlaced diffs.old.count clock.now }
    requires small { IsSmall 0 diffs.old.count }
    ensures ok { OnOk result (diffs.new ≡ with_rows diffs.old (neighbour_rows clock.now)) }
    ensures refused { IfErr result (λ e. e ≡ fault.OutOfMemory) }
{
    for place in 0..(clock.lead + clock.ones - 1) as u32 {
        let variable = clock.first + place;
        let diff = Diff {
            left: variable,
            right: variable + 1,
            most: -1,
        };
        add(alloc, diffs, diff)?;
    }
    Ok(())
}

// The last position stands before that which comes a period after the first past the lead.
fn add_period(
    alloc: Global,
    diffs: &mut Diffs,
    clock: &ClockShape,
    period: u64,
) -> Result<(), RateFault>
    requires placed { IsPlaced diffs.old.count clock.now }
    requires small { IsSmall period diffs.old.count }
    ensures ok { OnOk result (diffs.new ≡ with_rows diffs.old (period_row period clock.now ∷ [])) }
    ensures refused { IfErr result (λ e. e ≡ fault.OutOfMemory) }
{
    let start = clock.first + clock.lead as u32;
    let diff = Diff {
        left: start + clock.ones as u32 - 1,
        right: start,
        most: period as i64 - 1,
    };
    add(alloc, diffs, diff)
}

// The bounds of a clock's positions.
fn add_front(
    alloc: Global,
    diffs: &mut Diffs,
    clock: &ClockShape,
    is_base: bool,
) -> Result<(), RateFault>
    requires placed { IsPlaced diffs.old.count clock.now }
    requires small { IsSmall 0 diffs.old.count }
    ensures ok { OnOk result (diffs.new ≡ with_rows diffs.old (if is_base then base_rows clock.now else bound_rows clock.now)) }
    ensures refused { IfErr result (λ e. e ≡ fault.OutOfMemory) }
{
    if is_base {
        add_base(alloc, diffs, clock)
    } else {
        add_bounds(alloc, diffs, clock)
    }
}

// Bounds, neighbours and period of a clock.
fn add_clock(
    alloc: Global,
    diffs: &mut Diffs,
    period: u64,
    clock: &ClockShape,
    is_base: bool,
) -> Result<(), RateFault>
    requires placed { clock.now.used ≡ true → IsPlaced diffs.old.count clock.now }
    requires small { IsSmall period diffs.old.count }
    ensures ok { OnOk result (diffs.new ≡ with_rows diffs.old (clock_rows period is_base clock.now)) }
    ensures refused { IfErr result (λ e. e ≡ fault.OutOfMemory) }
{
    if !clock.used {
        return Ok(());
    }
    add_front(alloc, diffs, clock, is_base)?;
    add_neighbours(alloc, diffs, clock)?;
    add_period(alloc, diffs, clock, period)
}

/// The inequalities of all clocks, one after the other.
pub(crate) fn add_clocks(alloc: Global, diffs: &mut Diffs, shape: &Shape) -> Result<(), RateFault>
    requires laid { IsLaidOut shape.now }
    requires count { diffs.old.count ≡ variable_count shape.now.clocks }
    ensures ok { OnOk result (diffs.new ≡ with_rows diffs.old (shape_rows shape.now)) }
    ensures refused { IfErr result (λ e. e ≡ fault.OutOfMemory) }
{
    let clocks = shape.clocks.list();
    for c in 0..clocks.len() {
        add_clock(alloc, diffs, shape.period, &clocks[c], c == 0)?;
    }
    Ok(())
}

/// How many inequalities a clock has.
pub(crate) fn rows_of_clock(clock: &ClockShape, is_base: bool) -> u64
    requires { clock.now.used ≡ true → IsPlaced (1 + most_positions) clock.now }
    ensures { (period : ℕ) → result ≡ length (clock_rows period is_base clock.now) }
{
    if !clock.used {
        return 0;
    }
    let positions = clock.lead + clock.ones;
    if is_base {
        3 * positions
    } else {
        2 * positions
    }
}
