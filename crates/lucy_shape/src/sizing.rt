// The inequalities of one buffer's size, instance by instance.
ghost use Rattle.std.specs.Prelude.{ℕ, ◌≡◌, ◌+◌, ◌*◌, ◌≤◌, length, OnOk, IfErr};
ghost use Rattle.lucy_word.specs.Bits.{most_bits};
ghost use Rattle.lucy_need.specs.Meeting.{alone};
ghost use Rattle.lucy_need.specs.declared.need.Need.TheVariants.{Adapt};
ghost use Rattle.lucy_shape.specs.declared.shape.RateFault.TheVariants as fault;
ghost use Rattle.lucy_shape.specs.Fitting.{most_positions};
ghost use Rattle.lucy_shape.specs.Added.{with_rows, IsNeedSpreadable, IsSmall};
ghost use Rattle.lucy_shape.specs.Sized.{size_rows};

use crate::rows::{add, instance};
use crate::{ClockShape, RateFault};
use lucy_solve::Diffs;
use std::alloc::Global;

/// How many inequalities a size has: one for each instance of the need between the two clocks.
pub(crate) fn rows_of_size(clocks: &[ClockShape], from: u32, to: u32) -> u64
    requires { IsNeedSpreadable (1 + most_positions) clocks.now (Adapt (alone from) (alone to)) }
    ensures count { (period size : ℕ) → result ≡ length (size_rows period clocks.now from to size) }
    ensures few { result ≤ 2 * most_positions }
{
    let writing = &clocks[from as usize];
    let reading = &clocks[to as usize];
    writing.lead.max(reading.lead) + writing.ones
}

/// The inequalities by which no more than so many items wait between the two clocks.
pub(crate) fn add_size(
    alloc: Global,
    diffs: &mut Diffs,
    period: u64,
    clocks: &[ClockShape],
    from: u32,
    to: u32,
    size: u64,
) -> Result<(), RateFault>
    requires ready { IsNeedSpreadable diffs.old.count clocks.now (Adapt (alone from) (alone to)) }
    requires small { IsSmall period diffs.old.count }
    requires size { size ≤ most_bits }
    ensures ok { OnOk result (diffs.new ≡ with_rows diffs.old (size_rows period clocks.now from to size)) }
    ensures refused { IfErr result (λ e. e ≡ fault.OutOfMemory) }
{
    let writing = &clocks[from as usize];
    let reading = &clocks[to as usize];
    for k in 0..rows_of_size(clocks, from, to) {
        let diff = instance(period, reading, k + 1, writing, k + 1 + size);
        add(alloc, diffs, diff)?;
    }
    Ok(())
}
