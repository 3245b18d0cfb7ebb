// Single inequalities, put behind others.
ghost use Rattle.std.specs.Prelude.{ℕ, ◌≡◌, ◌+◌, ◌*◌, ◌/◌, ◌<◌, ◌≤◌, ◌∷◌, [], OnOk, IfErr};
ghost use Rattle.lucy_solve.specs.System.{most_constant, IsProper};
ghost use Rattle.lucy_shape.specs.declared.shape.RateFault.TheVariants as fault;
ghost use Rattle.lucy_shape.specs.Fitting.{variable_of};
ghost use Rattle.lucy_shape.specs.Rows.{turns_of, folded, row};
ghost use Rattle.lucy_shape.specs.Added.{with_rows, IsFoldable};

use crate::{ClockShape, RateFault};
use lucy_solve::{Diff, Diffs};
use std::alloc::Global;

/// One more inequality.
pub(crate) fn add(alloc: Global, diffs: &mut Diffs, diff: Diff) -> Result<(), RateFault>
    requires { IsProper diffs.old.count diff }
    ensures ok { OnOk result (diffs.new ≡ with_rows diffs.old (diff ∷ [])) }
    ensures refused { IfErr result (λ e. e ≡ fault.OutOfMemory) }
{
    match diffs.push(alloc, diff) {
        Ok(()) => Ok(()),
        Err(_) => Err(RateFault::OutOfMemory),
    }
}

/// Two more inequalities.
pub(crate) fn add_pair(
    alloc: Global,
    diffs: &mut Diffs,
    one: Diff,
    two: Diff,
) -> Result<(), RateFault>
    requires one { IsProper diffs.old.count one }
    requires two { IsProper diffs.old.count two }
    ensures ok { OnOk result (diffs.new ≡ with_rows diffs.old (one ∷ two ∷ [])) }
    ensures refused { IfErr result (λ e. e ≡ fault.OutOfMemory) }
{
    add(alloc, diffs, one)?;
    add(alloc, diffs, two)
}

// By how many whole turns a number goes past: nothing is divided where it is less than one.
fn turns(number: u64, turn: u64) -> u64
    requires { 0 < turn }
    ensures { result ≡ number / turn }
{
    if number < turn { 0 } else { number / turn }
}

// The variable of a position, folded, and how many instants later than it the position stands.
fn place(clock: &ClockShape, period: u64, position: u64) -> (u32, u64)
    requires { IsFoldable period clock.now position }
    ensures var { result.0 ≡ variable_of clock.now (folded clock.now position) }
    ensures add { result.1 ≡ turns_of clock.now position * period }
    ensures within { result.0 < clock.now.first + clock.now.lead + clock.now.ones }
    ensures few { result.1 < most_constant }
{
    let past = position.saturating_sub(clock.lead).saturating_sub(1);
    let turns = turns(past, clock.ones);
    let folded = position - turns * clock.ones;
    (clock.first + folded as u32 - 1, turns * period)
}

/// A position of a clock stands no later than one of another.
pub(crate) fn instance(
    period: u64,
    first: &ClockShape,
    position: u64,
    second: &ClockShape,
    other: u64,
) -> Diff
    requires first { IsFoldable period first.now position }
    requires second { IsFoldable period second.now other }
    ensures row { result ≡ row period first.now position second.now other }
    ensures proper { (count : ℕ) → first.now.first + first.now.lead + first.now.ones ≤ count → second.now.first + second.now.lead + second.now.ones ≤ count → IsProper count result }
{
    let (left, before) = place(first, period, position);
    let (right, after) = place(second, period, other);
    Diff {
        left,
        right,
        most: after as i64 - before as i64,
    }
}
