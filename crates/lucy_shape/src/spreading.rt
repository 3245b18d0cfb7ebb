// All inequalities of a shape and of needs.
ghost use Rattle.std.specs.Prelude.{ℕ, ℤ, List, ◌≡◌, ◌⊎◌, ◌+◌, ◌<◌, ◌≤◌, ◌↔◌, length, Result, Ok, Err, IfOk, IfErr, IfSome, IsNone, IsTrue};
ghost use Rattle.std.specs.List.{flat_map, AllByRecursion, Contains};
ghost use Rattle.lucy_word.specs.Bits.{most_bits};
ghost use Rattle.lucy_need.specs.Meeting.{Assignment, MeetsAll, alone};
ghost use Rattle.lucy_need.specs.Stored.{HasWords};
ghost use Rattle.lucy_need.specs.declared.need.Need.TheVariants.{Adapt};
ghost use Rattle.lucy_solve.specs.System.{IsGrounded, Solves, most_inequalities};
ghost use Rattle.lucy_word.specs.declared.limit.Limit.TheVariants as limit;
ghost use Rattle.lucy_shape.specs.declared.shape.RateFault.TheVariants as fault;
ghost use Rattle.lucy_shape.specs.Fitting.{IsFitting, IsShapeFor, IsLaidOut, ArePositions, variable_count, most_positions};
ghost use Rattle.lucy_shape.specs.Inequalities.{shape_rows, need_rows, inequalities, system_of, SolvesShape};
ghost use Rattle.lucy_shape.specs.Sized.{sized_inequalities, sized_system, MeetsWithin};

use crate::clocks::{add_clocks, rows_of_clock};
use crate::instances::{add_needs, rows_of_need};
use crate::sizing::{add_size, rows_of_size};
use crate::{ClockShape, RateFault, Shape};
use lucy_need::{Needs, needs_have_words};
use lucy_solve::Diffs;
use lucy_word::Limit;
use std::alloc::Global;

// How many variables the clocks have, the origin among them.
fn count_of(clocks: &[ClockShape]) -> u32
    requires { variable_count clocks.now ≤ 1 + most_positions }
    ensures { result ≡ variable_count clocks.now }
{
    let mut count = 1;
    for clock in clocks {
        if clock.used {
            count += (clock.lead + clock.ones) as u32;
        }
    }
    count
}

// How many inequalities may still be made besides those of the clocks.
fn left_by_clocks(shape: &Shape) -> Option<u64>
    requires { IsLaidOut shape.now }
    ensures some { IfSome result (λ left. left + length (shape_rows shape.now) ≡ most_inequalities) }
    ensures none { IsNone result → most_inequalities < length (shape_rows shape.now) }
{
    let clocks = shape.clocks.list();
    let mut left = Limit::Inequalities.number();
    for c in 0..clocks.len() {
        let rows = rows_of_clock(&clocks[c], c == 0);
        if rows > left {
            return None;
        }
        left -= rows;
    }
    Some(left)
}

// And besides those of the needs.
fn left_by_needs(needs: &Needs, shape: &Shape, left: u64) -> Option<u64>
    requires shape { IsShapeFor needs.now shape.now }
    requires words { AllByRecursion HasWords needs.now.list }
    ensures some { IfSome result (λ rest. rest + length (flat_map (need_rows shape.now.period shape.now.clocks) needs.now.list) ≡ left) }
    ensures none { IsNone result → left < length (flat_map (need_rows shape.now.period shape.now.clocks) needs.now.list) }
{
    let clocks = shape.clocks.list();
    let mut left = left;
    for need in needs.list.list() {
        let rows = rows_of_need(clocks, need);
        if rows > left {
            return None;
        }
        left -= rows;
    }
    Some(left)
}

// Whether with so many more there are no more inequalities than are allowed, before any is made.
fn are_few(needs: &Needs, shape: &Shape, more: u64) -> bool
    requires shape { IsShapeFor needs.now shape.now }
    requires words { AllByRecursion HasWords needs.now.list }
    ensures { IsTrue result ↔ (length (inequalities needs.now shape.now) + more ≤ most_inequalities) }
{
    match left_by_clocks(shape) {
        Some(left) => match left_by_needs(needs, shape, left) {
            Some(rest) => more <= rest,
            None => false,
        },
        None => false,
    }
}

// The inequalities of clocks and needs, which are few.
fn fill(alloc: Global, needs: &Needs, shape: &Shape) -> Result<Diffs, RateFault>
    requires shape { IsShapeFor needs.now shape.now }
    requires words { AllByRecursion HasWords needs.now.list }
    requires few { length (inequalities needs.now shape.now) ≤ most_inequalities }
    ensures list { IfOk result (λ diffs. diffs ≡ system_of needs.now shape.now) }
    ensures refused { IfErr result (λ e. e ≡ fault.OutOfMemory) }
{
    let mut diffs = Diffs::new(alloc, count_of(shape.clocks.list()));
    add_clocks(alloc, &mut diffs, shape)?;
    add_needs(alloc, &mut diffs, needs, shape)?;
    Ok(diffs)
}

/// The inequalities of needs in a shape that carries them: bounds, neighbours and period of each clock in turn, and then the
/// instances of the needs in order. An assignment that fits the shape meets the needs exactly where its positions solve them,
/// and numbers that solve them are the positions of one. `Limit(Inequalities)` comes exactly where they are more than that
/// limit allows, before any is made. It never answers `Unequal`.
pub fn spread(alloc: Global, needs: &Needs, shape: &Shape) -> Result<Diffs, RateFault>
    requires { IsShapeFor needs.now shape.now }
    ensures list { IfOk result (λ diffs. diffs ≡ system_of needs.now shape.now) }
    ensures ready { IfOk result IsGrounded }
    ensures limit { most_inequalities < length (inequalities needs.now shape.now) → result ≡ Err (fault.Limit limit.Inequalities) }
    ensures refused { IfErr result (λ e. (e ≡ fault.OutOfMemory) ⊎ ((e ≡ fault.Limit limit.Inequalities) × (most_inequalities < length (inequalities needs.now shape.now)))) }
    ensures exact { IfOk result (λ diffs. (w : Assignment) (xs : List ℤ) → IsFitting shape.now w → ArePositions shape.now w xs → (MeetsAll w needs.now.list ↔ Solves diffs xs)) }
    ensures fitting { IfOk result (λ diffs. (xs : List ℤ) → Solves diffs xs → (w : Assignment) × IsFitting shape.now w × ArePositions shape.now w xs × MeetsAll w needs.now.list) }
    ensures solved { IfOk result (λ diffs. (xs : List ℤ) → Solves diffs xs → SolvesShape shape.now xs) }
{
    needs_have_words(needs);
    if !are_few(needs, shape, 0) {
        return Err(RateFault::Limit(Limit::Inequalities));
    }
    fill(alloc, needs, shape)
}

/// The inequalities that `spread` gives, and after them those by which no more than `size` items, at most 2^20, wait in the
/// buffer that is written on clock `from` and read on clock `to`: one for each instance of its need. An assignment that fits
/// the shape meets the needs with no more than so many waiting exactly where its positions solve them, and numbers that solve
/// them are the positions of one. `Limit(Inequalities)` comes exactly where they are more than that limit allows, before any is
/// made, which doesn't depend on the size. It never answers `Unequal`.
pub fn spread_sized(
    alloc: Global,
    needs: &Needs,
    shape: &Shape,
    from: u32,
    to: u32,
    size: u64,
) -> Result<Diffs, RateFault>
    requires shape { IsShapeFor needs.now shape.now }
    requires buffer { Contains needs.now.list (Adapt (alone from) (alone to)) }
    requires size { size ≤ most_bits }
    ensures list { IfOk result (λ diffs. diffs ≡ sized_system needs.now shape.now from to size) }
    ensures ready { IfOk result IsGrounded }
    ensures limit { most_inequalities < length (sized_inequalities needs.now shape.now from to size) → result ≡ Err (fault.Limit limit.Inequalities) }
    ensures refused { IfErr result (λ e. (e ≡ fault.OutOfMemory) ⊎ ((e ≡ fault.Limit limit.Inequalities) × (most_inequalities < length (sized_inequalities needs.now shape.now from to size)))) }
    ensures exact { IfOk result (λ diffs. (w : Assignment) (xs : List ℤ) → IsFitting shape.now w → ArePositions shape.now w xs → (MeetsWithin needs.now from to size w ↔ Solves diffs xs)) }
    ensures fitting { IfOk result (λ diffs. (xs : List ℤ) → Solves diffs xs → (w : Assignment) × IsFitting shape.now w × ArePositions shape.now w xs × MeetsWithin needs.now from to size w) }
    ensures solved { IfOk result (λ diffs. (xs : List ℤ) → Solves diffs xs → SolvesShape shape.now xs) }
{
    needs_have_words(needs);
    let clocks = shape.clocks.list();
    if !are_few(needs, shape, rows_of_size(clocks, from, to)) {
        return Err(RateFault::Limit(Limit::Inequalities));
    }
    let mut diffs = fill(alloc, needs, shape)?;
    add_size(alloc, &mut diffs, shape.period, clocks, from, to, size)?;
    Ok(diffs)
}
