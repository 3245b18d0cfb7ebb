// Needs that aren't balanced, and the walks that show it.
ghost use Rattle.std.specs.Prelude.{ℕ, List, ◌≡◌, ◌↔◌, ◌<◌, ◌≤◌, ◌∷◌, ◌++◌, length, reverse, slice_index, IsTrue, IfSome, IfNone, IfOk};
ghost use Rattle.std.specs.List.{All};
ghost use Rattle.lucy_need.specs.Meeting.{IsWithin, most_needs};
ghost use Rattle.lucy_need.specs.Stored.{HasWords};
ghost use Rattle.lucy_rates.specs.Walks.{first_of, second_of, need_at, IsUnequalWalk};
ghost use Rattle.lucy_rates.specs.Trees.{AreEven, IsBalanced, IsFirstUnequal};
ghost use Rattle.lucy_rates.specs.Forests.{rate_at, IsForest, IsRateFraction};
ghost use Rattle.lucy_rates.specs.Growing.{IsGrown, IsOther, IsWayBack};

use crate::forest::{Forest, factor};
use crate::fraction::{Fraction, times};
use lucy_need::Need;
use std::alloc::{AllocError, Global};

fn is_same(a: Fraction, b: Fraction) -> bool
    ensures { IsTrue result ↔ ((a.num ≡ b.num) × (a.den ≡ b.den)) }
{
    a.num == b.num && a.den == b.den
}

// Whether both sides of a need have one rate.
fn is_even(need: &Need, rates: &[Fraction]) -> bool
    requires within { IsWithin (length rates.now) need.now }
    requires first { IsRateFraction (rate_at rates.now (first_of need.now).clock) }
    requires second { IsRateFraction (rate_at rates.now (second_of need.now).clock) }
    ensures { IsTrue result ↔ AreEven need.now (rate_at rates.now (first_of need.now).clock).num (rate_at rates.now (first_of need.now).clock).den (rate_at rates.now (second_of need.now).clock).num (rate_at rates.now (second_of need.now).clock).den }
{
    let (first, second) = need.terms();
    let (num, den) = factor(first, second);
    let expected = times(rates[first.clock as usize], num, den);
    is_same(expected, rates[second.clock as usize])
}

/// The number, from 0, of the first need that isn't balanced: the rates of its two sides differ.
pub(crate) fn first_unbalanced(needs: &[Need], forest: &Forest) -> Option<u32>
    requires within { All (IsWithin (length forest.now.rates.items)) needs.now }
    requires few { length needs.now ≤ most_needs }
    requires forest { IsForest needs.now (length forest.now.rates.items) forest.now.roots.items forest.now.parents.items forest.now.rates.items }
    ensures found { IfSome result (λ k. (k < length needs.now) × (IsBalanced needs.now (need_at needs.now k) → ⊥) × ((j : ℕ) → j < k → IsBalanced needs.now (need_at needs.now j))) }
    ensures none { IfNone result ((k : ℕ) → k < length needs.now → IsBalanced needs.now (need_at needs.now k)) }
{
    for k in 0..needs.len() {
        if !is_even(&needs[k], &forest.rates) {
            return Some(k as u32);
        }
    }
    None
}

// The need that reached a clock, and the other clock that it names.
fn up_from(needs: &[Need], parents: &[u32], clock: u32) -> (u32, u32)
    requires within { clock < length parents.now }
    requires reached { slice_index parents.now clock < length needs.now }
    ensures need { result.0 ≡ slice_index parents.now clock }
    ensures other { IsOther needs.now (slice_index parents.now clock) clock result.1 }
{
    let need = parents[clock as usize];
    let (first, second) = needs[need as usize].terms();
    let next = if first.clock == clock {
        second.clock
    } else {
        first.clock
    };
    (need, next)
}

// The one list, and behind it the other from its end.
fn turned(up: Vec<u32>, down: Vec<u32>) -> Result<Vec<u32>, AllocError>
    ensures { IfOk result (λ way. way.items ≡ up.items ++ reverse down.items) }
{
    let mut way = up;
    let mut rest = down;
    while let Some(need) = rest.pop() {
        way.push(need)?;
    }
    Ok(way)
}

// The needs along the tree from one clock to another of its component: the deeper of the two clocks goes up, until they meet.
fn way_back(
    alloc: Global,
    needs: &[Need],
    forest: &Forest,
    from: u32,
    to: u32,
) -> Result<Vec<u32>, AllocError>
    requires within { All (IsWithin (length forest.now.roots.items)) needs.now }
    requires grown { IsGrown needs.now (length forest.now.roots.items) forest.now }
    requires from { from < length forest.now.roots.items }
    requires to { to < length forest.now.roots.items }
    requires one { slice_index forest.now.roots.items from ≡ slice_index forest.now.roots.items to }
    ensures { IfOk result (λ way. IsWayBack needs.now forest.now.roots.items forest.now.rates.items from to way.items) }
{
    let mut up = Vec::new(alloc);
    let mut down = Vec::new(alloc);
    let mut a = from;
    let mut b = to;
    while a != b {
        if forest.depths[a as usize] >= forest.depths[b as usize] {
            let (need, next) = up_from(needs, &forest.parents, a);
            up.push(need)?;
            a = next;
        } else {
            let (need, next) = up_from(needs, &forest.parents, b);
            down.push(need)?;
            b = next;
        }
    }
    turned(up, down)
}

// A need, and then the others.
fn led_by(alloc: Global, need: u32, rest: &[u32]) -> Result<Vec<u32>, AllocError>
    ensures { IfOk result (λ walk. walk.items ≡ need ∷ rest.now) }
{
    let mut walk = Vec::new(alloc);
    walk.push(need)?;
    walk.extend_from_slice(rest)?;
    Ok(walk)
}

/// The walk that shows that a need isn't balanced: along it from its first clock to its second, and back along the tree.
pub(crate) fn walk_of(
    alloc: Global,
    needs: &[Need],
    forest: &Forest,
    need: u32,
) -> Result<Vec<u32>, AllocError>
    requires within { All (IsWithin (length forest.now.roots.items)) needs.now }
    requires words { All HasWords needs.now }
    requires grown { IsGrown needs.now (length forest.now.roots.items) forest.now }
    requires need { need < length needs.now }
    requires uneven { IsBalanced needs.now (need_at needs.now need) → ⊥ }
    requires before { (k : ℕ) → k < need → IsBalanced needs.now (need_at needs.now k) }
    ensures first { IfOk result (λ walk. IsFirstUnequal needs.now walk.items) }
    ensures unequal { IfOk result (λ walk. IsUnequalWalk needs.now walk.items) }
{
    let (first, second) = needs[need as usize].terms();
    let back = way_back(alloc, needs, forest, second.clock, first.clock)?;
    led_by(alloc, need, &back)
}
