// The shape of the clocks of needs.
ghost use Rattle.std.specs.Prelude.{ℕ, ◌≡◌, ◌⊎◌, ◌≤◌, IfOk, IfErr, OnOk, Vec};
ghost use Rattle.std.specs.Global.{Global};
ghost use Rattle.std.specs.List.{AllByRecursion};
ghost use Rattle.lucy_word.specs.declared.limit.Limit.TheVariants as limit;
ghost use Rattle.lucy_need.specs.Meeting.{AreProperNeeds};
ghost use Rattle.lucy_need.specs.Stored.{HasWords};
ghost use Rattle.lucy_shape.specs.declared.shape.RateFault.TheVariants as fault;
ghost use Rattle.lucy_shape.specs.Fitting.{IsShapeFor};
ghost use Rattle.lucy_rates.specs.Walks.{IsUnequalWalk};
ghost use Rattle.lucy_rates.specs.Trees.{HasLargeRate, IsFirstUnequal};
ghost use Rattle.lucy_rates.specs.Vectors.{AreBalanced, IsShapeOf, HasNoShape};
ghost use Rattle.lucy_rates.specs.Growing.{IsGrown, IsUnequal};

use crate::forest::{Forest, first_needs, grow_all};
use crate::shaping::shape_of;
use crate::walk::{first_unbalanced, walk_of};
use lucy_need::{Needs, needs_have_words};
use lucy_shape::{RateFault, Shape};
use std::alloc::Global;

// The trees of the components of needs.
fn grown(alloc: Global, needs: &Needs) -> Result<Forest, RateFault>
    requires proper { AreProperNeeds needs.now }
    requires words { AllByRecursion HasWords needs.now.list }
    ensures grown { IfOk result (IsGrown needs.now.list needs.now.clocks) }
    ensures refused { IfErr result (λ e. (e ≡ fault.OutOfMemory) ⊎ ((e ≡ fault.Limit limit.Rate) × HasLargeRate needs.now.list needs.now.clocks)) }
{
    let list = needs.list.list();
    let firsts = first_needs(alloc, needs.clocks, list)?;
    grow_all(alloc, needs.clocks, list, &firsts)
}

// Refuses needs that aren't balanced.
fn balanced(alloc: Global, needs: &Needs, forest: &Forest) -> Result<(), RateFault>
    requires proper { AreProperNeeds needs.now }
    requires words { AllByRecursion HasWords needs.now.list }
    requires grown { IsGrown needs.now.list needs.now.clocks forest.now }
    ensures balanced { OnOk result (AreBalanced needs.now.list) }
    ensures refused { IfErr result (λ e. (e ≡ fault.OutOfMemory) ⊎ IsUnequal needs.now.list e) }
{
    let list = needs.list.list();
    match first_unbalanced(list, forest) {
        None => Ok(()),
        Some(need) => Err(RateFault::Unequal(walk_of(alloc, list, forest, need)?)),
    }
}

/// The shape of the clocks of needs, with a scale and a lead from 1 to 64 (Plateau 2010). `Limit(Rate)` comes exactly where the
/// rate of some clock, in lowest terms and by the tree of its component, has a number over 65,536. Else `Unequal` comes exactly
/// where some need isn't balanced, with the walk along the first such need, from its first clock to its second, and back along
/// the tree, each need by its number from 0. Else `Limit(Positions)` comes exactly where the clocks in use have more than 65,536
/// positions together.
pub fn rates(alloc: Global, needs: &Needs, scale: u64, lead: u64) -> Result<Shape, RateFault>
    requires proper { AreProperNeeds needs.now }
    requires scale { 1 ≤ scale }
    requires scale_few { scale ≤ 64 }
    requires lead { 1 ≤ lead }
    requires lead_few { lead ≤ 64 }
    ensures shape { IfOk result (IsShapeOf needs.now scale lead) }
    ensures refused { IfErr result (HasNoShape needs.now scale lead) }
    ensures carries { IfOk result (IsShapeFor needs.now) }
    ensures unequal { IfErr result (λ e. (walk : Vec ℕ Global) → e ≡ fault.Unequal walk → IsUnequalWalk needs.now.list walk.items) }
{
    needs_have_words(needs);
    let forest = grown(alloc, needs)?;
    balanced(alloc, needs, &forest)?;
    shape_of(alloc, needs, &forest, scale, lead)
}
