// The shape of needs, or a walk that isn't balanced.
ghost use Rattle.std.specs.Prelude.{ℕ, ◌≡◌, ◌≤◌, IfOk, IfErr, Vec};
ghost use Rattle.std.specs.Global.{Global};
ghost use Rattle.lucy_need.specs.Meeting.{AreProperNeeds};
ghost use Rattle.lucy_shape.specs.declared.shape.RateFault.TheVariants as fault;
ghost use Rattle.lucy_shape.specs.Fitting.{IsShapeFor};
ghost use Rattle.lucy_rates.specs.Walks.{IsUnequalWalk, UnmetLaw};
ghost use Rattle.lucy_rates.specs.Vectors.{IsShapeOf, HasNoShape};
ghost use Rattle.lucy_rates.specs.ShapeLaws.{OneWideShapeLaw, OneShapeLaw, ShapeOrNoneLaw, OneLimitLaw, LimitOrWalkLaw};

use lucy_need::Needs;
use lucy_shape::{RateFault, Shape};
use std::alloc::Global;

/// Pins `lucy_rates::rates`.
pub fn rates(alloc: Global, needs: &Needs, scale: u64, lead: u64) -> Result<Shape, RateFault>
    requires proper { AreProperNeeds needs.now }
    requires scale { 1 ≤ scale }
    requires scale_few { scale ≤ 64 }
    requires lead { 1 ≤ lead }
    requires lead_few { lead ≤ 64 }
    ensures shape { IfOk result (IsShapeOf needs.now scale lead) }
    ensures refused { IfErr result (HasNoShape needs.now scale lead) }
    ensures carries { IfOk result (IsShapeFor needs.now) }
    ensures unequal { IfErr result (λ e. (walk : Vec ℕ Global) → e ≡ fault.Unequal walk → IsUnequalWalk needs.now.list walk.items) }
{
    lucy_rates::rates(alloc, needs, scale, lead)
}

/// Pins `lucy_rates::walk_is_unmet`.
pub fn walk_is_unmet()
    ensures { UnmetLaw }
{
    lucy_rates::walk_is_unmet();
}

/// Pins `lucy_rates::one_shape`.
pub fn one_shape()
    ensures wide { OneWideShapeLaw }
    ensures shape { OneShapeLaw }
{
    lucy_rates::one_shape();
}

/// Pins `lucy_rates::one_verdict`.
pub fn one_verdict()
    ensures shape { ShapeOrNoneLaw }
    ensures limit { OneLimitLaw }
    ensures walk { LimitOrWalkLaw }
{
    lucy_rates::one_verdict();
}
