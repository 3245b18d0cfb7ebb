// What holds of the shapes of needs. Each body is empty: the contract is a law.
ghost use Rattle.lucy_rates.specs.ShapeLaws.{OneWideShapeLaw, OneShapeLaw, CarriesLaw, ShapeOrNoneLaw, OneLimitLaw, LimitOrWalkLaw};

/// Needs have one shape at most with a scale and a lead, also one with more positions than are allowed.
pub fn one_shape()
    ensures wide { OneWideShapeLaw }
    ensures shape { OneShapeLaw }
{}

/// The shape of needs carries them.
pub fn shape_carries()
    ensures { CarriesLaw }
{}

/// Where there is a shape, no refusal but want of memory is right; and of refusals one kind alone.
pub fn one_verdict()
    ensures shape { ShapeOrNoneLaw }
    ensures limit { OneLimitLaw }
    ensures walk { LimitOrWalkLaw }
{}
