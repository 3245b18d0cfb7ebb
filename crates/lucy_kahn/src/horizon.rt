ghost use Rattle.lucy_kahn.specs.Laws.{OneHorizonLaw};

/// Inputs have one horizon.
pub fn one_horizon()
    ensures { OneHorizonLaw }
{}
