ghost use Rattle.lucy_stream.specs.PlanLaws.{FiringsAreCounted};

/// The operations of an actor's first firings give to each of its rings, and take from the ring of each operand, as many
/// items as its form says.
pub fn firings_are_counted()
    ensures { FiringsAreCounted }
{}
