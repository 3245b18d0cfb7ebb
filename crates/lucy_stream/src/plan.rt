ghost use Rattle.lucy_stream.specs.PlanLaws.{PluggedActorsAreWired};

/// Where actors are plugged together, only a ring's own giver and taker operate on it, and what an actor gives depends on
/// what it took alone.
pub fn plugged_actors_are_wired()
    ensures { PluggedActorsAreWired }
{}
