ghost use Rattle.lucy_stream.specs.RunningLaws.{ActorsStandByThemselves};

/// A state is one of all actors by themselves, where on each ring a front of what was given was taken and at most the ring's
/// size and one more is held. What holds of an actor by itself holds in every state that says the same of it, and an operation
/// of any actor, on whatever item, keeps it.
pub fn actors_stand_by_themselves()
    ensures { ActorsStandByThemselves }
{}
