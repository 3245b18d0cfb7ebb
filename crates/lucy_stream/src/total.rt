ghost use Rattle.lucy_stream.specs.RunningLaws.{RunsAreCounted};

/// The number of events of a run is what the counts rose by: of one actor, and of all together.
pub fn runs_are_counted()
    ensures { RunsAreCounted }
{}
