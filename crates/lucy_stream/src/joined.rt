ghost use Rattle.lucy_stream.specs.RunningLaws.{RunsAreJoined, RunsEndWhereNoneIsPossible};

/// Events after events: one run after another is a run, and the parts of a run are runs.
pub fn runs_are_joined()
    ensures { RunsAreJoined }
{}

/// The events up to the first that isn't possible are the longest front of the list that is a run.
pub fn runs_end_where_none_is_possible()
    ensures { RunsEndWhereNoneIsPossible }
{}
