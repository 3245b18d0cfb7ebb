ghost use Rattle.lucy_stream.specs.PlanLaws.{LongerListsKeepRuns, MoreFiringsAreLongerLists};

/// Where the actors' lists of operations go on and the old operations keep their values, a run stays a run and leads to the
/// same state, and a state stays a state, from which every later one is reached. A whole run and a run of all that is left
/// then are a whole run.
pub fn longer_lists_keep_runs()
    ensures { LongerListsKeepRuns }
{}

/// The same actors with as many firings or more, on inputs that go on, have lists that go on and keep the values.
pub fn more_firings_are_longer_lists()
    ensures { MoreFiringsAreLongerLists }
{}
