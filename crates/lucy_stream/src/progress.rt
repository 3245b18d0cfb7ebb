ghost use Rattle.lucy_stream.specs.RunningLaws.{NothingIsStuck};

/// Once some whole run is known, whatever is done: the first of its events that isn't done is possible, none is left exactly
/// where all is done, and so nothing is stuck.
pub fn nothing_is_stuck()
    ensures { NothingIsStuck }
{}
