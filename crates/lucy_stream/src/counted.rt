ghost use Rattle.lucy_stream.specs.RunningLaws.{CountsMakeStates};

/// Counts that are within their bounds are those of one state, and events lead from the state of their counts to that of the
/// counts after them.
pub fn counts_make_states()
    ensures { CountsMakeStates }
{}
