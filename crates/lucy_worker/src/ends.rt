// What callers know of ends from one call to the next. The body is empty: the contract is laws.
ghost use Rattle.lucy_worker.specs.Laws.{RunsKeepEnds, OwnMeetingsKeepEnds, MeetingsKeepEnds, KeptEndsAreOfOneRing};

/// Ends stay at their places: where parts run each end keeps its ring, and a meeting leaves its two ends those of one ring and all other
/// ends as they were. So whoever holds workers can let the same ends meet again and again.
pub fn ends_are_kept()
    ensures runs { RunsKeepEnds }
    ensures own { OwnMeetingsKeepEnds }
    ensures between { MeetingsKeepEnds }
    ensures rings { KeptEndsAreOfOneRing }
{}
