ghost use Rattle.lucy_stream.specs.RunningLaws.{EventsAreDecided};

/// Whether an event is possible, and whether events are a run, is decided by the counts.
pub fn events_are_decided()
    ensures { EventsAreDecided }
{}
