ghost use Rattle.lucy_stream.specs.RunningLaws.{WithinIsReached, StatesAreReached, LaterEventsArePastTheFront};

/// By counts: where no ring is past its bounds, the events that are done, in the order of a whole run, are a run that leads
/// there, from any counts before.
pub fn within_is_reached()
    ensures { WithinIsReached }
{}

/// With the values: every state is reached by a run, namely by its events in the order of a whole run; and from an earlier
/// state the events between the two lead to it. So no value on a loop comes from nothing.
pub fn states_are_reached()
    ensures { StatesAreReached }
{}

/// The events between two counts are found past any front of the order that the lower counts, and so both, have done.
pub fn later_events_are_past_the_front()
    ensures { LaterEventsArePastTheFront }
{}
