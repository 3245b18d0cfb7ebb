// What events go by.
ghost use Rattle.lucy_core.specs.Laws.{EventsGoByTheNet};

/// Which events are possible is decided by the net, the horizon and the counts: the inputs and the operators have no part in it.
pub fn events_go_by_the_net()
    ensures { EventsGoByTheNet }
{}
