ghost use Rattle.lucy_stream.specs.RunningLaws.{EventsMoveItems};

/// What an event makes of the items that the rings hold: a take removes the oldest of its ring, a give appends its value, and
/// every other ring keeps what it holds.
pub fn events_move_items()
    ensures { EventsMoveItems }
{}
