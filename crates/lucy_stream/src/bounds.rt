ghost use Rattle.lucy_stream.specs.RunningLaws.{RingsStayWithin};

/// In every run no more is taken from a ring than was given, and a ring holds at most its size and one more: the item that
/// is given and taken in one instant.
pub fn rings_stay_within()
    ensures { RingsStayWithin }
{}
