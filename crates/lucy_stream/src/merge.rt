ghost use Rattle.lucy_stream.specs.Laws.{MergesAreLongest};

/// A merge is the longest list of its items that are all there.
pub fn merges_are_longest()
    ensures { MergesAreLongest }
{}
