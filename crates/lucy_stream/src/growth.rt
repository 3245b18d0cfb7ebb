ghost use Rattle.lucy_stream.specs.Laws.{ListsGrow, IteratesGrow};

/// Where the lists of the operands grow, the list of each form grows, in the same turn and in every later one (Kahn 1974).
pub fn lists_grow()
    ensures { ListsGrow }
{}

/// Each list of an iterate is a front of the same place's list in the next one, and in every later one, and where the inputs
/// go on. In the iterate after it, a place has the list that its form makes of what it reads.
pub fn iterates_grow()
    ensures { IteratesGrow }
{}
