// That a program has one list of nodes.
ghost use Rattle.lucy_naming.specs.Laws.{NodesAreOne, ProgramsHaveNodes};

/// A program has nodes with their places, and one list of them: those that `place` gives where it finds no fault of a name.
pub fn nodes_are_one()
    ensures some { ProgramsHaveNodes }
    ensures one { NodesAreOne }
{}
