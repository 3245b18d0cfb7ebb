// What holds of every accepted program. The body is empty: the contract is laws.
ghost use Rattle.lucy_program.specs.Laws.{AcceptedAreProper, AcceptedHaveOperators, AcceptedAreClocked, AcceptedAreReportable, AcceptedAreBounded};

/// An accepted program's nodes are proper, name operators of the host alone and have words that keep their clock rules, it can be
/// reported, and each of its buffers is within its bound.
pub fn accepted_programs_are_clocked()
    ensures proper { AcceptedAreProper }
    ensures operators { AcceptedHaveOperators }
    ensures clocked { AcceptedAreClocked }
    ensures reportable { AcceptedAreReportable }
    ensures bounded { AcceptedAreBounded }
{}
