// What holds of the clock rules. Each body is empty: the contract is a law.
ghost use Rattle.lucy_clock.specs.Laws.{RulesLaw, HandedLaw, OneAssignmentLaw};

/// An assignment of words keeps the clock rules of a node exactly where the base is (1) and it meets the node's needs.
pub fn needs_are_the_rules()
    ensures { RulesLaw }
{}

/// A written node has at most one assignment that keeps its clock rules: the words that its written words hand down.
pub fn written_nodes_have_one()
    ensures candidate { HandedLaw }
    ensures one { OneAssignmentLaw }
{}
