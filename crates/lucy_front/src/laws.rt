// A text has one answer. The bodies are empty: the contracts are laws.
ghost use Rattle.lucy_front.specs.OneAnswer.{HaveOneProgram, AreNotRefused, HaveOneRefusal, HaveOneAcceptance, AcceptedAreNotRefused, AreRefusedInOneWay};

/// A text has at most one program: places, their types, and the clocks of its nodes, word by word and size by size. No phase
/// refuses a text that has one.
pub fn texts_have_one_program()
    ensures one { HaveOneProgram }
    ensures never_both { AreNotRefused }
{}

/// The phases refuse a text in one way: by one refusal, but that other paths may show that a node has no types.
pub fn texts_have_one_refusal()
    ensures { HaveOneRefusal }
{}

/// A text is accepted as one thing, or refused in one way, its net and its schedule included, and never both. The events of an
/// instant may be ordered in other ways, and other paths or items may show a clash or a cycle.
pub fn texts_have_one_answer()
    ensures one { HaveOneAcceptance }
    ensures never_both { AcceptedAreNotRefused }
    ensures one_refusal { AreRefusedInOneWay }
{}
