// There is one answer. The body is empty: the contract is a law.
ghost use Rattle.lucy_tight.specs.Laws.{OneTightest};

/// A buffer has one least size, with one answer but for the cycle, or one reason why it isn't told.
pub fn one_tightest()
    ensures { OneTightest }
{}
