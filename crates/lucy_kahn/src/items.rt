ghost use Rattle.lucy_kahn.specs.Laws.{CausalByNumberLaw, ItemsBeforeLaw, NoCycleLaw};

/// A program is causal exactly where its numbered places are.
pub fn programs_are_causal_by_number()
    ensures { CausalByNumberLaw }
{}

/// An item that an iterate has depends only on items that the iterate before has, and doesn't reach itself.
pub fn items_there_have_no_cycle()
    ensures before { ItemsBeforeLaw }
    ensures no_cycle { NoCycleLaw }
{}
