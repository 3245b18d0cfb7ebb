ghost use Rattle.lucy_kahn.specs.Laws.{ReadsLaw, LaterLaw, MoreInputsLaw, IterateByNumberLaw};

/// What an instance place of a program reads is an instance place.
pub fn what_is_read_is_there()
    ensures { ReadsLaw }
{}

/// The list of an instance place is a front of its list in every later iterate, and where the inputs go on.
pub fn programs_grow()
    ensures later { LaterLaw }
    ensures inputs { MoreInputsLaw }
{}

/// By the numbers of instance places, the iterates of a program are those of its numbered places.
pub fn programs_iterate_by_number()
    ensures { IterateByNumberLaw }
{}
