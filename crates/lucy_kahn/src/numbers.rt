ghost use Rattle.lucy_kahn.specs.Laws.{NumberBelowLaw, OwnNumberLaw, NumberedLaw, NumberedPlaceLaw, NumberedCountLaw};

/// An instance place has a number of its own, below the number of all instance places, and each number below that is of some
/// instance place. Under it stands the place, with its form and the numbers of what it reads.
pub fn instance_places_are_numbered()
    ensures below { NumberBelowLaw }
    ensures own { OwnNumberLaw }
    ensures reached { NumberedLaw }
    ensures place { NumberedPlaceLaw }
    ensures count { NumberedCountLaw }
{}
