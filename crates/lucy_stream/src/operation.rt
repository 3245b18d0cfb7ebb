ghost use Rattle.lucy_stream.specs.PlanLaws.{OperationsStandInFirings, FiringsUseTheirRings, FiringsTakeWhatIsNeeded};

/// The operations of a firing stand among those of all firings behind those of the firings before it.
pub fn operations_stand_in_firings()
    ensures { OperationsStandInFirings }
{}

/// Each operation is on one of the rings that the actor takes from or gives to, and two firings have the same operations
/// where a sampling's word, if it gives at all, or a merge's word has the same bit in both.
pub fn firings_use_their_rings()
    ensures { FiringsUseTheirRings }
{}

/// What a firing takes before one of its gives is an item on which the item that it gives depends.
pub fn firings_take_what_is_needed()
    ensures { FiringsTakeWhatIsNeeded }
{}
