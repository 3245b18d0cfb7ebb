ghost use Rattle.lucy_stream.specs.PlanLaws.{RunsGiveKahnPrefixes, FinishedStatesHoldKahnStreams};

/// In every run of plugged actors, what was given to a ring, and what was taken from it, is a front of its giver's list in an
/// iterate (Kahn 1974): one turn for each firing of each actor that gives. Once some whole run is known, this holds in every
/// state. After a whole run it is this list, cut at the number of items that the giver's firings give, and the list has so
/// many.
pub fn runs_give_kahn_prefixes()
    ensures { RunsGiveKahnPrefixes }
{}

/// In a finished state the list given to a ring, and the list taken from it, are its giver's list in this iterate, cut at the
/// numbers of items that the firings of its giver give and those of its taker take. So an output's list is its Kahn stream.
pub fn finished_states_hold_kahn_streams()
    ensures { FinishedStatesHoldKahnStreams }
{}
