// That what `run` prints is right.
ghost use Rattle.lucy_right.specs.Accepted.{AcceptedAreWritten, WrittenStandForOne};
ghost use Rattle.lucy_right.specs.Chosen.{ChosenAreOne};
ghost use Rattle.lucy_right.specs.Earliest.{FoundAreEarliest};
ghost use Rattle.lucy_right.specs.Laws.{FaultlessAreWellNamed, WellNamedHaveNoFault};
ghost use Rattle.lucy_right.specs.Owed.{AcceptedStand, CutsAreRuns, OwedAreRuns};
ghost use Rattle.lucy_right.specs.Refused.{WrittenPassLimits};

/// Pins `lucy_right::names_are_good`.
pub fn names_are_good()
    ensures faultless { FaultlessAreWellNamed }
    ensures well { WellNamedHaveNoFault }
{
    lucy_right::names_are_good();
}

/// Pins `lucy_right::accepted_programs_stand`.
pub fn accepted_programs_stand()
    ensures { AcceptedStand }
{
    lucy_right::accepted_programs_stand();
}

/// Pins `lucy_right::owed_outputs_are_runs`.
pub fn owed_outputs_are_runs()
    ensures cuts { CutsAreRuns }
    ensures owed { OwedAreRuns }
{
    lucy_right::owed_outputs_are_runs();
}

/// Pins `lucy_right::written_programs_pass`.
pub fn written_programs_pass()
    ensures { WrittenPassLimits }
{
    lucy_right::written_programs_pass();
}

/// Pins `lucy_right::found_clocks_are_earliest`.
pub fn found_clocks_are_earliest()
    ensures { FoundAreEarliest }
{
    lucy_right::found_clocks_are_earliest();
}

/// Pins `lucy_right::written_programs_stand_for_one`.
pub fn written_programs_stand_for_one()
    ensures { WrittenStandForOne }
{
    lucy_right::written_programs_stand_for_one();
}

/// Pins `lucy_right::accepted_nodes_are_written`.
pub fn accepted_nodes_are_written()
    ensures { AcceptedAreWritten }
{
    lucy_right::accepted_nodes_are_written();
}

/// Pins `lucy_right::chosen_clocks_are_one`.
pub fn chosen_clocks_are_one()
    ensures { ChosenAreOne }
{
    lucy_right::chosen_clocks_are_one();
}
