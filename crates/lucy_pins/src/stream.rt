// The laws of runs that nets and their schedules rest on.
ghost use Rattle.lucy_stream.specs.RunningLaws.{NothingIsStuck};
ghost use Rattle.lucy_stream.specs.PlanLaws.{RunsGiveKahnPrefixes, FinishedStatesHoldKahnStreams};

/// Pins `lucy_stream::nothing_is_stuck`.
pub fn nothing_is_stuck()
    ensures { NothingIsStuck }
{
    lucy_stream::nothing_is_stuck();
}

/// Pins `lucy_stream::runs_give_kahn_prefixes`.
pub fn runs_give_kahn_prefixes()
    ensures { RunsGiveKahnPrefixes }
{
    lucy_stream::runs_give_kahn_prefixes();
}

/// Pins `lucy_stream::finished_states_hold_kahn_streams`.
pub fn finished_states_hold_kahn_streams()
    ensures { FinishedStatesHoldKahnStreams }
{
    lucy_stream::finished_states_hold_kahn_streams();
}
