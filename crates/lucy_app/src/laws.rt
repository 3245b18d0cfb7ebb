// Laws of what commands owe.
ghost use Rattle.lucy_command.specs.Commands.{Order};
ghost use Rattle.lucy_app.specs.Complete.{TracesSuit, Completes};
ghost use Rattle.lucy_app.specs.Engines.{PlayingCompletes};
ghost use Rattle.lucy_app.specs.Laws.{OwesAlike, OwesOne, ShowOwesOne, MayPrintOne};
ghost use Rattle.lucy_app.specs.Right.{ChecksAreRight, RunsAreRight};

use lucy_grammar::texts_have_one_answer;
use lucy_kahn::one_horizon;
use lucy_lines::one_cut;
use lucy_naming::nodes_are_one;
use lucy_right::{
    accepted_nodes_are_written, accepted_programs_stand, owed_outputs_are_runs,
    written_programs_pass, written_programs_stand_for_one,
};
use lucy_run::{faultless_runs_are_done, one_interpretation, one_replay, one_run, one_trace};
use lucy_tight::one_tightest;

/// A command that has met the same things owes one answer. Only the evidence for which a program is refused is left
/// open, such as the path of a clash of types; of `tighten` the cycle that shows a least size; and of `trace` in which order the events
/// of the one run stand that its input allows, and in which rounds.
pub fn one_answer()
    ensures alike { OwesAlike }
    ensures order { OwesOne Order }
    ensures show { ShowOwesOne }
{
    one_cut();
    one_horizon();
    one_run();
    one_interpretation();
    one_replay();
    one_trace();
    one_tightest();
}

/// Of a command that nothing refuses one output may stand; of `tighten` one but for the cycle, and of `trace` the traces of one net up to
/// the horizon that its input allows.
pub fn one_output()
    ensures { MayPrintOne }
{
    one_cut();
    one_horizon();
    one_tightest();
}

/// A command that nothing refuses is done, and its whole output stands, or memory runs out: its FILE is told and is a program that
/// it takes, all bytes of its input are told and have no fault, no limit is passed, and no count has risen.
pub fn suited_commands_are_done()
    ensures { Completes }
{
    one_cut();
    one_horizon();
    faultless_runs_are_done();
    one_tightest();
}

/// What suits `run` suits `trace`, as every accepted program has a trace up to each horizon.
pub fn traces_suit()
    ensures { TracesSuit }
{}

/// So is a run in one piece that an engine plays, if the call returns.
pub fn suited_plays_are_done()
    ensures { PlayingCompletes }
{
    suited_commands_are_done();
}

/// What `run` leaves is right, as `lucy_right` says it: what it prints of the program that the text of FILE is and of its input, or a front of
/// that, or nothing.
pub fn runs_are_right()
    ensures { RunsAreRight }
{
    owed_outputs_are_runs();
    written_programs_pass();
    texts_have_one_answer();
    nodes_are_one();
}

/// What `check` and `clocks` leave is right, as `lucy_right` says it: with 0 the report of what the text of FILE stands for, which passes no limit.
/// One that stands for something, all of whose clocks are written, ends so, but for a limit, for a fetch or a write that failed, and for want of
/// memory.
pub fn checks_are_right()
    ensures { ChecksAreRight }
{
    accepted_programs_stand();
    accepted_nodes_are_written();
    written_programs_pass();
    written_programs_stand_for_one();
}
