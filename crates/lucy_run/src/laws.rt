// Laws of what is owed, on functions that call laws of lower crates alone.
ghost use Rattle.lucy_run.specs.Tracing.{TracesAreReplayed};
ghost use Rattle.lucy_run.specs.Played.{LinesAgree, LinesByBlock};
ghost use Rattle.lucy_run.specs.Steps.{ReplaysGoByStreams};
ghost use Rattle.lucy_run.specs.Laws.{OneRun, OneInterpretation, OneReplay, OneTrace, SameLines, CompleteRun, CompleteInterpretation, CompleteReplay, CompleteTrace};

use lucy_core::events_go_by_the_net;
use lucy_kahn::one_horizon;
use lucy_lines::{block_by_block, cut_in_pieces, fronts_suffice, one_cut, one_feed};
use lucy_program::accepted_programs_are_clocked;
use lucy_results::{
    nets_can_be_run, runs_lead_along_streams, streams_go_on, whole_runs_lead_to_streams,
};
use lucy_trace::traces_are_logs;

/// The bytes taken, and how reading stopped, owe one output of `run`, with one ending.
pub fn one_run()
    ensures { OneRun }
{
    one_feed();
    one_horizon();
}

/// They owe one output of `kahn`, with one ending.
pub fn one_interpretation()
    ensures { OneInterpretation }
{
    one_feed();
    one_horizon();
}

/// They and the events of a log owe one answer of `replay`.
pub fn one_replay()
    ensures { OneReplay }
{
    one_feed();
    one_horizon();
}

/// They owe one ending of `trace`, and traces up to one horizon.
pub fn one_trace()
    ensures { OneTrace }
{
    one_feed();
    one_horizon();
}

/// `run` and `kahn` owe the same lines and the same ending, unless the interpreter passes a limit of its own.
pub fn runs_print_what_kahn_prints()
    ensures { SameLines }
{
    one_feed();
    one_horizon();
}

/// By an input that is told whole and has no fault, whose items allow no more instants than a run may have where none are given, a run
/// is done and owes all its lines, where no count of its source rose; and so it is by the interpreter within its own limits;
/// events that are a run are replayed to their end, and a run is traced to its end.
pub fn faultless_runs_are_done()
    ensures run { CompleteRun }
    ensures interpretation { CompleteInterpretation }
    ensures replay { CompleteReplay }
    ensures trace { CompleteTrace }
{
    one_cut();
    cut_in_pieces();
    one_horizon();
}

/// A trace that is owed reads as a log, whose replay over the same input is finished, prints the lines that `run` owes, and ends as the
/// trace does.
pub fn traces_are_replayed()
    ensures { TracesAreReplayed }
{
    accepted_programs_are_clocked();
    nets_can_be_run();
    whole_runs_lead_to_streams();
    runs_lead_along_streams();
    traces_are_logs();
}

// What events of an accepted program come to from its core is what they come to by the streams.
pub(crate) fn replays_go_by_streams()
    ensures { ReplaysGoByStreams }
{
    accepted_programs_are_clocked();
    nets_can_be_run();
    events_go_by_the_net();
    runs_lead_along_streams();
}

// The lines up to an instant are those of fewer items, if they suffice, and then those of the instants after.
pub(crate) fn lines_go_on()
    ensures agree { LinesAgree }
    ensures blocks { LinesByBlock }
{
    streams_go_on();
    fronts_suffice();
    block_by_block();
}
