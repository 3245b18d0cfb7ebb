// Laws of what is owed, and of main's first result, on functions that call the laws of streams alone.
ghost use Rattle.lucy_make.specs.Laws.{EndsAsRun};
ghost use Rattle.lucy_make.specs.Blocks.{FirstGoesOn, FirstIsShort, FirstAgrees};

use lucy_results::{streams_agree, streams_are_whole, streams_go_on};

/// The figures of `make` are those of the run that `run` owes on the generated input, and it ends as that run does.
pub fn summaries_end_as_runs()
    ensures { EndsAsRun }
{}

// The values of main's first result go on from horizon to horizon, are no more than the instants, and need no more items.
pub(crate) fn first_goes_on()
    ensures goes_on { FirstGoesOn }
    ensures short { FirstIsShort }
    ensures agrees { FirstAgrees }
{
    streams_go_on();
    streams_are_whole();
    streams_agree();
}
