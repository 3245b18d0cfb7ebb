// What holds of the output streams of every program whose flat net has a sound schedule. The contracts are laws, on functions that are
// empty or call laws of lower crates alone.
ghost use Rattle.lucy_results.specs.Laws.{NetsCanBeRun, PlacesGive, PlacesHaveWords, PlacesHaveItems, StreamsAreWhole, CutInputsSuffice, CutInputsGive, StreamsGoOn, StreamsAgree, TwoWaysAgree};
ghost use Rattle.lucy_results.specs.Taking.{WholeRunsLeadToStreams, RunsLeadAlongStreams};

use lucy_core::events_go_by_the_net;

/// A core can be made of the flat net of a program with a sound schedule, of inputs with the items of the horizon and of the
/// operators that the program names. Only the actors of its instance places give.
pub fn nets_can_be_run()
    ensures fixed { NetsCanBeRun }
    ensures givers { PlacesGive }
{}

/// Each place of the program with its calls written out has a word, and in the iterate of the horizon at least as many items as the
/// word has ones up to there, also where nothing reads the place.
pub fn places_are_whole()
    ensures words { PlacesHaveWords }
    ensures whole { PlacesHaveItems }
{}

/// So each output stream has as many items as its word has ones up to the horizon.
pub fn streams_are_whole()
    ensures { StreamsAreWhole }
{}

/// The items of the horizon suffice for it, and give the output streams.
pub fn streams_need_no_more()
    ensures suffice { CutInputsSuffice }
    ensures same { CutInputsGive }
{}

/// The output streams of more instants, from inputs that go on, begin with those of fewer.
pub fn streams_go_on()
    ensures { StreamsGoOn }
{}

/// Inputs that go on give the same output streams up to a horizon for which those before suffice.
pub fn streams_agree()
    ensures { StreamsAgree }
{}

/// The stream of an output of the flat net, cut at the horizon, is what the plain interpreter has of its result from the items
/// of the horizon.
pub fn two_ways_agree()
    ensures { TwoWaysAgree }
{}

/// All events of a program's flat net up to a horizon, in whatever order they are possible, lead a core without an event so far to its
/// end, and its outputs then took the output streams (Kahn 1974).
pub fn whole_runs_lead_to_streams()
    ensures { WholeRunsLeadToStreams }
{
    events_go_by_the_net();
}

/// Events that are a run lead it along the output streams: each output then took as many items of its stream, from the first on, as it
/// has done operations (Kahn 1974).
pub fn runs_lead_along_streams()
    ensures { RunsLeadAlongStreams }
{}
