// What holds of an accepted program under every interleaving of its events, and of its streams. The contracts are laws, on functions
// that call the laws of lower crates alone.
ghost use Rattle.lucy_interleaving.specs.Interleavings.{RunsAreSafe, StatesAreSafe};
ghost use Rattle.lucy_interleaving.specs.Runners.{IsSafeIfMade, IsSafeOnItsInputs};
ghost use Rattle.lucy_interleaving.specs.Wholeness.{PlacesAreWhole, NoLineIsMissing};

use lucy_program::accepted_programs_are_clocked;
use lucy_results::{places_are_whole, streams_are_whole};
use lucy_runner::Runner;

/// Every list of possible events of an accepted program's net leads to a safe state: each ring holds at most its buffer's printed
/// size and one item more, what was given and taken are fronts of the program's Kahn streams, and some event is possible unless
/// every actor has done its list (Kahn 1974; Cohen and others 2006).
pub fn every_interleaving_is_safe()
    ensures { RunsAreSafe }
{
    accepted_programs_are_clocked();
}

/// So is every state of an accepted program's net whose counts are within their bounds, such as those in which a core, or a
/// runner between its rounds, stands.
pub fn every_state_is_safe()
    ensures { StatesAreSafe }
{
    accepted_programs_are_clocked();
}

/// Every runner of an accepted program's net is safe, on any number of workers, in every state in which it stands between its calls.
/// Its rings have the printed sizes of the buffers and one slot more; each holds, by its two ends, exactly the items that were given
/// to it and not taken, and never more than it has slots; all that was given or taken is a front of the program's Kahn streams; and
/// some event is possible unless every actor has done its list. So it is of one that was made of a core without an event and moved by
/// rounds, by the inputs of the core, and of one that went on to later horizons, by the inputs that it has by now.
pub fn runners_are_safe(runner: &Runner)
    ensures made { IsSafeIfMade runner.now }
    ensures kept { IsSafeOnItsInputs runner.now }
{
    runner.is_reached();
    accepted_programs_are_clocked();
}

/// The Kahn streams of an accepted program are whole: by inputs that suffice, each place, also one that nothing reads, has the items
/// of its word, and each output has a value at every instant at which its word has a one, so that none of its lines is missing.
pub fn streams_have_every_item()
    ensures places { PlacesAreWhole }
    ensures lines { NoLineIsMissing }
{
    accepted_programs_are_clocked();
    places_are_whole();
    streams_are_whole();
}
