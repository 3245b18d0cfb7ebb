// What holds of an accepted program under every interleaving.
ghost use Rattle.lucy_interleaving.specs.Interleavings.{RunsAreSafe, StatesAreSafe};
ghost use Rattle.lucy_interleaving.specs.Runners.{IsSafeIfMade, IsSafeOnItsInputs};
ghost use Rattle.lucy_interleaving.specs.Wholeness.{PlacesAreWhole, NoLineIsMissing};

use lucy_runner::Runner;

/// Pins `lucy_interleaving::every_interleaving_is_safe`.
pub fn every_interleaving_is_safe()
    ensures { RunsAreSafe }
{
    lucy_interleaving::every_interleaving_is_safe();
}

/// Pins `lucy_interleaving::every_state_is_safe`.
pub fn every_state_is_safe()
    ensures { StatesAreSafe }
{
    lucy_interleaving::every_state_is_safe();
}

/// Pins `lucy_interleaving::runners_are_safe`.
pub fn runners_are_safe(runner: &Runner)
    ensures made { IsSafeIfMade runner.now }
    ensures kept { IsSafeOnItsInputs runner.now }
{
    lucy_interleaving::runners_are_safe(runner);
}

/// Pins `lucy_interleaving::streams_have_every_item`.
pub fn streams_have_every_item()
    ensures places { PlacesAreWhole }
    ensures lines { NoLineIsMissing }
{
    lucy_interleaving::streams_have_every_item();
}
