// Counts after an event.
ghost use Rattle.std.specs.Prelude.{◌≡◌, ◌<◌, ◌≤◌, ◌+◌, ◌-◌, ◌^◌, length, slice_index};
ghost use Rattle.lucy_core.specs.Seen.{one_more};
ghost use Rattle.lucy_core.specs.Inside.{left_in};

use lucy_net::ActorState;

/// The actor has done one operation more.
pub(crate) fn count_event(done: &mut Vec<u64>, actor: usize)
    requires there { actor < length done.old.items }
    requires few { slice_index done.old.items actor < 2 ^ 64 - 1 }
    ensures { done.new.items ≡ one_more done.old.items actor }
{
    done[actor] += 1;
}

/// Of the actors that had a firing left, so many still have one, where this is the state of the one that moved.
pub(crate) fn count_ended(state: &ActorState, going: &mut u64)
    requires { 0 < going.old }
    ensures { going.new + 1 ≡ going.old + left_in state.now }
{
    if state.fired >= state.quota {
        *going -= 1;
    }
}
