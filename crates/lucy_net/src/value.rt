// What an actor gives.
ghost use Rattle.std.specs.Prelude.{ℕ, ◌≡◌, ◌<◌, List, ℤ, length, slice_index_or, slice_get, Some};
ghost use Rattle.lucy_host.specs.Host.{Serves, lent};
ghost use Rattle.lucy_host.specs.Operators.{kinds_of};
ghost use Rattle.lucy_stream.specs.Firings.{fire_value};
ghost use Rattle.lucy_stream.specs.Systems.{Gives};
ghost use Rattle.lucy_stream.specs.Operations.{fired_at};
ghost use Rattle.lucy_word.specs.Bits.{ones_to};
ghost use Rattle.lucy_net.specs.Plans.{form_of};
ghost use Rattle.lucy_net.specs.States.{IsUsable, IsActorState, IsOfActor, IsNext, HasItem, ReadsInput, KnowsOperator};

use crate::cursor::bit_under;
use crate::kind::ActorKind;
use crate::net::Actor;
use crate::state::ActorState;
use lucy_host::{Host, op_value};

/// The value that the actor gives in its next firing, by what it took last. `input` is the list of an input's actor, of which
/// no other actor reads anything, and the host has the operator of a host's actor.
#[inline(always)]
pub fn give_value<F: Fn(u32, i64, i64) -> i64 + Sync>(
    actor: &Actor,
    state: &ActorState,
    input: &[i64],
    host: &Host<F>,
) -> i64
    requires usable { IsUsable actor.now }
    requires state { IsOfActor actor.now state.now }
    requires next { (ring : ℕ) × IsNext actor.now state.now (Gives ring) }
    requires item { HasItem actor.now.kind state.now.fired input.now }
    requires serves { Serves F.pre F.post host.now }
    requires known { KnowsOperator actor.now.kind (length (lent host.now)) }
    ensures { (inputs : List (List ℤ)) (instants n : ℕ) (took : List (List ℤ)) →
        IsActorState actor.now instants n took state.now → ReadsInput actor.now.kind inputs input.now →
        result ≡ fire_value (kinds_of (lent host.now)) inputs (form_of actor.now.kind) (slice_index_or (fired_at (form_of actor.now.kind) actor.now.takes actor.now.gives (ones_to actor.now.firing instants)) n 0) took }
{
    match &actor.kind {
        ActorKind::Input(_) => input[state.fired as usize],
        ActorKind::Lit(value) => *value,
        ActorKind::Op(op) => op_value(*op, state.a, state.b, state.c),
        ActorKind::Merge(_) => {
            if bit_under(&actor.kind, state.cursor) {
                state.a
            } else {
                state.b
            }
        }
        ActorKind::Fby(first) => { if state.fired == 0 { *first } else { state.kept } }
        ActorKind::Host(op) => host.call(*op, state.a, state.b),
        ActorKind::When(_) | ActorKind::Pass | ActorKind::Output(_) => state.a,
    }
}
