// How many operations there are.
ghost use Rattle.std.specs.Prelude.{◌≡◌, ◌+◌, ◌<◌, ◌≤◌, length};
ghost use Rattle.lucy_stream.specs.Forms.{operands};
ghost use Rattle.lucy_stream.specs.Operations.{ops_of};
ghost use Rattle.lucy_net.specs.Plans.{form_of, actor_ops};
ghost use Rattle.lucy_net.specs.Proper.{IsProper};
ghost use Rattle.lucy_word.specs.Limits.{limit_number};
ghost use Rattle.lucy_net.specs.Lengths.{takes_each, most_operations, operations_by};

use crate::cycle::gave;
use crate::kind::ActorKind;
use crate::net::{Actor, Net};
use lucy_word::Limit;

// How many items an actor takes in each firing.
fn takes_each(actor: &Actor) -> u64
    requires { length actor.now.takes ≡ operands (form_of actor.now.kind) }
    ensures is { result ≡ takes_each (form_of actor.now.kind) (length actor.now.takes) }
    ensures few { result ≤ 3 }
{
    match &actor.kind {
        ActorKind::Merge(_) => 1,
        _ => actor.takes.list().len() as u64,
    }
}

/// How many ring operations an actor has in its first firings, of which there are at most 1,048,576.
pub fn operations(actor: &Actor, fired: u64) -> u64
    requires arity { length actor.now.takes ≡ operands (form_of actor.now.kind) }
    requires gives { length actor.now.gives ≤ limit_number Limit.Rings }
    requires early { fired ≤ limit_number Limit.Instants }
    ensures count { result ≡ length (ops_of (form_of actor.now.kind) actor.now.takes actor.now.gives fired) }
    ensures few { result ≤ most_operations }
{
    fired * takes_each(actor) + gave(actor, fired) * actor.gives.list().len() as u64
}

// How many it has in the first instants.
fn operations_of(actor: &Actor, instants: u64) -> u64
    requires arity { length actor.now.takes ≡ operands (form_of actor.now.kind) }
    requires gives { length actor.now.gives ≤ limit_number Limit.Rings }
    requires early { instants ≤ limit_number Limit.Schedule }
    ensures count { result ≡ length (actor_ops instants actor.now) }
    ensures few { result ≤ most_operations }
{
    operations(actor, actor.firing.ones(instants))
}

/// How many ring operations the actors of a net have in the first instants.
pub(crate) fn operations_in(net: &Net, instants: u64) -> u64
    requires proper { IsProper net.now }
    requires early { instants ≤ limit_number Limit.Schedule }
    ensures { result ≡ operations_by net.now instants }
{
    let mut operations = 0;
    for actor in net.actors.list() {
        operations += operations_of(actor, instants);
    }
    operations
}
