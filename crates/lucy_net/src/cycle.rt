// The items of actors that wait for each other.
ghost use Rattle.std.specs.Prelude.{ℕ, ◌≡◌, ◌<◌, ◌≤◌, All, map, length, drop, Some, IfOk};
ghost use Rattle.lucy_stream.specs.Firings.{gave_in};
ghost use Rattle.lucy_net.specs.Plans.{form_of};
ghost use Rattle.lucy_net.specs.Causal.{items_by};
ghost use Rattle.lucy_net.specs.Waiting.{actor_at, IsTurnedToLeast, AreItemsInTurn};
ghost use Rattle.lucy_net.specs.Faults.{item_of, item_now};

use crate::error::Item;
use crate::kind::ActorKind;
use crate::net::{Actor, Net};
use crate::settle::Wait;
use std::alloc::{AllocError, Global};

/// How many items the actor gives in its first firings.
pub(crate) fn gave(actor: &Actor, fired: u64) -> u64
    ensures { result ≡ gave_in (form_of actor.now.kind) fired }
{
    match &actor.kind {
        ActorKind::When(word) => word.ones(fired),
        _ => fired,
    }
}

// How many items the actor gives in the first instants.
fn items_by(actor: &Actor, instants: u64) -> u64
    ensures { result ≡ items_by (Some actor.now) instants }
{
    gave(actor, actor.firing.ones(instants))
}

// The place of one that waits with the least actor number, counted from 0.
fn least_place(waits: &[Wait]) -> usize
    requires { 0 < length waits.now }
    ensures there { result < length waits.now }
    ensures least { (k : ℕ) → k < length waits.now → actor_at waits.now 0 result ≤ actor_at waits.now 0 k }
{
    let mut least = 0;
    for (place, wait) in waits.iter().enumerate() {
        if wait.actor < waits[least].actor {
            least = place;
        }
    }
    least
}

// Turns those that wait for each other until the first is of the least actor number.
fn turn_to_least(waits: &mut Vec<Wait>)
    requires { 0 < length waits.old.items }
    ensures { IsTurnedToLeast waits.old.items waits.new.items }
{
    waits.rotate_left(least_place(waits));
}

// The items of the instant of this number, from 1, that these actors give.
fn items_of(alloc: Global, net: &Net, instant: u64, waits: &[Wait]) -> Result<Vec<Item>, AllocError>
    requires { All (λ wait. wait.actor < length net.now.actors) waits.now }
    ensures { IfOk result (λ items. map item_of items.items ≡ map (λ wait. item_now net.now instant wait.actor) waits.now) }
{
    let mut items = Vec::with_capacity(alloc, waits.len())?;
    for wait in waits {
        let number = items_by(&net.actors.list()[wait.actor as usize], instant);
        items.push(Item {
            actor: wait.actor,
            number,
        })?;
    }
    Ok(items)
}

/// The items of the instant of this number, from 1, that those give which wait for each other, from this place on: from one of the
/// least actor number on.
pub(crate) fn items_in_turn(
    alloc: Global,
    net: &Net,
    instant: u64,
    waits: &[Wait],
    place: usize,
) -> Result<Vec<Item>, AllocError>
    requires some { 0 < length (drop place waits.now) }
    requires there { All (λ wait. wait.actor < length net.now.actors) (drop place waits.now) }
    ensures { IfOk result (λ items. AreItemsInTurn net.now instant (drop place waits.now) (map item_of items.items)) }
{
    let mut turned = waits[place..].to_vec(alloc)?;
    turn_to_least(&mut turned);
    items_of(alloc, net, instant, &turned)
}
