// What a core is made of.
ghost use Rattle.std.specs.Prelude.{ℕ, ◌≡◌, ◌<◌, ◌≤◌, ◌+◌, ◌^◌, length, slice_get, Some, IfOk, All};
ghost use Rattle.lucy_net.specs.declared.kind.ActorKind.TheVariants.{Output};
ghost use Rattle.lucy_net.specs.declared.net.Actor.{Actor};
ghost use Rattle.lucy_net.specs.declared.net.RingSpec.{RingSpec};
ghost use Rattle.lucy_word.specs.Limits.{limit_number};
ghost use Rattle.lucy_word.specs.declared.limit.Limit.TheVariants as limit;
ghost use Rattle.lucy_word.specs.Bits.{ones_to};
ghost use Rattle.lucy_net.specs.Proper.{IsProper};
ghost use Rattle.lucy_net.specs.States.{IsUsable};
ghost use Rattle.lucy_core.specs.Inside.{going_in, AreFirst, AreEmpty, HaveTrays, HasBegun, with_tray};

use crate::circle::Circle;
use crate::cursor::Cursor;
use crate::tray::Tray;
use lucy_host::Ops;
use lucy_net::{Actor, ActorKind, ActorState, Net, RingSpec, Schedule, first_state};
use std::alloc::{AllocError, Global};

/// The states of actors that have done nothing.
pub(crate) fn first_states(
    alloc: Global,
    actors: &[Actor],
    instants: u64,
) -> Result<Vec<ActorState>, AllocError>
    requires { All IsUsable actors.now }
    ensures { IfOk result (λ states. AreFirst actors.now instants states.items) }
{
    let mut states = Vec::new(alloc);
    for actor in actors {
        states.push(first_state(actor, instants))?;
    }
    Ok(states)
}

/// How many of these actors have a firing left.
pub(crate) fn going_count(states: &[ActorState]) -> u64
    ensures { result ≡ going_in states.now }
{
    let mut going = 0;
    for state in states {
        if state.fired < state.quota {
            going += 1;
        }
    }
    going
}

/// A circle of the ring's size and one slot more for each ring.
pub(crate) fn empty_circles(alloc: Global, rings: &[RingSpec]) -> Result<Vec<Circle>, AllocError>
    requires { All (λ ring. ring.size + 1 ≤ limit_number limit.Slots) rings.now }
    ensures { IfOk result (λ circles. AreEmpty rings.now circles.items) }
{
    let mut circles = Vec::new(alloc);
    for ring in rings {
        circles.push(Circle::new(alloc, ring.size as usize + 1)?)?;
    }
    Ok(circles)
}

// Trays without room.
fn no_trays(alloc: Global, count: usize) -> Result<Vec<Tray>, AllocError>
    ensures { IfOk result (λ trays. length trays.items ≡ count) }
{
    let mut trays = Vec::new(alloc);
    for _ in 0..count {
        trays.push(Tray::new(alloc, 0)?)?;
    }
    Ok(trays)
}

// How many trays hold one for each output.
fn tray_count(actors: &[Actor]) -> usize
    ensures { (a n : ℕ) (actor : Actor) → slice_get actors.now a ≡ Some actor → actor.kind ≡ Output n → n < result }
{
    let mut count = 0;
    for actor in actors {
        if let ActorKind::Output(output) = &actor.kind {
            count = count.max(*output as usize + 1);
        }
    }
    count
}

// Where the actor is an output, a tray with room for all that it takes.
fn make_tray(
    alloc: Global,
    actor: &Actor,
    instants: u64,
    trays: &mut Vec<Tray>,
) -> Result<(), AllocError>
    requires { (n : ℕ) → actor.now.kind ≡ Output n → n < length trays.old.items }
    ensures { IfOk result (λ _. trays.new.items ≡ with_tray actor.now.kind (ones_to actor.now.firing instants) trays.old.items) }
{
    if let ActorKind::Output(output) = &actor.kind {
        trays[*output as usize] = Tray::new(alloc, actor.firing.ones(instants) as usize)?;
    }
    Ok(())
}

/// For each output a tray with room for all that it takes.
pub(crate) fn empty_trays(
    alloc: Global,
    actors: &[Actor],
    instants: u64,
) -> Result<Vec<Tray>, AllocError>
    requires { (a b n : ℕ) (x y : Actor) → slice_get actors.now a ≡ Some x → slice_get actors.now b ≡ Some y → x.kind ≡ Output n → y.kind ≡ Output n → a ≡ b }
    ensures { IfOk result (λ trays. HaveTrays actors.now instants (length actors.now) trays.items) }
{
    let mut trays = no_trays(alloc, tray_count(actors))?;
    for actor in actors {
        make_tray(alloc, actor, instants, &mut trays)?;
    }
    Ok(trays)
}

/// What a core keeps of its actors, its rings and its outputs.
#[derive(Drop)]
pub(crate) struct Beginning {
    pub states: Vec<ActorState>,
    pub done: Vec<u64>,
    pub going: u64,
    pub circles: Vec<Circle>,
    pub trays: Vec<Tray>,
    pub cursor: Cursor,
}

/// That of a net where nothing is done.
pub(crate) fn begin(
    alloc: Global,
    net: &Net,
    schedule: &Schedule,
    instants: u64,
) -> Result<Beginning, AllocError>
    requires proper { IsProper net.now }
    requires early { instants ≤ limit_number limit.Instants }
    ensures { IfOk result (HasBegun net.now schedule.now instants) }
{
    let states = first_states(alloc, net.actors.list(), instants)?;
    let done = vec![in alloc; 0u64; states.len()]?;
    let going = going_count(&states);
    let circles = empty_circles(alloc, net.rings.list())?;
    let trays = empty_trays(alloc, net.actors.list(), instants)?;
    let cursor = Cursor::new(alloc, schedule, instants, &done)?;
    Ok(Beginning {
        states,
        done,
        going,
        circles,
        trays,
        cursor,
    })
}
