// The actors of a net in two lists of parts, those of even numbers and those of odd ones, with the ends of all rings.
ghost use Rattle.std.specs.Prelude.{◌≡◌, ◌≤◌, ◌∷◌, ◌++◌, [], All, length, IfOk, OnOk};
ghost use Rattle.lucy_word.specs.Limits.{limit_number};
ghost use Rattle.lucy_word.specs.declared.limit.Limit.TheVariants as lim;
ghost use Rattle.lucy_net.specs.States.{IsUsable};
ghost use Rattle.lucy_net_rows.specs.ByHand.{IsBegun, HasGainedGiver, HasGainedTaker, HaveGainedGiver, HaveGainedTaker, HaveJoined, AreJoined};

use crate::lists::push;
use lucy_net::{Actor, ActorKind, RingSpec, first_state};
use lucy_ring::{Giver, Taker, ring};
use lucy_word::Limit;
use lucy_worker::{EndPlace, Part, ends_are_kept};
use std::alloc::{AllocError, Global};

/// An end of a ring: whether it is among the parts of odd actors, and its place there.
#[derive(Clone, Copy)]
pub(crate) struct End {
    pub odd: bool,
    pub place: EndPlace,
}

/// Where the two ends of a ring are.
#[derive(Clone, Copy)]
pub(crate) struct Link {
    pub giver: End,
    pub taker: End,
}

// No part has more ends.
const MOST_ENDS: usize = 1_024;

// The items of an input; no other actor has any.
fn input_of(alloc: Global, kind: &ActorKind, items: &[i64]) -> Result<Vec<i64>, AllocError> {
    match kind {
        ActorKind::Input(_) => Ok(items.to_vec(alloc)?),
        _ => Ok(Vec::new(alloc)),
    }
}

// The part of an actor that has done nothing, without ends.
fn first_part(
    alloc: Global,
    number: u32,
    actor: &Actor,
    items: &[i64],
    instants: u64,
) -> Result<Part, AllocError>
    requires { IsUsable actor.now }
    ensures { IfOk result IsBegun }
{
    let state = first_state(actor, instants);
    let input = input_of(alloc, &actor.kind, items)?;
    let output = Vec::with_capacity(alloc, state.quota as usize)?;
    let actor = actor.copy(alloc)?;
    Ok(Part {
        number,
        actor,
        state,
        input,
        output,
        givers: Vec::new(alloc),
        takers: Vec::new(alloc),
    })
}

/// Appends the parts of these actors, those of even numbers and those of odd ones, without ends. The input has these items.
pub(crate) fn first_parts(
    alloc: Global,
    actors: &[Actor],
    items: &[i64],
    instants: u64,
    even: &mut Vec<Part>,
    odd: &mut Vec<Part>,
) -> Result<(), AllocError>
    requires few { length actors.now ≤ limit_number lim.Actors }
    requires usable { All IsUsable actors.now }
    requires begun { All IsBegun even.old.items × All IsBegun odd.old.items }
    ensures { OnOk result (All IsBegun even.new.items × All IsBegun odd.new.items) }
{
    for (number, actor) in actors.iter().enumerate() {
        let part = first_part(alloc, number as u32, actor, items, instants)?;
        if number % 2 == 0 {
            push(even, part)?;
        } else {
            push(odd, part)?;
        }
    }
    Ok(())
}

// The two ends of a new ring of its size and one slot more.
fn ends_of(alloc: Global, spec: &RingSpec) -> Result<(Giver, Taker), AllocError>
    ensures name { IfOk result (λ r. r.0.ring ≡ r.1.ring) }
    ensures new { IfOk result (λ r. (r.0.given ≡ []) × (r.1.taken ≡ [])) }
{
    let size = spec.size.min(Limit::Slots.number() - 1);
    ring(alloc, size as u32 + 1)
}

// Gives the part of this number, where there is one, a giver more.
fn give_one(parts: &mut Vec<Part>, part: u32, giver: Giver) -> Result<EndPlace, AllocError>
    requires begun { All IsBegun parts.old.items }
    requires new { giver.given ≡ [] }
    ensures { IfOk result (λ place. HasGainedGiver parts.old.items place giver parts.new.items) }
{
    let place = part as usize;
    if place >= parts.len() || parts[place].givers.len() >= MOST_ENDS {
        return Err(AllocError);
    }
    let one = &mut parts[place];
    let number = one.givers.len() as u32;
    push(&mut one.givers, giver)?;
    Ok(EndPlace { part, number })
}

// A taker more.
fn take_one(parts: &mut Vec<Part>, part: u32, taker: Taker) -> Result<EndPlace, AllocError>
    requires begun { All IsBegun parts.old.items }
    requires new { taker.taken ≡ [] }
    ensures { IfOk result (λ place. HasGainedTaker parts.old.items place taker parts.new.items) }
{
    let place = part as usize;
    if place >= parts.len() || parts[place].takers.len() >= MOST_ENDS {
        return Err(AllocError);
    }
    let one = &mut parts[place];
    let number = one.takers.len() as u32;
    push(&mut one.takers, taker)?;
    Ok(EndPlace { part, number })
}

// A giver more for this actor.
fn give_to(
    even: &mut Vec<Part>,
    odd: &mut Vec<Part>,
    actor: u32,
    giver: Giver,
) -> Result<End, AllocError>
    requires begun { All IsBegun even.old.items × All IsBegun odd.old.items }
    requires new { giver.given ≡ [] }
    ensures { IfOk result (λ end. HaveGainedGiver even.old.items odd.old.items end giver even.new.items odd.new.items) }
{
    if actor % 2 == 0 {
        let place = give_one(even, actor / 2, giver)?;
        Ok(End { odd: false, place })
    } else {
        let place = give_one(odd, actor / 2, giver)?;
        Ok(End { odd: true, place })
    }
}

// A taker more for it.
fn take_to(
    even: &mut Vec<Part>,
    odd: &mut Vec<Part>,
    actor: u32,
    taker: Taker,
) -> Result<End, AllocError>
    requires begun { All IsBegun even.old.items × All IsBegun odd.old.items }
    requires new { taker.taken ≡ [] }
    ensures { IfOk result (λ end. HaveGainedTaker even.old.items odd.old.items end taker even.new.items odd.new.items) }
{
    if actor % 2 == 0 {
        let place = take_one(even, actor / 2, taker)?;
        Ok(End { odd: false, place })
    } else {
        let place = take_one(odd, actor / 2, taker)?;
        Ok(End { odd: true, place })
    }
}

// A new ring, whose ends go behind those of its actors' parts.
fn join(
    alloc: Global,
    spec: &RingSpec,
    even: &mut Vec<Part>,
    odd: &mut Vec<Part>,
) -> Result<Link, AllocError>
    requires { All IsBegun even.old.items × All IsBegun odd.old.items }
    ensures { IfOk result (λ link. HaveJoined even.old.items odd.old.items link even.new.items odd.new.items) }
{
    let (one, other) = ends_of(alloc, spec)?;
    let giver = give_to(even, odd, spec.from, one)?;
    let taker = take_to(even, odd, spec.to, other)?;
    Ok(Link { giver, taker })
}

/// Makes all rings and gives their ends to the parts of their actors; where each ring's ends are goes into an empty list.
pub(crate) fn join_all(
    alloc: Global,
    rings: &[RingSpec],
    even: &mut Vec<Part>,
    odd: &mut Vec<Part>,
    links: &mut Vec<Link>,
) -> Result<(), AllocError>
    requires begun { All IsBegun even.old.items × All IsBegun odd.old.items }
    requires none { links.old.items ≡ [] }
    ensures { OnOk result (AreJoined even.new.items odd.new.items links.new.items) }
{
    ends_are_kept();
    for spec in rings {
        let link = join(alloc, spec, even, odd)?;
        push(links, link)?;
    }
    Ok(())
}
