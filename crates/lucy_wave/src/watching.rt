// The net of a program with outputs more.
ghost use Rattle.std.specs.Prelude.{◌≡◌, ◌≤◌, ◌<◌, ◌+◌, ◌-◌, ◌^◌, ◌↔◌, ◌∷◌, ◌++◌, [], length, sum_by, OnOk, IfOk, IsTrue, MatchOption};
ghost use Rattle.std.specs.List.{AllByRecursion};
ghost use Rattle.lucy_need.specs.Meeting.{assigned};
ghost use Rattle.lucy_net.specs.Proper.{IsProper};
ghost use Rattle.lucy_net.specs.Schedules.{IsScheduleOf};
ghost use Rattle.lucy_flat.specs.Counts.{IsKeptBy};
ghost use Rattle.lucy_wave.specs.Watching as spec;
ghost use Rattle.lucy_wave.specs.Watching.{give_at, with_output, with_outputs, HasRoom, CanWatch};
ghost use Rattle.lucy_wave.specs.Seen.{net_of, IsWithin};

use crate::gathering::word_of;
use lucy_net::{
    Actor, ActorKind, Actors, CauseFault, Net, Numbers, RingSpec, Rings, Schedule,
    nets_have_one_answer, schedule_of,
};
use lucy_word::{Limit, Word};
use std::alloc::{AllocError, Global};

/// A net with outputs more, and its schedule.
#[derive(Drop)]
pub(crate) struct Watched {
    pub net: Net,
    pub schedule: Schedule,
}

// The actors and the rings of a net that is being made.
#[derive(Drop)]
struct Draft {
    actors: Vec<Actor>,
    rings: Vec<RingSpec>,
}

// One more element.
fn push<T: Drop>(list: &mut Vec<T>, next: T) -> Result<(), AllocError>
    ensures { OnOk result (list.new.items ≡ list.old.items ++ next ∷ []) }
{
    list.push(next)?;
    Ok(())
}

// Equal actors.
fn copy_actors(alloc: Global, actors: &[Actor]) -> Result<Vec<Actor>, AllocError>
    ensures { IfOk result (λ copies. copies.items ≡ actors.now) }
{
    let mut copies = Vec::new(alloc);
    'each: for actor in actors {
        push(&mut copies, actor.copy(alloc)?)?;
    }
    Ok(copies)
}

// A ring between two actors, of a size.
fn ring_of(
    alloc: Global,
    from: u32,
    to: u32,
    write: &Word,
    read: &Word,
    size: u64,
) -> Result<RingSpec, AllocError>
    ensures { IfOk result (λ ring. ring ≡ record { from = from; to = to; write = write.now; read = read.now; size = size }) }
{
    let write = write.copy(alloc)?;
    let read = read.copy(alloc)?;
    Ok(RingSpec {
        from,
        to,
        write,
        read,
        size,
    })
}

// Equal rings.
fn copy_rings(alloc: Global, rings: &[RingSpec]) -> Result<Vec<RingSpec>, AllocError>
    ensures { IfOk result (λ copies. copies.items ≡ rings.now) }
{
    let mut copies = Vec::new(alloc);
    'each: for ring in rings {
        let copy = ring_of(
            alloc,
            ring.from,
            ring.to,
            &ring.write,
            &ring.read,
            ring.size,
        )?;
        push(&mut copies, copy)?;
    }
    Ok(copies)
}

// The parts of a net, once more.
fn draft_of(alloc: Global, net: &Net) -> Result<Draft, AllocError>
    ensures { IfOk result (λ draft. net_of draft ≡ net.now) }
{
    let actors = copy_actors(alloc, net.actors.list())?;
    let rings = copy_rings(alloc, net.rings.list())?;
    Ok(Draft { actors, rings })
}

// One number.
fn only(alloc: Global, number: u32) -> Result<Numbers, AllocError>
    ensures { IfOk result (λ numbers. numbers ≡ number ∷ []) }
{
    let mut list = Vec::new(alloc);
    list.push(number)?;
    Ok(Numbers::new(list))
}

// Numbers with one more.
fn one_more(alloc: Global, numbers: &Numbers, number: u32) -> Result<Numbers, AllocError>
    ensures { IfOk result (λ more. more ≡ numbers.now ++ number ∷ []) }
{
    let mut list = numbers.list().to_vec(alloc)?;
    list.push(number)?;
    Ok(Numbers::new(list))
}

// An output that takes from a ring, on this word.
fn output_on(alloc: Global, output: u32, ring: u32, word: &Word) -> Result<Actor, AllocError>
    ensures { IfOk result (λ actor. actor ≡ spec.output_on output ring word.now) }
{
    let firing = word.copy(alloc)?;
    let takes = only(alloc, ring)?;
    Ok(Actor {
        kind: ActorKind::Output(output),
        firing,
        takes,
        gives: Numbers::new(Vec::new(alloc)),
    })
}

// The actor of a number gives on a ring more.
fn give(alloc: Global, actors: &mut [Actor], number: usize, ring: u32) -> Result<(), AllocError>
    requires { number < length actors.old }
    ensures { OnOk result (actors.new ≡ give_at number ring actors.old) }
{
    let more = one_more(alloc, &actors[number].gives, ring)?;
    let actor = &mut actors[number];
    actor.gives = more;
    Ok(())
}

// One more actor: an output that takes from a ring, on this word.
fn add_actor(
    alloc: Global,
    actors: &mut Vec<Actor>,
    output: u32,
    ring: u32,
    word: &Word,
) -> Result<(), AllocError>
    ensures { OnOk result (actors.new.items ≡ actors.old.items ++ spec.output_on output ring word.now ∷ []) }
{
    let actor = output_on(alloc, output, ring, word)?;
    push(actors, actor)?;
    Ok(())
}

// One more ring, written and read on one word.
fn add_ring(
    alloc: Global,
    rings: &mut Vec<RingSpec>,
    from: u32,
    to: u32,
    word: &Word,
) -> Result<(), AllocError>
    ensures { OnOk result (rings.new.items ≡ rings.old.items ++ spec.ring_on from to word.now ∷ []) }
{
    let ring = ring_of(alloc, from, to, word, word, 0)?;
    push(rings, ring)?;
    Ok(())
}

// An output more, for a place, which counts from 1.
fn add_output(
    alloc: Global,
    draft: &mut Draft,
    output: u32,
    place: u32,
    word: &Word,
) -> Result<(), AllocError>
    requires low { 1 ≤ place }
    requires high { place ≤ length draft.old.actors.items }
    requires few { length draft.old.actors.items < 2 ^ 32 }
    requires few_rings { length draft.old.rings.items < 2 ^ 32 }
    ensures { OnOk result (net_of draft.new ≡ with_output (net_of draft.old) output place word.now) }
{
    let to = draft.actors.len() as u32;
    let ring = draft.rings.len() as u32;
    give(alloc, &mut draft.actors, place as usize - 1, ring)?;
    add_actor(alloc, &mut draft.actors, output, ring, word)?;
    add_ring(alloc, &mut draft.rings, place - 1, to, word)?;
    Ok(())
}

// The net with an output more for each of these places, numbered from one on.
fn with_outputs(
    alloc: Global,
    net: &Net,
    words: &[Word],
    first: u32,
    places: &[u32],
) -> Result<Net, AllocError>
    requires within { AllByRecursion (IsWithin (length net.now.actors) (length words.now)) places.now }
    requires few { length net.now.actors + length places.now < 2 ^ 31 }
    requires few_rings { length net.now.rings + length places.now < 2 ^ 31 }
    requires first { first < 2 ^ 31 }
    ensures { IfOk result (λ more. more ≡ with_outputs net.now (assigned words.now) first places.now) }
{
    let mut draft = draft_of(alloc, net)?;
    'each: for (i, place) in places.iter().enumerate() {
        let word = word_of(words, *place);
        add_output(alloc, &mut draft, first + i as u32, *place, word)?;
    }
    let Draft { actors, rings } = draft;
    Ok(Net {
        actors: Actors::new(actors),
        rings: Rings::new(rings),
    })
}

// The slots of rings.
fn slots_of(rings: &[RingSpec]) -> u64
    requires { sum_by (λ ring. ring.size + 1) rings.now < 2 ^ 32 }
    ensures { result ≡ sum_by (λ ring. ring.size + 1) rings.now }
{
    let mut slots = 0u64;
    'each: for ring in rings {
        slots += ring.size + 1;
    }
    slots
}

// Whether so many actors, rings and slots keep the limits.
fn are_kept(actors: u64, rings: u64, slots: u64) -> bool
    ensures { IsTrue result ↔ IsKeptBy actors rings slots }
{
    actors <= Limit::Actors.number()
        && rings <= Limit::Rings.number()
        && slots <= Limit::Slots.number()
}

// Whether a net with so many outputs more keeps the limits of nets.
fn has_room(net: &Net, count: u64) -> bool
    requires proper { IsProper net.now }
    requires few { count < 2 ^ 32 }
    ensures { IsTrue result ↔ HasRoom net.now count }
{
    let actors = net.actors.list().len() as u64;
    let rings = net.rings.list();
    are_kept(
        actors + count,
        rings.len() as u64 + count,
        slots_of(rings) + count,
    )
}

/// The net with an output more for each of these places, numbered from one on, and its schedule. None where it doesn't keep all limits.
pub(crate) fn watch(
    alloc: Global,
    net: &Net,
    words: &[Word],
    first: u32,
    places: &[u32],
) -> Result<Option<Watched>, AllocError>
    requires proper { IsProper net.now }
    requires within { AllByRecursion (IsWithin (length net.now.actors) (length words.now)) places.now }
    requires few { length places.now < 2 ^ 30 }
    requires first { first < 2 ^ 31 }
    requires made { HasRoom net.now (length places.now) → IsProper (with_outputs net.now (assigned words.now) first places.now) }
    ensures { IfOk result (λ answer. MatchOption answer (CanWatch net.now (assigned words.now) first places.now → ⊥)
        (λ watched. HasRoom net.now (length places.now) × (watched.net ≡ with_outputs net.now (assigned words.now) first places.now) × IsScheduleOf watched.net watched.schedule)) }
{
    if !has_room(net, places.len() as u64) {
        return Ok(None);
    }
    nets_have_one_answer();
    let net = with_outputs(alloc, net, words, first, places)?;
    match schedule_of(alloc, &net) {
        Ok(schedule) => Ok(Some(Watched { net, schedule })),
        Err(CauseFault::OutOfMemory) => Err(AllocError),
        Err(_) => Ok(None),
    }
}
