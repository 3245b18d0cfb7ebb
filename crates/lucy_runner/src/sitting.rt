// Parts in the seats of their homes.
ghost use Rattle.std.specs.Prelude.{ℕ, ◌≡◌, ◌+◌, ◌<◌, ◌≤◌, ◌^◌, [], ◌∷◌, ◌++◌, All, length, map, true, slice_index, slice_get, IfOk};
ghost use Rattle.lucy_word.specs.Limits.{limit_number};
ghost use Rattle.lucy_word.specs.declared.limit.Limit.TheVariants as limit;
ghost use Rattle.lucy_runner.specs.Views.{most_workers};
ghost use Rattle.lucy_runner.specs.Homes.{is_home, at_home, crew_by, actors_by};
ghost use Rattle.lucy_runner.specs.Crews.{crew_of};
ghost use Rattle.lucy_runner.specs.Making.{benched, homes_in, ArePlaced, AreNumbered, CanWork, HaveSeats};

use crate::place::Place;
use crate::seat::Seat;
use lucy_worker::{Part, Worker};
use std::alloc::{AllocError, Global};

// What a worker is made of: its home, and its parts.
#[derive(Drop)]
pub(crate) struct Bench {
    pub home: u32,
    pub parts: Vec<Part>,
}

// Empty benches, one for each home that has an actor, in order of the homes; and of each home how many come before its own.
#[derive(Drop)]
pub(crate) struct Hall {
    pub numbers: Vec<u32>,
    pub benches: Vec<Bench>,
}

// Which homes have an actor.
fn used_homes(alloc: Global, workers: u32, homes: &[u32]) -> Result<Vec<bool>, AllocError>
    requires { All (λ home. home < workers) homes.now }
    ensures count { IfOk result (λ used. length used.items ≡ workers) }
    ensures used { IfOk result (λ used. All (λ home. slice_get used.items home ≡ Some true) homes.now) }
    ensures only { IfOk result (λ used. (home : ℕ) → slice_get used.items home ≡ Some true → is_home homes.now home ≡ true) }
{
    let mut used = vec![in alloc; false; workers as usize]?;
    for home in homes {
        used[*home as usize] = true;
    }
    Ok(used)
}

// The benches of these homes.
fn hall_of(alloc: Global, used: &[bool]) -> Result<Hall, AllocError>
    requires { length used.now ≤ most_workers }
    ensures { IfOk result (λ hall. HaveSeats used.now hall) }
{
    let mut numbers = Vec::new(alloc);
    let mut benches = Vec::new(alloc);
    for (home, used) in used.iter().enumerate() {
        numbers.push(benches.len() as u32)?;
        if *used {
            let bench = Bench {
                home: home as u32,
                parts: Vec::new(alloc),
            };
            benches.push(bench)?;
        }
    }
    Ok(Hall { numbers, benches })
}

// One part more on the bench of this number; where it is.
fn sit_down(bench: &mut Bench, seat: u32, part: Part) -> Result<Place, AllocError>
    requires { length (benched bench.old) < 2 ^ 32 }
    ensures at { IfOk result (λ place. place ≡ record { seat = seat; part = length (benched bench.old) }) }
    ensures more { IfOk result (λ _. benched bench.new ≡ benched bench.old ++ part ∷ []) }
    ensures home { IfOk result (λ _. bench.new.home ≡ bench.old.home) }
{
    let place = Place {
        seat,
        part: bench.parts.len() as u32,
    };
    bench.parts.push(part)?;
    Ok(place)
}

// The parts on the benches of their homes, in order of their numbers.
fn place_all(
    alloc: Global,
    parts: Vec<Part>,
    homes: &[u32],
    numbers: &[u32],
    benches: &mut [Bench],
) -> Result<Vec<Place>, AllocError>
    requires numbered { AreNumbered parts.items }
    requires few { length parts.items ≤ limit_number limit.Actors }
    requires homes { length homes.now ≡ length parts.items }
    requires seats { All (λ home. (home < length numbers.now) × (slice_index numbers.now home < length benches.old)) homes.now }
    requires own { All (λ home. slice_get (homes_in benches.old) (slice_index numbers.now home) ≡ Some home) homes.now }
    requires known { (k home : ℕ) → slice_get (homes_in benches.old) k ≡ Some home → slice_index numbers.now home ≡ k }
    requires empty { All (λ bench. benched bench ≡ []) benches.old }
    ensures placed { IfOk result (λ places. ArePlaced parts.items (length parts.items) (map benched benches.new) places.items) }
    ensures homed { IfOk result (λ _. actors_by (map benched benches.new) ≡ map (at_home homes.now) (homes_in benches.old)) }
{
    let mut places = Vec::new(alloc);
    for part in parts {
        let seat = numbers[homes[part.number as usize] as usize];
        let place = sit_down(&mut benches[seat as usize], seat, part)?;
        places.push(place)?;
    }
    Ok(places)
}

// Workers of the benches.
fn workers_of(alloc: Global, benches: Vec<Bench>) -> Result<Vec<Seat>, AllocError>
    requires { All (λ bench. CanWork (benched bench)) benches.items }
    ensures { IfOk result (λ seats. crew_of seats.items ≡ map benched benches.items) }
{
    let mut seats = Vec::new(alloc);
    for bench in benches {
        let seat = Seat {
            worker: Worker::new(bench.home, bench.parts),
            moves: 0,
        };
        seats.push(seat)?;
    }
    Ok(seats)
}

/// The seats of the homes that have an actor, and where each part is; it is in the worker of its home.
pub(crate) fn seat_parts(
    alloc: Global,
    parts: Vec<Part>,
    workers: u32,
    homes: &[u32],
) -> Result<(Vec<Seat>, Vec<Place>), AllocError>
    requires numbered { AreNumbered parts.items }
    requires few { length parts.items ≤ limit_number limit.Actors }
    requires can { CanWork parts.items }
    requires workers { workers ≤ most_workers }
    requires homes { length homes.now ≡ length parts.items }
    requires each { All (λ home. home < workers) homes.now }
    ensures placed { IfOk result (λ r. ArePlaced parts.items (length parts.items) (crew_of r.0.items) r.1.items) }
    ensures few { IfOk result (λ r. length (crew_of r.0.items) ≤ most_workers) }
    ensures homed { IfOk result (λ r. actors_by (crew_of r.0.items) ≡ crew_by workers homes.now) }
{
    let used = used_homes(alloc, workers, homes)?;
    let Hall {
        numbers,
        mut benches,
    } = hall_of(alloc, &used)?;
    let places = place_all(alloc, parts, homes, &numbers, &mut benches)?;
    let seats = workers_of(alloc, benches)?;
    Ok((seats, places))
}
