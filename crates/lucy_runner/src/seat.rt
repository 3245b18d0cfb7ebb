// A turn of every worker.
ghost use Rattle.std.specs.Prelude.{◌≡◌, ◌↔◌, ◌≤◌, All, IsTrue, length, sum_by};
ghost use Rattle.lucy_host.specs.Host.{Serves, lent};
ghost use Rattle.lucy_host.specs.Operators.{kinds_of};
ghost use Rattle.lucy_word.specs.Limits.{limit_number};
ghost use Rattle.lucy_word.specs.declared.limit.Limit.TheVariants as limit;
ghost use Rattle.lucy_stream.specs.Forms.{operands};
ghost use Rattle.lucy_net.specs.Plans.{form_of};
ghost use Rattle.lucy_worker.specs.Parts.{done_of, IsDone};
ghost use Rattle.lucy_worker.specs.Turns.{IsServed, most_moves};
ghost use Rattle.lucy_runner.specs.Views.{most_workers};
ghost use Rattle.lucy_runner.specs.Crews.{crew_of};
ghost use Rattle.lucy_runner.specs.Turns.{HaveTurned};
ghost use Rattle.lucy_runner.specs.Seats.{IsTurned, moves_of, most_turned};

use lucy_host::Host;
use lucy_net::operations;
use lucy_worker::{Gate, Part, Worker};
use std::thread;
use std::thread::Threads;

/// A worker, and how many moves it made in its last turn.
#[derive(Drop)]
pub struct Seat {
    pub worker: Worker,
    pub(crate) moves: u64,
}

/// A turn of each worker, where there are several each in a thread of its own. Answers the number of moves.
pub(crate) fn turn_apart<R: Threads + Sync, F: Fn(u32, i64, i64) -> i64 + Sync, G: Gate + Sync>(
    rt: &R,
    seats: &mut [Seat],
    host: &Host<F>,
    gate: &G,
) -> u64
    requires serves { Serves F.pre F.post host.now }
    requires served { All (λ seat. All (IsServed (length (lent host.now))) seat.worker.parts) seats.old }
    requires few { length seats.old ≤ most_workers }
    ensures turned { HaveTurned (kinds_of (lent host.now)) (crew_of seats.old) (crew_of seats.new) result }
    ensures few { result ≤ most_turned }
{
    let threads = seats.len().max(1);
    thread::for_each_mut(
        rt,
        seats,
        threads,
        &|_, seat: &mut Seat|
            requires { Serves F.pre F.post host.now × All (IsServed (length (lent host.now))) seat.now.worker.parts }
            ensures { IsTurned (kinds_of (lent host.entry.now)) seat.entry.now seat.exit.now }
        {
            seat.moves = seat.worker.advance(host, gate);
        },
    );
    moves_in(seats)
}

/// A pass of one worker after the other over its actors, by one thread. It passes no gate. Answers the number of moves.
pub(crate) fn pass_in_place<F: Fn(u32, i64, i64) -> i64 + Sync>(
    seats: &mut [Seat],
    host: &Host<F>,
) -> u64
    requires serves { Serves F.pre F.post host.now }
    requires served { All (λ seat. All (IsServed (length (lent host.now))) seat.worker.parts) seats.old }
    requires few { length seats.old ≤ most_workers }
    ensures turned { HaveTurned (kinds_of (lent host.now)) (crew_of seats.old) (crew_of seats.new) result }
    ensures few { result ≤ most_turned }
{
    for seat in seats.iter_mut() {
        seat.moves = seat.worker.pass_over(host);
    }
    moves_in(seats)
}

/// How many operations an actor of a net has done.
pub(crate) fn operations_done(part: &Part) -> u64
    requires arity { length part.now.actor.takes ≡ operands (form_of part.now.actor.kind) }
    requires gives { length part.now.actor.gives ≤ limit_number limit.Rings }
    requires fired { part.now.state.fired ≤ limit_number limit.Instants }
    ensures { result ≡ done_of part.now }
{
    operations(&part.actor, part.state.fired) + u64::from(part.state.step)
}

/// Whether every actor has done its list.
pub(crate) fn all_done(seats: &[Seat]) -> bool
    ensures { IsTrue result ↔ All (λ seat. All IsDone seat.worker.parts) seats.now }
{
    seats.iter().all(|seat| seat.worker.done())
}

// The moves of the last turn of each.
fn moves_in(seats: &[Seat]) -> u64
    requires few { length seats.now ≤ most_workers }
    requires each { All (λ seat. seat.moves ≤ most_moves) seats.now }
    ensures sum { result ≡ sum_by moves_of seats.now }
    ensures few { result ≤ most_turned }
{
    let mut moves = 0;
    for seat in seats {
        moves += seat.moves;
    }
    moves
}

// Starting threads takes 25 us for two workers and 140 us for four: in that time one thread moves as many.
const FEW_OPERATIONS: u64 = 4_096;

/// Whether the actors have few operations left, each one at most for each of its rings in each firing. Nothing is claimed of it.
pub(crate) fn few_left(seats: &[Seat]) -> bool {
    let mut left = 0u64;
    for seat in seats {
        left = left.saturating_add(left_in(seat.worker.parts()));
    }
    left < FEW_OPERATIONS
}

// How many operations these actors have left at most.
fn left_in(parts: &[Part]) -> u64 {
    let mut left = 0u64;
    for part in parts {
        let firings = part.state.quota.saturating_sub(part.state.fired);
        if firings > 0 {
            let rings = part.takers.len() as u64 + part.givers.len() as u64;
            left = left.saturating_add(firings.saturating_mul(rings));
        }
    }
    left
}
