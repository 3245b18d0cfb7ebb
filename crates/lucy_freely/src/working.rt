// Workers that go on until their actors are done.
ghost use Rattle.std.specs.Prelude.{◌≡◌, All, length};
ghost use Rattle.lucy_host.specs.Host.{Serves, lent};
ghost use Rattle.lucy_host.specs.Operators.{kinds_of};
ghost use Rattle.lucy_worker.specs.Turns.{IsServed};
ghost use Rattle.lucy_runner.specs.Crews.{seated};
ghost use Rattle.lucy_runner.specs.Finishing.{HasFinished, HaveFinished};

use crate::resting::{parker_of, rest, wake};
use crossbeam_utils::sync::{Parker, Unparker};
use lucy_host::Host;
use lucy_runner::Seat;
use lucy_worker::OpenGate;
use std::sync::{Mutex, Wait};
use std::thread;
use std::thread::Threads;

// Moves the actors of the worker of this number until all are done. Where a turn has moved something the others are woken, and where
// it has moved nothing the worker rests. A token for it that came since its turn began ends its rest at once.
fn work<R: Wait, F: Fn(u32, i64, i64) -> i64 + Sync>(
    rt: &R,
    seat: &mut Seat,
    number: usize,
    parker: &Option<Parker>,
    wakers: &[Unparker],
    host: &Host<F>,
)
    requires serves { Serves F.pre F.post host.now }
    requires served { All (IsServed (length (lent host.now))) seat.old.worker.parts }
    ensures { HasFinished (kinds_of (lent host.now)) (seated seat.old) (seated seat.new) }
{
    let mut moves = seat.worker.advance(host, &OpenGate);
    'turns: for _ in rt.forever() {
        if moves > 0 {
            wake(wakers, number);
        }
        if seat.worker.done() {
            break;
        }
        if moves == 0 {
            rest(rt, parker);
        }
        moves = seat.worker.advance(host, &OpenGate);
    }
}

/// Lets every worker go on until its actors are done, where there are several each in a thread of its own, and joins them.
pub(crate) fn work_all<R: Threads + Wait + Sync, F: Fn(u32, i64, i64) -> i64 + Sync>(
    rt: &R,
    seats: &mut [Seat],
    parkers: &[Mutex<Option<Parker>>],
    wakers: &[Unparker],
    host: &Host<F>,
)
    requires serves { Serves F.pre F.post host.now }
    requires served { All (λ seat. All (IsServed (length (lent host.now))) (seated seat)) seats.old }
    ensures { HaveFinished (kinds_of (lent host.now)) seats.old seats.new }
{
    let threads = seats.len().max(1);
    thread::for_each_mut(
        rt,
        seats,
        threads,
        &|number, seat: &mut Seat|
            requires { Serves F.pre F.post host.now × All (IsServed (length (lent host.now))) seat.now.worker.parts }
            ensures { HasFinished (kinds_of (lent host.entry.now)) (seated seat.entry.now) (seated seat.exit.now) }
        {
            let parker = parker_of(rt, parkers, number);
            work(rt, seat, number, &parker, wakers, host);
        },
    );
}
