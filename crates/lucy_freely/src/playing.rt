// An accepted program, played by free threads.
ghost use Rattle.std.specs.Prelude.{◌≡◌, length};
ghost use Rattle.lucy_host.specs.Host.{Serves, lent};
ghost use Rattle.lucy_host.specs.Operators.{kinds_of};
ghost use Rattle.lucy_runner.specs.Crews.{crew_of};
ghost use Rattle.lucy_runner.specs.Turns.{AreServed};
ghost use Rattle.lucy_runner.specs.Finishing.{HaveFinished};
ghost use Rattle.lucy_run.specs.Engines.{CanBePlayed, IsPlayedTo};

use crate::resting::Beds;
use crate::working::work_all;
use lucy_host::{Host, Inputs};
use lucy_net::schedule_of;
use lucy_program::{Accepted, accepted_programs_are_clocked};
use lucy_results::run_net_by_turns;
use lucy_run::copy_net;
use lucy_runner::Seat;
use std::alloc::{AllocError, Global};
use std::sync::Wait;
use std::thread::Threads;

/// The streams of main's results up to the horizon, by workers without rounds, who are joined before it answers. Where no thread can be
/// made it may wait without end.
pub(crate) fn play_freely<R: Threads + Wait + Sync, F: Fn(u32, i64, i64) -> i64 + Sync>(
    rt: &R,
    alloc: Global,
    accepted: &Accepted,
    host: &Host<F>,
    inputs: Inputs,
    instants: u64,
    workers: u32,
) -> Result<Inputs, AllocError>
    requires serves { Serves F.pre F.post host.now }
    requires can { CanBePlayed (lent host.now) accepted.now inputs instants workers }
    ensures { IsPlayedTo (lent host.now) accepted.now inputs instants result }
{
    accepted_programs_are_clocked();
    let net = copy_net(alloc, &accepted.net)?;
    // A net that has a schedule is refused for want of memory alone.
    let schedule = match schedule_of(alloc, &net) {
        Ok(schedule) => schedule,
        Err(_) => return Err(AllocError),
    };
    let Beds { parkers, wakers } = Beds::new(alloc, workers)?;
    let (parkers, wakers) = (parkers.as_slice(), wakers.as_slice());
    let turns = |seats: &mut [Seat]|
        requires { Serves F.pre F.post host.now × AreServed (length (lent host.now)) (crew_of seats.now) }
        ensures { HaveFinished (kinds_of (lent host.entry.now)) seats.entry.now seats.exit.now }
    {
        work_all(rt, seats, parkers, wakers, host);
    };
    let (placed, clocks) = (&accepted.placed, accepted.clocks.as_slice());
    run_net_by_turns(
        alloc,
        placed,
        clocks,
        net,
        schedule,
        host.ops(),
        inputs,
        instants,
        workers,
        turns,
    )
}
