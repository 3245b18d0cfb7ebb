// The events of a net by workers on threads, whose rounds are counted.
ghost use Rattle.std.specs.Prelude.{◌≡◌, ◌≤◌, length, IfOk};
ghost use Rattle.lucy_host.specs.Host.{Serves, lent};
ghost use Rattle.lucy_host.specs.Operators.{kinds_of};
ghost use Rattle.lucy_core.specs.Seen.{IsUnbegun};
ghost use Rattle.lucy_flat.specs.Flat.{IsFlat};

use crate::outputs::has_result;
use crate::page::Page;
use lucy_clock::NodeClock;
use lucy_core::Core;
use lucy_host::Host;
use lucy_place::Placed;
use lucy_results::homes_of;
use lucy_runner::Runner;
use lucy_worker::Gate;
use std::alloc::{AllocError, Global};
use std::sync::atomic::{AtomicU64, Ordering};
use std::thread::Threads;

// A gate that counts the rounds: worker 0, which has actor 0, passes it once in each.
#[derive(Drop)]
struct Rounds {
    passed: AtomicU64,
}

impl Gate for Rounds {
    fn pass(&self, worker: u32) {
        if worker == 0 {
            self.passed.fetch_add(1, Ordering::Relaxed);
        }
    }
}

// How many operations these actors have done, so many from actor 0 on.
fn events_done(runner: &Runner, actors: u32) -> u64
    requires { actors ≡ length runner.now.seen.net.actors }
{
    let mut events = 0u64;
    for actor in 0..actors {
        events = events.saturating_add(runner.done(actor));
    }
    events
}

// A runner of a core, which has so many actors, by 1 to 64 workers: actor `a` is in worker `a mod workers`.
fn runner_of(alloc: Global, core: Core, actors: u32, workers: u32) -> Result<Runner, AllocError>
    requires unbegun { IsUnbegun core }
    requires actors { actors ≡ length core.net.actors }
    requires workers { (1 ≤ workers) × (workers ≤ 64) }
    ensures net { IfOk result (λ runner. runner.seen.net ≡ core.net) }
    ensures operators { IfOk result (λ runner. runner.seen.operators ≡ core.operators) }
{
    match homes_of(alloc, actors as usize, workers) {
        Ok(homes) => Runner::new(alloc, core, workers, &homes),
        Err(_) => Err(AllocError),
    }
}

// Shows the events of a runner, whether it made no more rounds than these, and what the first output took.
fn show_run<R: Threads + Sync, F: Fn(u32, i64, i64) -> i64 + Sync>(
    rt: &R,
    page: &mut Page,
    host: &Host<F>,
    placed: &Placed,
    clocks: &[NodeClock],
    runner: &mut Runner,
    actors: u32,
)
    requires serves { Serves F.pre F.post host.now }
    requires kinds { kinds_of (lent host.now) ≡ kinds_of runner.old.seen.operators }
    requires flat { IsFlat placed.now.nodes clocks.now runner.old.seen.net }
    requires actors { actors ≡ length runner.old.seen.net.actors }
{
    // The contract alone speaks of the clocks.
    let _ = clocks.len();
    let gate = Rounds {
        passed: AtomicU64::new(0),
    };
    runner.go(rt, host, &gate);
    let events = events_done(runner, actors);
    let within = gate.passed.load(Ordering::Relaxed) <= events;
    page.put(format_args!("events {events}, within {events} rounds: {within}\n"));
    if has_result(placed, 0) {
        page.put("output 0");
        page.put_list(runner.output(0));
    }
}

/// Runs the core of a row by so many workers, from 1 to 64, and shows what comes of it.
pub(crate) fn show<R: AllocGlobal + Threads + Sync, F: Fn(u32, i64, i64) -> i64 + Sync>(
    rt: &R,
    page: &mut Page,
    host: &Host<F>,
    numbers: &[u32],
    placed: &Placed,
    clocks: &[NodeClock],
    core: Core,
    actors: u32,
)
    requires serves { Serves F.pre F.post host.now }
    requires kinds { kinds_of (lent host.now) ≡ kinds_of core.operators }
    requires unbegun { IsUnbegun core }
    requires flat { IsFlat placed.now.nodes clocks.now core.net }
    requires actors { actors ≡ length core.net.actors }
{
    let workers = numbers.first().copied().unwrap_or(1).clamp(1, 64);
    match runner_of(rt.alloc(), core, actors, workers) {
        Ok(mut runner) => show_run(rt, page, host, placed, clocks, &mut runner, actors),
        Err(_) => page.put("no memory\n"),
    }
}
