// The output streams by the flat net.
ghost use Rattle.std.specs.Prelude.{◌≡◌, ◌≤◌, ◌<◌, ◌%◌, ℕ, Some, All, length, slice_get, IfOk};
ghost use Rattle.lucy_host.specs.Host.{Serves, lent};
ghost use Rattle.lucy_host.specs.Operators.{kinds_of};
ghost use Rattle.lucy_kahn.specs.Spots.{main_of};
ghost use Rattle.lucy_kahn.specs.Turns.{params_in};
ghost use Rattle.lucy_core.specs.Seen.{IsUnbegun, IsOver};
ghost use Rattle.lucy_flat.specs.Flat.{IsFlat};
ghost use Rattle.lucy_runner.specs.Views.{inputs_for, most_workers};
ghost use Rattle.lucy_runner.specs.Homes.{crew_by};
ghost use Rattle.lucy_results.specs.Streams.{later_streams};
ghost use Rattle.lucy_results.specs.Playing.{homes_for, played, IsPlayed};

use crate::lists::add;
use lucy_clock::NodeClock;
use lucy_core::Core;
use lucy_host::{Host, Inputs};
use lucy_place::Placed;
use lucy_runner::Runner;
use lucy_worker::Gate;
use std::alloc::{AllocError, Global};
use std::thread::Threads;

/// What the output streams of a program have past the horizon before, from a finished runner of its flat net, in whatever order its
/// events were done: a list for each result of main, in order.
pub(crate) fn outputs(
    alloc: Global,
    placed: &Placed,
    clocks: &[NodeClock],
    runner: &Runner,
) -> Result<Inputs, AllocError>
    requires flat { IsFlat placed.now.nodes clocks.now runner.now.seen.net }
    requires over { IsOver runner.now.seen }
    ensures { IfOk result (λ lists. lists ≡ later_streams (kinds_of runner.now.seen.operators) runner.now.seen.inputs placed.now.nodes clocks.now runner.now.before runner.now.seen.instants) }
{
    let results = placed.node(placed.nodes() - 1).results.list().len();
    let mut lists = Inputs::new(alloc);
    'each: for i in 0..results {
        add(alloc, &mut lists, i as u32, runner.output(i as u32))?;
    }
    Ok(lists)
}

/// The homes of so many actors: that of actor `a` is worker `a mod workers`.
pub fn homes_of(alloc: Global, actors: usize, workers: u32) -> Result<Vec<u32>, AllocError>
    requires { 1 ≤ workers }
    ensures count { IfOk result (λ homes. length homes.items ≡ actors) }
    ensures home { IfOk result (λ homes. homes.items ≡ homes_for actors workers) }
    ensures each { IfOk result (λ homes. All (λ home. home < workers) homes.items) }
{
    let mut homes = Vec::new(alloc);
    for actor in 0..actors {
        homes.push((actor % workers as usize) as u32)?;
    }
    Ok(homes)
}

/// A finished runner, by so many workers, of a core of a program's flat net without an event so far.
pub(crate) fn run_core<R: Threads + Sync, F: Fn(u32, i64, i64) -> i64 + Sync, G: Gate + Sync>(
    rt: &R,
    alloc: Global,
    placed: &Placed,
    clocks: &[NodeClock],
    core: Core,
    host: &Host<F>,
    gate: &G,
    workers: u32,
    homes: &[u32],
) -> Result<Runner, AllocError>
    requires flat { IsFlat placed.now.nodes clocks.now core.net }
    requires serves { Serves F.pre F.post host.now }
    requires kinds { kinds_of (lent host.now) ≡ kinds_of core.operators }
    requires unbegun { IsUnbegun core }
    requires workers { (1 ≤ workers) × (workers ≤ most_workers) }
    requires homes { length homes.now ≡ length core.net.actors }
    requires each { All (λ home. home < workers) homes.now }
    requires inputs { inputs_for core.net core.inputs ≡ core.inputs }
    requires params { params_in (main_of placed.now.nodes) ≡ length core.inputs }
    ensures played { IfOk result (λ runner. IsPlayed placed.now.nodes clocks.now runner) }
    ensures is { IfOk result (λ runner. played placed.now.nodes clocks.now runner
        ≡ record { nodes = placed.now.nodes; clocks = clocks.now; kinds = kinds_of core.operators; inputs = core.inputs; instants = core.instants; before = 0; crew = crew_by workers homes.now }) }
{
    let mut runner = Runner::new(alloc, core, workers, homes)?;
    runner.go(rt, host, gate);
    Ok(runner)
}
