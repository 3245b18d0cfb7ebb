// The command `trace` on an accepted program.
ghost use Rattle.std.specs.Prelude.{◌≡◌, ◌≢◌, ◌≤◌, ◌<◌, ◌-◌, ◌^◌, ℕ, ℤ, [], None, length, IfOk};
ghost use Rattle.lucy_host.specs.Host.{Serves, lent};
ghost use Rattle.lucy_host.specs.Operators.{kinds_of};
ghost use Rattle.lucy_place.specs.Proper.{HaveOperators};
ghost use Rattle.lucy_kahn.specs.Spots.{main_of};
ghost use Rattle.lucy_kahn.specs.Turns.{params_in};
ghost use Rattle.lucy_net.specs.Orders.{IsSound};
ghost use Rattle.lucy_net.specs.Schedules.{Timetable, events_at};
ghost use Rattle.lucy_core.specs.Seen.{CanMakeCore, IsUnbegun, first_seen};
ghost use Rattle.lucy_runner.specs.Views.{first_runner};
ghost use Rattle.lucy_trace.specs.Traces.{IsTraceText};
ghost use Rattle.lucy_trace.specs.Together.{AreTogether};
ghost use Rattle.lucy_flat.specs.Clocked.{AreClocked};
ghost use Rattle.lucy_flat.specs.Flat.{IsFlat};
ghost use Rattle.lucy_results.specs.Streams.{param_words};
ghost use Rattle.lucy_results.specs.Playing.{crew_for};
ghost use Rattle.lucy_run.specs.Paces.{AreInstants, AreWorkers};
ghost use Rattle.lucy_run.specs.Owes.{IsHorizonOf, EndsFor};
ghost use Rattle.lucy_run.specs.Ends.{EndsOwed, EndsTrace};
ghost use Rattle.lucy_run.specs.Calls.{WasAccepted, ReadsAndEnds};
ghost use Rattle.lucy_run.specs.Steps.{EndsWhole, OwesTraceOf};

use crate::copying::copy_net;
use crate::ending::Ending;
use crate::extent::{Extent, extent_of};
use crate::feeding::main_feed;
use lucy_clock::NodeClock;
use lucy_core::Core;
use lucy_host::{Host, Inputs, Ops};
use lucy_lines::{Feed, OutputError};
use lucy_net::{Net, Schedule, schedule_of};
use lucy_place::Placed;
use lucy_program::{Accepted, accepted_programs_are_clocked};
use lucy_results::{copy_lists, homes_of, nets_can_be_run, param_words};
use lucy_runner::Runner;
use lucy_text::{Sink, Source};
use std::alloc::{AllocError, Global};

// A core of a net without an event so far, in memory of its own, on these inputs, of which there are so many. Its schedule is found anew.
fn second_core(
    alloc: Global,
    net: &Net,
    inputs: &Inputs,
    count: usize,
    ops: &Ops,
    instants: u64,
) -> Result<Core, AllocError>
    requires fixed { (schedule : Timetable) × CanMakeCore net.now schedule inputs.now ops.now instants }
    requires count { length inputs.now ≡ count }
    requires few { count < 2 ^ 32 - 1 }
    ensures { IfOk result (λ core. (schedule : Timetable) × (core ≡ first_seen net.now schedule inputs.now ops.now instants)) }
{
    let lists = copy_lists(alloc, inputs, count)?;
    let copy = copy_net(alloc, net)?;
    // A net that has a schedule is refused for want of memory alone.
    let schedule = match schedule_of(alloc, &copy) {
        Ok(schedule) => schedule,
        Err(_) => return Err(AllocError),
    };
    Core::new(alloc, copy, schedule, lists, ops, instants)
}

// A runner of a net without an event so far, by so many workers.
fn new_runner(
    alloc: Global,
    net: Net,
    schedule: Schedule,
    inputs: Inputs,
    ops: &Ops,
    instants: u64,
    workers: u32,
) -> Result<Runner, AllocError>
    requires fixed { CanMakeCore net schedule inputs ops.now instants }
    requires workers { AreWorkers workers }
    ensures first { IfOk result (λ runner. runner ≡ first_runner (first_seen net schedule inputs ops.now instants) runner.crew) }
    ensures crew { IfOk result (λ runner. runner.crew ≡ crew_for net workers) }
{
    let homes = homes_of(alloc, net.actors.list().len(), workers)?;
    let core = Core::new(alloc, net, schedule, inputs, ops, instants)?;
    Runner::new(alloc, core, workers, &homes)
}

// Runs a runner to its end, beside a core, and writes its trace. The run then ends so.
fn trace_pair<F: Fn(u32, i64, i64) -> i64 + Sync, O: Sink>(
    alloc: Global,
    runner: &mut Runner,
    core: &mut Core,
    host: &Host<F>,
    ending: Ending,
    out: &mut O,
) -> Ending
    requires serves { Serves F.pre F.post host.now }
    requires kinds { kinds_of (lent host.now) ≡ kinds_of core.old.operators }
    requires runner_kinds { kinds_of (lent host.now) ≡ kinds_of runner.old.seen.operators }
    requires unbegun { IsUnbegun core.old }
    requires together { AreTogether core.old runner.old.seen }
    requires whole { EndsWhole ending }
    ensures left { EndsOwed (OwesTraceOf core.old.net core.old.instants ending) (O.seen out.old) (O.seen out.new) result }
    ensures count { (O.seen out.old).faults ≤ (O.seen out.new).faults }
{
    match lucy_trace::trace(alloc, runner, core, host, out) {
        Ok(()) => ending,
        Err(OutputError::Failed) => Ending::WriteFault,
        Err(OutputError::OutOfMemory) => Ending::OutOfMemory,
    }
}

// Runs a net to a horizon, by so many workers, and writes its trace. All memory but that of a round is taken before the first write.
fn trace_net<F: Fn(u32, i64, i64) -> i64 + Sync, O: Sink>(
    alloc: Global,
    net: Net,
    schedule: Schedule,
    inputs: Inputs,
    count: usize,
    host: &Host<F>,
    workers: u32,
    extent: Extent,
    out: &mut O,
) -> Ending
    requires serves { Serves F.pre F.post host.now }
    requires fixed { CanMakeCore net schedule inputs (lent host.now) extent.horizon }
    requires count { length inputs ≡ count }
    requires few { count < 2 ^ 32 - 1 }
    requires workers { AreWorkers workers }
    requires whole { EndsWhole extent.ending }
    ensures left { EndsOwed (OwesTraceOf net extent.horizon extent.ending) (O.seen out.old) (O.seen out.new) result }
    ensures count { (O.seen out.old).faults ≤ (O.seen out.new).faults }
{
    let Extent { horizon, ending } = extent;
    let mut core = match second_core(alloc, &net, &inputs, count, host.ops(), horizon) {
        Ok(core) => core,
        Err(_) => {
            drop(net);
            drop(schedule);
            drop(inputs);
            return Ending::OutOfMemory;
        }
    };
    // All ways meet here, and `drop` is one step of the proof, where the end of a scope is one for each list.
    let ending = match new_runner(alloc, net, schedule, inputs, host.ops(), horizon, workers) {
        Ok(mut runner) => {
            let ending = trace_pair(alloc, &mut runner, &mut core, host, ending, out);
            drop(runner);
            ending
        }
        Err(_) => Ending::OutOfMemory,
    };
    drop(core);
    ending
}

// Runs a program's net on what main is fed, and writes its trace.
fn trace_feed<F: Fn(u32, i64, i64) -> i64 + Sync, O: Sink>(
    alloc: Global,
    placed: &Placed,
    clocks: &[NodeClock],
    net: Net,
    schedule: Schedule,
    host: &Host<F>,
    given: Option<u64>,
    workers: u32,
    feed: Feed,
    out: &mut O,
) -> Ending
    requires clocked { AreClocked placed.now.nodes clocks.now }
    requires flat { IsFlat placed.now.nodes clocks.now net }
    requires sound { IsSound net (events_at schedule) }
    requires serves { Serves F.pre F.post host.now }
    requires known { HaveOperators (length (lent host.now)) placed.now.nodes }
    requires inputs { params_in (main_of placed.now.nodes) ≡ length feed.items }
    requires few { AreInstants given }
    requires workers { AreWorkers workers }
    ensures left { (horizon : ℕ) × IsHorizonOf (param_words placed.now.nodes clocks.now) given feed.items horizon
        × EndsOwed (λ output way. IsTraceText net horizon output
        × EndsFor (param_words placed.now.nodes clocks.now) given feed.items feed.stop way)
        (O.seen out.old) (O.seen out.new) result }
    ensures count { (O.seen out.old).faults ≤ (O.seen out.new).faults }
{
    // For the proof: this call tells that the nodes are proper.
    let _ = placed.nodes();
    nets_can_be_run();
    let Feed { items, stop } = feed;
    let words = param_words(placed, clocks);
    match extent_of(alloc, words, given, &items, stop) {
        Ok(extent) => trace_net(
            alloc,
            net,
            schedule,
            items,
            words.len(),
            host,
            workers,
            extent,
            out,
        ),
        Err(_) => Ending::OutOfMemory,
    }
}

/// Traces an accepted program: its input is read to its end or its first fault, and then its net is run in one piece, by 1 to 64 workers,
/// over the instants up to the horizon, which is that of [`run`](crate::run). In place of a report and of lines of results a line is
/// written behind each round: the actors, which count from 0, of events that lead from where the run stood before the round to where it
/// stands after it, in an order that is possible. All lines are a run of all events of the net. A main without inputs reads nothing, and
/// runs so many instants as are given.
///
/// After a failed write nothing more is written. Where a write fails or memory runs out, a front of such lines was written.
pub fn trace<F: Fn(u32, i64, i64) -> i64 + Sync, I: Source, O: Sink>(
    alloc: Global,
    accepted: Accepted,
    host: &Host<F>,
    instants: Option<u64>,
    workers: u32,
    source: &mut I,
    out: &mut O,
) -> Ending
    requires serves { Serves F.pre F.post host.now }
    requires accepted { WasAccepted (lent host.now) accepted }
    requires few { AreInstants instants }
    requires workers { AreWorkers workers }
    requires given { accepted.inputs.items ≡ [] → instants ≢ None }
    ensures ends { ReadsAndEnds accepted.inputs.items (I.seen source.old) (I.seen source.new)
        (λ taken stop. EndsTrace accepted instants taken stop
        (O.seen out.old) (O.seen out.new) result) }
    ensures unread { accepted.inputs.items ≡ [] → source.new ≡ source.old }
    ensures source_count { (I.seen source.old).faults ≤ (I.seen source.new).faults }
    ensures out_count { (O.seen out.old).faults ≤ (O.seen out.new).faults }
{
    let Accepted {
        placed,
        typed,
        clocks,
        net,
        schedule,
        inputs,
        outputs,
    } = accepted;
    drop(typed);
    drop(outputs);
    accepted_programs_are_clocked();
    // All ways meet here, so that the proof counts once what is let go.
    let ending = match main_feed(alloc, inputs, source) {
        Ok(feed) => trace_feed(
            alloc, &placed, &clocks, net, schedule, host, instants, workers, feed, out,
        ),
        Err(_) => Ending::OutOfMemory,
    };
    drop(placed);
    drop(clocks);
    ending
}
