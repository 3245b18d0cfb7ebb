// The command `kahn` on an accepted program.
ghost use Rattle.std.specs.Prelude.{◌≡◌, ◌≢◌, ◌≤◌, ℕ, [], None, length};
ghost use Rattle.lucy_host.specs.Host.{Serves, lent};
ghost use Rattle.lucy_host.specs.Operators.{kinds_of};
ghost use Rattle.lucy_place.specs.Proper.{HaveOperators};
ghost use Rattle.lucy_kahn.specs.Spots.{main_of, results_in};
ghost use Rattle.lucy_kahn.specs.Turns.{params_in};
ghost use Rattle.lucy_flat.specs.Clocked.{AreClocked};
ghost use Rattle.lucy_results.specs.Streams.{param_words};
ghost use Rattle.lucy_results.specs.Running.{HasSchedule};
ghost use Rattle.lucy_run.specs.Paces.{AreInstants};
ghost use Rattle.lucy_run.specs.Owes.{IsHorizonOf, Interprets, OwesKahn};
ghost use Rattle.lucy_run.specs.Ends.{EndsOwed};
ghost use Rattle.lucy_run.specs.Calls.{WasAccepted, ReadsAndEnds};
ghost use Rattle.lucy_run.specs.Steps.{refusal_ending, LeavesOwed};

use crate::ending::Ending;
use crate::extent::extent_of;
use crate::feeding::main_feed;
use lucy_clock::NodeClock;
use lucy_host::Host;
use lucy_kahn::KahnError;
use lucy_lines::{Feed, OutputError, OutputSpec, write_outputs};
use lucy_place::Placed;
use lucy_program::{Accepted, accepted_programs_are_clocked};
use lucy_results::{interpret, param_words};
use lucy_text::{Sink, Source};
use std::alloc::Global;

// How the run ends where the interpreter gives no streams.
fn refused(error: KahnError) -> Ending
    ensures { result ≡ refusal_ending error }
{
    match error {
        KahnError::Limit(limit) => Ending::Limit(limit),
        KahnError::OutOfMemory => Ending::OutOfMemory,
    }
}

// Writes the lines of main's results that its feed allows, where these instants are given, by the plain interpreter.
fn write_interpreted<F: Fn(u32, i64, i64) -> i64 + Sync, O: Sink>(
    alloc: Global,
    placed: &Placed,
    clocks: &[NodeClock],
    outputs: &[OutputSpec],
    host: &Host<F>,
    given: Option<u64>,
    feed: Feed,
    out: &mut O,
) -> Ending
    requires clocked { AreClocked placed.now.nodes clocks.now }
    requires scheduled { HasSchedule placed.now.nodes clocks.now }
    requires outputs { length outputs.now ≡ length (results_in (main_of placed.now.nodes)) }
    requires serves { Serves F.pre F.post host.now }
    requires known { HaveOperators (length (lent host.now)) placed.now.nodes }
    requires inputs { params_in (main_of placed.now.nodes) ≡ length feed.items }
    requires few { AreInstants given }
    ensures ends { (horizon : ℕ) × IsHorizonOf (param_words placed.now.nodes clocks.now) given feed.items horizon
        × LeavesOwed (Interprets (kinds_of (lent host.now)) placed.now.nodes clocks.now outputs.now given feed.items feed.stop horizon)
        (O.seen out.old) (O.seen out.new) result }
    ensures count { (O.seen out.old).faults ≤ (O.seen out.new).faults }
{
    let Feed { items, stop } = feed;
    let words = param_words(placed, clocks);
    let extent = match extent_of(alloc, words, given, &items, stop) {
        Ok(extent) => extent,
        Err(_) => return Ending::OutOfMemory,
    };
    let streams = match interpret(alloc, placed, clocks, host, &items, extent.horizon) {
        Ok(streams) => streams,
        Err(error) => return refused(error),
    };
    match write_outputs(alloc, outputs, &streams, extent.horizon, out) {
        Ok(()) => extent.ending,
        Err(OutputError::Failed) => Ending::WriteFault,
        Err(OutputError::OutOfMemory) => Ending::OutOfMemory,
    }
}

/// Runs an accepted program by the plain interpreter: its input is read to its end or its first fault, and then the lines of its
/// results are written up to the horizon, which is that of [`run`](crate::run), and nothing else.
///
/// `Limit(KahnTurns)` comes where the horizon times the number of places with calls written out is more than 1,024, else
/// `Limit(KahnItems)` where a list of the interpreter has more than 65,536 items; both after reading and before any line.
pub fn kahn<F: Fn(u32, i64, i64) -> i64 + Sync, I: Source, O: Sink>(
    alloc: Global,
    accepted: Accepted,
    host: &Host<F>,
    instants: Option<u64>,
    source: &mut I,
    out: &mut O,
) -> Ending
    requires serves { Serves F.pre F.post host.now }
    requires accepted { WasAccepted (lent host.now) accepted }
    requires few { AreInstants instants }
    requires given { accepted.inputs.items ≡ [] → instants ≢ None }
    ensures ends { ReadsAndEnds accepted.inputs.items (I.seen source.old) (I.seen source.new)
        (λ taken stop. EndsOwed (OwesKahn (kinds_of (lent host.now)) accepted instants taken stop) (O.seen out.old) (O.seen out.new) result) }
    ensures unread { accepted.inputs.items ≡ [] → source.new ≡ source.old }
    ensures source_count { (I.seen source.old).faults ≤ (I.seen source.new).faults }
    ensures out_count { (O.seen out.old).faults ≤ (O.seen out.new).faults }
{
    let Accepted {
        placed,
        typed,
        clocks,
        net,
        schedule,
        inputs,
        outputs,
    } = accepted;
    drop(typed);
    drop(net);
    drop(schedule);
    accepted_programs_are_clocked();
    // All ways meet here, so that the proof counts once what is let go.
    let ending = match main_feed(alloc, inputs, source) {
        Ok(feed) => {
            write_interpreted(alloc, &placed, &clocks, &outputs, host, instants, feed, out)
        }
        Err(_) => Ending::OutOfMemory,
    };
    drop(placed);
    drop(clocks);
    drop(outputs);
    ending
}
