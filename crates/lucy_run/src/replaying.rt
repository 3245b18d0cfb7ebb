// The command `replay` on an accepted program.
ghost use Rattle.std.specs.Prelude.{◌≡◌, ◌≢◌, ◌≤◌, ℕ, ℤ, List, [], Option, None, length, IfOk};
ghost use Rattle.lucy_word.specs.Bits.{Bits};
ghost use Rattle.lucy_lines.specs.declared.reader.TextFault.{TextFault as Fault};
ghost use Rattle.lucy_host.specs.Host.{Serves, lent};
ghost use Rattle.lucy_host.specs.Operators.{kinds_of};
ghost use Rattle.lucy_place.specs.Proper.{HaveOperators};
ghost use Rattle.lucy_kahn.specs.Spots.{main_of, results_in};
ghost use Rattle.lucy_kahn.specs.Turns.{params_in};
ghost use Rattle.lucy_net.specs.Orders.{IsSound};
ghost use Rattle.lucy_net.specs.Schedules.{events_at};
ghost use Rattle.lucy_core.specs.Seen.{IsUnbegun, first_seen};
ghost use Rattle.lucy_flat.specs.Clocked.{AreClocked};
ghost use Rattle.lucy_flat.specs.Flat.{IsFlat};
ghost use Rattle.lucy_results.specs.Streams.{param_words};
ghost use Rattle.lucy_run.specs.Paces.{AreInstants};
ghost use Rattle.lucy_run.specs.Owes.{IsHorizonOf, EndsFor};
ghost use Rattle.lucy_run.specs.Ends.{EndsReplay};
ghost use Rattle.lucy_run.specs.Calls.{WasAccepted, ReadsAndEnds};
ghost use Rattle.lucy_run.specs.Steps.{EndsWhole, IsPrinted, IsTally, JudgesFrom, LeavesOwed, LeavesJudged};

use crate::ending::Ending;
use crate::extent::extent_of;
use crate::feeding::main_feed;
use crate::laws::replays_go_by_streams;
use lucy_clock::NodeClock;
use lucy_core::Core;
use lucy_host::Host;
use lucy_lines::{Feed, OutputSpec, OutputWriter};
use lucy_net::{Net, Schedule};
use lucy_place::Placed;
use lucy_program::{Accepted, accepted_programs_are_clocked};
use lucy_results::{nets_can_be_run, outputs_so_far, param_words};
use lucy_text::{Sink, Source, write_all};
use lucy_trace::TraceError;
use std::alloc::{AllocError, Global};

// How many events were done, and whether they are all that there are.
fn tally(alloc: Global, core: &Core, count: usize) -> Result<Vec<u8>, AllocError>
    ensures { IfOk result (λ v. IsTally core.now count v.items) }
{
    let text = if core.finished() {
        format!(in alloc; "events {count}\nfinished\n")
    } else {
        format!(in alloc; "events {count}\nunfinished\n")
    };
    Ok(text?.into_bytes())
}

// Writes what a core prints that has done so many events. All memory is taken before the first write.
fn print<O: Sink>(
    alloc: Global,
    placed: &Placed,
    clocks: &[NodeClock],
    outputs: &[OutputSpec],
    core: &Core,
    count: usize,
    horizon: u64,
    ending: Ending,
    out: &mut O,
) -> Ending
    requires flat { IsFlat placed.now.nodes clocks.now core.now.net }
    requires outputs { length outputs.now ≡ length (results_in (main_of placed.now.nodes)) }
    requires horizon { horizon ≡ core.now.instants }
    requires whole { EndsWhole ending }
    ensures left { LeavesOwed (λ output way. IsPrinted core.now placed.now.nodes outputs.now count output × (way ≡ ending)) (O.seen out.old) (O.seen out.new) result }
    ensures count { (O.seen out.old).faults ≤ (O.seen out.new).faults }
{
    let lists = match outputs_so_far(alloc, placed, clocks, core) {
        Ok(lists) => lists,
        Err(_) => return Ending::OutOfMemory,
    };
    let text = match tally(alloc, core, count) {
        Ok(text) => text,
        Err(_) => return Ending::OutOfMemory,
    };
    let mut writer = match OutputWriter::new(alloc, outputs) {
        Ok(writer) => writer,
        Err(_) => return Ending::OutOfMemory,
    };
    let ending = match write_all(out, &text) {
        Ok(()) => match writer.write(&lists, horizon, out) {
            Ok(()) => ending,
            Err(_) => Ending::WriteFault,
        },
        Err(_) => Ending::WriteFault,
    };
    drop(writer);
    ending
}

// Does events on a core without an event so far, and writes what they come to.
fn judge<F: Fn(u32, i64, i64) -> i64 + Sync, O: Sink>(
    alloc: Global,
    placed: &Placed,
    clocks: &[NodeClock],
    outputs: &[OutputSpec],
    core: &mut Core,
    host: &Host<F>,
    picks: &[u32],
    horizon: u64,
    ending: Ending,
    out: &mut O,
) -> Result<Ending, TraceError>
    requires serves { Serves F.pre F.post host.now }
    requires kinds { kinds_of (lent host.now) ≡ kinds_of core.old.operators }
    requires unbegun { IsUnbegun core.old }
    requires flat { IsFlat placed.now.nodes clocks.now core.old.net }
    requires outputs { length outputs.now ≡ length (results_in (main_of placed.now.nodes)) }
    requires horizon { horizon ≡ core.old.instants }
    requires whole { EndsWhole ending }
    ensures left { (words : List Bits) (given : Option ℕ) (lists : List (List ℤ)) (fault : Option Fault) → EndsFor words given lists fault ending →
        LeavesJudged (JudgesFrom core.old placed.now.nodes outputs.now words given lists fault picks.now) (O.seen out.old) (O.seen out.new) result }
    ensures count { (O.seen out.old).faults ≤ (O.seen out.new).faults }
{
    core.is_reached();
    lucy_trace::replay(core, host, picks)?;
    Ok(print(
        alloc,
        placed,
        clocks,
        outputs,
        core,
        picks.len(),
        horizon,
        ending,
        out,
    ))
}

// Judges events over what main is fed, and writes what they come to.
fn replay_feed<F: Fn(u32, i64, i64) -> i64 + Sync, O: Sink>(
    alloc: Global,
    placed: &Placed,
    clocks: &[NodeClock],
    net: Net,
    schedule: Schedule,
    outputs: &[OutputSpec],
    host: &Host<F>,
    given: Option<u64>,
    picks: &[u32],
    feed: Feed,
    out: &mut O,
) -> Result<Ending, TraceError>
    requires clocked { AreClocked placed.now.nodes clocks.now }
    requires flat { IsFlat placed.now.nodes clocks.now net }
    requires sound { IsSound net (events_at schedule) }
    requires outputs { length outputs.now ≡ length (results_in (main_of placed.now.nodes)) }
    requires serves { Serves F.pre F.post host.now }
    requires known { HaveOperators (length (lent host.now)) placed.now.nodes }
    requires inputs { params_in (main_of placed.now.nodes) ≡ length feed.items }
    requires few { AreInstants given }
    ensures left { (horizon : ℕ) × IsHorizonOf (param_words placed.now.nodes clocks.now) given feed.items horizon
        × LeavesJudged (JudgesFrom (first_seen net schedule feed.items (lent host.now) horizon) placed.now.nodes outputs.now
        (param_words placed.now.nodes clocks.now) given feed.items feed.stop picks.now) (O.seen out.old) (O.seen out.new) result }
    ensures count { (O.seen out.old).faults ≤ (O.seen out.new).faults }
{
    // For the proof: this call tells that the nodes are proper.
    let _ = placed.nodes();
    nets_can_be_run();
    let Feed { items, stop } = feed;
    let words = param_words(placed, clocks);
    let extent = match extent_of(alloc, words, given, &items, stop) {
        Ok(extent) => extent,
        Err(_) => return Ok(Ending::OutOfMemory),
    };
    match Core::new(alloc, net, schedule, items, host.ops(), extent.horizon) {
        Ok(mut core) => {
            let ending = judge(
                alloc,
                placed,
                clocks,
                outputs,
                &mut core,
                host,
                picks,
                extent.horizon,
                extent.ending,
                out,
            );
            drop(core);
            ending
        }
        Err(_) => Ok(Ending::OutOfMemory),
    }
}

/// Judges the events of these actors on an accepted program: its input is read to its end or its first fault, and then the events are
/// done in turn, over the instants up to the horizon, which is that of [`run`](crate::run). Where they are a run, their number is
/// written, then `finished` where every actor has done its list and else `unfinished`, and then the lines of the results whose items
/// the outputs took. Else `NotPossible` tells the first event that isn't possible, and nothing is written. No other refusal is answered.
pub fn replay<F: Fn(u32, i64, i64) -> i64 + Sync, I: Source, O: Sink>(
    alloc: Global,
    accepted: Accepted,
    host: &Host<F>,
    instants: Option<u64>,
    picks: &[u32],
    source: &mut I,
    out: &mut O,
) -> Result<Ending, TraceError>
    requires serves { Serves F.pre F.post host.now }
    requires accepted { WasAccepted (lent host.now) accepted }
    requires few { AreInstants instants }
    requires given { accepted.inputs.items ≡ [] → instants ≢ None }
    ensures ends { ReadsAndEnds accepted.inputs.items (I.seen source.old) (I.seen source.new)
        (λ taken stop. EndsReplay (lent host.now) accepted instants picks.now taken stop
        (O.seen out.old) (O.seen out.new) result) }
    ensures unread { accepted.inputs.items ≡ [] → source.new ≡ source.old }
    ensures source_count { (I.seen source.old).faults ≤ (I.seen source.new).faults }
    ensures out_count { (O.seen out.old).faults ≤ (O.seen out.new).faults }
{
    let Accepted {
        placed,
        typed,
        clocks,
        net,
        schedule,
        inputs,
        outputs,
    } = accepted;
    drop(typed);
    accepted_programs_are_clocked();
    replays_go_by_streams();
    // All ways meet here, so that the proof counts once what is let go.
    let ending = match main_feed(alloc, inputs, source) {
        Ok(feed) => replay_feed(
            alloc, &placed, &clocks, net, schedule, &outputs, host, instants, picks, feed, out,
        ),
        Err(_) => Ok(Ending::OutOfMemory),
    };
    drop(placed);
    drop(clocks);
    drop(outputs);
    ending
}
