// The dump of a run of an accepted program.
ghost use Rattle.std.specs.Prelude.{◌≡◌, ◌≢◌, ◌≤◌, ◌<◌, ◌-◌, ℕ, [], None, length, IfOk, IfSome, slice_get};
ghost use Rattle.lucy_word.specs.Limits.{limit_number};
ghost use Rattle.lucy_word.specs.declared.limit.Limit.TheVariants as limit;
ghost use Rattle.lucy_host.specs.Host.{Serves, lent};
ghost use Rattle.lucy_host.specs.Operators.{kinds_of};
ghost use Rattle.lucy_place.specs.Proper.{HaveOperators};
ghost use Rattle.lucy_kahn.specs.Spots.{main_of, results_in};
ghost use Rattle.lucy_kahn.specs.Horizons.{Suffice};
ghost use Rattle.lucy_kahn.specs.Turns.{params_in};
ghost use Rattle.lucy_net.specs.Orders.{IsSound};
ghost use Rattle.lucy_net.specs.Schedules.{events_at};
ghost use Rattle.lucy_flat.specs.Clocked.{AreClocked};
ghost use Rattle.lucy_flat.specs.Flat.{IsFlat};
ghost use Rattle.lucy_flat.specs.Instances.{words_in};
ghost use Rattle.lucy_results.specs.Streams.{param_words, result_words};
ghost use Rattle.lucy_run.specs.Paces.{AreInstants};
ghost use Rattle.lucy_run.specs.Owes.{IsHorizonOf};
ghost use Rattle.lucy_run.specs.Ends.{EndsOwed};
ghost use Rattle.lucy_run.specs.Calls.{WasAccepted, ReadsAndEnds};
ghost use Rattle.lucy_run.specs.Steps.{LeavesOwed};
ghost use Rattle.lucy_wave.specs.Waves.{IsWave, Waves, OwesWave, inner_in};
ghost use Rattle.lucy_wave.specs.Seen.{IsDump};

use crate::dumping::{put_dump, put_notes};
use crate::gathering::{main_words, variables};
use crate::playing::{Played, play};
use lucy_clock::NodeClock;
use lucy_host::{Host, Inputs};
use lucy_lines::{Feed, OutputSpec};
use lucy_net::{Net, Schedule};
use lucy_place::Placed;
use lucy_program::{Accepted, accepted_programs_are_clocked};
use lucy_results::param_words;
use lucy_run::{Ending, extent_of, main_feed};
use lucy_text::{Sink, Source, write_all};
use std::alloc::{AllocError, Global};

// The text of the dump of a run.
fn wave_text(
    alloc: Global,
    placed: &Placed,
    clocks: &[NodeClock],
    outputs: &[OutputSpec],
    played: &Played,
    instants: u64,
) -> Result<Vec<u8>, AllocError>
    requires clocked { AreClocked placed.now.nodes clocks.now }
    requires outputs { length outputs.now ≡ length (results_in (main_of placed.now.nodes)) }
    requires lists { params_in (main_of placed.now.nodes) ≡ length played.now.lists }
    requires streams { length played.now.streams ≡ length (results_in (main_of placed.now.nodes)) }
    requires inside { IfSome played.now.inside (λ lists. length (inner_in (main_of placed.now.nodes)) ≡ length lists) }
    requires early { instants ≤ limit_number limit.Instants }
    ensures { IfOk result (λ v. IsWave placed.now.nodes clocks.now outputs.now played.now.lists played.now.streams played.now.inside instants v.items) }
{
    let main = placed.node(placed.nodes() - 1);
    let words = main_words(placed, clocks);
    let variables = variables(
        alloc,
        main,
        words,
        outputs,
        &played.lists,
        &played.streams,
        &played.inside,
    )?;
    let mut text = Vec::new(alloc);
    put_notes(&played.inside, &mut text)?;
    put_dump(
        alloc,
        main.name.text.bytes(),
        &variables,
        instants,
        &mut text,
    )?;
    Ok(text)
}

// The text of the dump of what main is fed, up to a horizon.
fn dumped<F: Fn(u32, i64, i64) -> i64 + Sync>(
    alloc: Global,
    placed: &Placed,
    clocks: &[NodeClock],
    net: Net,
    schedule: Schedule,
    outputs: &[OutputSpec],
    host: &Host<F>,
    items: Inputs,
    horizon: u64,
) -> Result<Vec<u8>, AllocError>
    requires clocked { AreClocked placed.now.nodes clocks.now }
    requires flat { IsFlat placed.now.nodes clocks.now net }
    requires sound { IsSound net (events_at schedule) }
    requires outputs { length outputs.now ≡ length (results_in (main_of placed.now.nodes)) }
    requires serves { Serves F.pre F.post host.now }
    requires known { HaveOperators (length (lent host.now)) placed.now.nodes }
    requires inputs { params_in (main_of placed.now.nodes) ≡ length items }
    requires suffice { Suffice (param_words placed.now.nodes clocks.now) items horizon }
    requires early { horizon ≤ limit_number limit.Instants }
    ensures { IfOk result (λ v. IsDump (kinds_of (lent host.now)) placed.now.nodes clocks.now net outputs.now items horizon v.items) }
{
    let played = play(alloc, placed, clocks, net, schedule, host, items, horizon)?;
    wave_text(alloc, placed, clocks, outputs, &played, horizon)
}

// Writes the dump of what main is fed, where these instants are given.
fn wave_feed<F: Fn(u32, i64, i64) -> i64 + Sync, O: Sink>(
    alloc: Global,
    placed: &Placed,
    clocks: &[NodeClock],
    net: Net,
    schedule: Schedule,
    outputs: &[OutputSpec],
    host: &Host<F>,
    given: Option<u64>,
    feed: Feed,
    out: &mut O,
) -> Ending
    requires clocked { AreClocked placed.now.nodes clocks.now }
    requires flat { IsFlat placed.now.nodes clocks.now net }
    requires sound { IsSound net (events_at schedule) }
    requires outputs { length outputs.now ≡ length (results_in (main_of placed.now.nodes)) }
    requires serves { Serves F.pre F.post host.now }
    requires known { HaveOperators (length (lent host.now)) placed.now.nodes }
    requires inputs { params_in (main_of placed.now.nodes) ≡ length feed.items }
    requires few { AreInstants given }
    ensures left { (horizon : ℕ) × IsHorizonOf (param_words placed.now.nodes clocks.now) given feed.items horizon
        × LeavesOwed (Waves (kinds_of (lent host.now)) placed.now.nodes clocks.now net outputs.now given feed.items feed.stop horizon)
        (O.seen out.old) (O.seen out.new) result }
    ensures count { (O.seen out.old).faults ≤ (O.seen out.new).faults }
{
    let Feed { items, stop } = feed;
    let words = param_words(placed, clocks);
    let extent = match extent_of(alloc, words, given, &items, stop) {
        Ok(extent) => extent,
        Err(_) => {
            // A call of `drop` is one step of the proof, where the end of a scope is one for each list.
            drop(items);
            drop(schedule);
            drop(net);
            return Ending::OutOfMemory;
        }
    };
    let horizon = extent.horizon;
    let text = match dumped(
        alloc, placed, clocks, net, schedule, outputs, host, items, horizon,
    ) {
        Ok(text) => text,
        Err(_) => return Ending::OutOfMemory,
    };
    let written = write_all(out, &text);
    drop(text);
    match written {
        Ok(()) => extent.ending,
        Err(_) => Ending::WriteFault,
    }
}

/// Writes a run of an accepted program as a value change dump, an instant a step: its input is read to its end or its first fault, and
/// then the dump is written up to the horizon, which is that of [`run`](lucy_run::run), and nothing else. Each stream of main with a
/// name, `s`, has a bit `s$there` that tells whether an item comes, and its last item so far, 0 before the first; and buffer `k`, from 1,
/// as `buffer$k` how many items wait in it. Where the net with an output more for each stream that is neither an input nor a result
/// passes a limit, these streams have their bits alone, and a comment of the dump says so.
///
/// All memory is taken before the first write.
pub fn wave<F: Fn(u32, i64, i64) -> i64 + Sync, I: Source, O: Sink>(
    alloc: Global,
    accepted: Accepted,
    host: &Host<F>,
    instants: Option<u64>,
    source: &mut I,
    out: &mut O,
) -> Ending
    requires serves { Serves F.pre F.post host.now }
    requires accepted { WasAccepted (lent host.now) accepted }
    requires few { AreInstants instants }
    requires given { accepted.inputs.items ≡ [] → instants ≢ None }
    ensures ends { ReadsAndEnds accepted.inputs.items (I.seen source.old) (I.seen source.new)
        (λ taken stop. EndsOwed (OwesWave (kinds_of (lent host.now)) accepted instants taken stop) (O.seen out.old) (O.seen out.new) result) }
    ensures unread { accepted.inputs.items ≡ [] → source.new ≡ source.old }
    ensures source_count { (I.seen source.old).faults ≤ (I.seen source.new).faults }
    ensures out_count { (O.seen out.old).faults ≤ (O.seen out.new).faults }
{
    let Accepted {
        placed,
        clocks,
        net,
        schedule,
        inputs,
        outputs,
        ..
    } = accepted;
    accepted_programs_are_clocked();
    // All ways meet here, so that the proof counts once what is let go.
    let ending = match main_feed(alloc, inputs, source) {
        Ok(feed) => wave_feed(
            alloc, &placed, &clocks, net, schedule, &outputs, host, instants, feed, out,
        ),
        Err(_) => Ending::OutOfMemory,
    };
    ending
}
