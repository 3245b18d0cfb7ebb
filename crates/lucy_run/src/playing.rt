// The command `run` on an accepted program, by an engine that is handed in.
ghost use Rattle.std.specs.Prelude.{◌≡◌, ◌≢◌, ◌≤◌, [], None, length, IfOk, OnOk};
ghost use Rattle.lucy_host.specs.Host.{lent};
ghost use Rattle.lucy_host.specs.Operators.{kinds_of};
ghost use Rattle.lucy_kahn.specs.Spots.{main_of};
ghost use Rattle.lucy_kahn.specs.Turns.{params_in};
ghost use Rattle.lucy_lines.specs.Outputs.{output_text};
ghost use Rattle.lucy_run.specs.Paces.{AreInstants, AreWorkers};
ghost use Rattle.lucy_run.specs.Calls.{WasAccepted, ReadsAndEnds};
ghost use Rattle.lucy_run.specs.Engines.{AsksUnless, EndsRunBy};
ghost use Rattle.lucy_run.specs.Steps.{HasPlayed, AsksToPlay, LeavesWritten};

use crate::ending::Ending;
use crate::engine::Engine;
use crate::extent::extent_of;
use crate::feeding::main_feed;
use crate::running::write_heading;
use lucy_host::{Host, Inputs};
use lucy_lines::{Feed, InputSpec, OutputError, OutputSpec, write_outputs};
use lucy_program::{Accepted, accepted_programs_are_clocked};
use lucy_results::param_words;
use lucy_text::{Sink, Source, Text};
use std::alloc::{AllocError, Global};

/// What an engine has played: the streams of main's results up to a horizon, and how the run ends once their lines are written.
#[derive(Drop)]
pub(crate) struct Played {
    pub streams: Inputs,
    pub horizon: u64,
    pub ending: Ending,
}

// A copy of an input.
fn copied(alloc: Global, input: &InputSpec) -> Result<InputSpec, AllocError>
    ensures { IfOk result (λ copy. copy ≡ input.now) }
{
    let name = Text::new(alloc, input.name.bytes())?;
    Ok(InputSpec {
        name,
        holds: input.holds,
    })
}

// A copy of the inputs.
fn copies(alloc: Global, inputs: &[InputSpec]) -> Result<Vec<InputSpec>, AllocError>
    ensures { IfOk result (λ copies. copies.items ≡ inputs.now) }
{
    let mut copies = Vec::new(alloc);
    for input in inputs {
        copies.push(copied(alloc, input)?)?;
    }
    Ok(copies)
}

// Has the engine play the program on what main is fed, up to the horizon that its items allow, where these instants are given.
fn play_by<N: Engine<F>, F>(
    alloc: Global,
    accepted: &Accepted,
    host: &Host<F>,
    given: Option<u64>,
    workers: u32,
    engine: &mut N,
    feed: Feed,
) -> Result<Played, AllocError>
    requires plays { N.plays engine.old host.now }
    requires accepted { WasAccepted (lent host.now) accepted.now }
    requires inputs { params_in (main_of accepted.now.placed.nodes) ≡ length feed.items }
    requires few { AreInstants given }
    requires workers { AreWorkers workers }
    ensures played { IfOk result (λ played. HasPlayed (kinds_of (lent host.now)) accepted.now given feed.items feed.stop played) }
    ensures asks { AsksUnless (OnOk result ⊥) (AsksToPlay accepted.now given feed.items workers) (N.asked engine.old) (N.asked engine.new) }
{
    accepted_programs_are_clocked();
    let Feed { items, stop } = feed;
    let words = param_words(&accepted.placed, &accepted.clocks);
    let extent = extent_of(alloc, words, given, &items, stop)?;
    let streams = engine.play(alloc, accepted, host, items, extent.horizon, workers)?;
    Ok(Played {
        streams,
        horizon: extent.horizon,
        ending: extent.ending,
    })
}

// Writes the lines of what was played.
fn write_played<O: Sink>(
    alloc: Global,
    outputs: &[OutputSpec],
    played: Played,
    out: &mut O,
) -> Ending
    requires { length outputs.now ≤ length played.streams }
    ensures written { LeavesWritten (output_text outputs.now played.streams played.horizon) played.ending
        (O.seen out.old) (O.seen out.new) result }
    ensures count { (O.seen out.old).faults ≤ (O.seen out.new).faults }
{
    let Played {
        streams,
        horizon,
        ending,
    } = played;
    match write_outputs(alloc, outputs, &streams, horizon, out) {
        Ok(()) => ending,
        Err(OutputError::Failed) => Ending::WriteFault,
        Err(OutputError::OutOfMemory) => Ending::OutOfMemory,
    }
}

// Runs an accepted program by an engine, as `run_by` does.
fn play_accepted<N: Engine<F>, F, I: Source, O: Sink>(
    alloc: Global,
    accepted: &Accepted,
    host: &Host<F>,
    instants: Option<u64>,
    workers: u32,
    engine: &mut N,
    source: &mut I,
    out: &mut O,
) -> Ending
    requires plays { N.plays engine.old host.now }
    requires accepted { WasAccepted (lent host.now) accepted.now }
    requires few { AreInstants instants }
    requires workers { AreWorkers workers }
    requires given { accepted.now.inputs.items ≡ [] → instants ≢ None }
    ensures ends { ReadsAndEnds accepted.now.inputs.items (I.seen source.old) (I.seen source.new)
        (λ taken stop. EndsRunBy (kinds_of (lent host.now)) accepted.now instants workers taken stop
        (N.asked engine.old) (N.asked engine.new) (O.seen out.old) (O.seen out.new) result) }
    ensures unread { accepted.now.inputs.items ≡ [] → source.new ≡ source.old }
    ensures source_count { (I.seen source.old).faults ≤ (I.seen source.new).faults }
    ensures out_count { (O.seen out.old).faults ≤ (O.seen out.new).faults }
{
    let inputs = match copies(alloc, &accepted.inputs) {
        Ok(inputs) => inputs,
        Err(_) => return Ending::OutOfMemory,
    };
    match write_heading(alloc, accepted, out) {
        Ok(()) => {}
        Err(ending) => return ending,
    }
    let feed = match main_feed(alloc, inputs, source) {
        Ok(feed) => feed,
        Err(_) => return Ending::OutOfMemory,
    };
    match play_by(alloc, accepted, host, instants, workers, engine, feed) {
        Ok(played) => write_played(alloc, &accepted.outputs, played, out),
        Err(_) => Ending::OutOfMemory,
    }
}

/// Runs an accepted program by an engine, as [`run`](crate::run) does, but in one piece: its report and the line `run` are written,
/// then the input is read to its end or its first fault, then the engine plays the program by so many workers up to the horizon, and
/// then the lines of its results are written. A main without inputs reads nothing. It returns if the engine does.
///
/// After a failed write nothing more is written, and where it was a write of the report or of the line `run`, nothing was read and the
/// engine was asked for nothing. Else it is asked once, for these workers and the horizon of what main is fed, unless memory runs out
/// before that.
pub fn run_by<N: Engine<F>, F, I: Source, O: Sink>(
    alloc: Global,
    accepted: Accepted,
    host: &Host<F>,
    instants: Option<u64>,
    workers: u32,
    engine: &mut N,
    source: &mut I,
    out: &mut O,
) -> Ending
    requires plays { N.plays engine.old host.now }
    requires accepted { WasAccepted (lent host.now) accepted }
    requires few { AreInstants instants }
    requires workers { AreWorkers workers }
    requires given { accepted.inputs.items ≡ [] → instants ≢ None }
    ensures ends { ReadsAndEnds accepted.inputs.items (I.seen source.old) (I.seen source.new)
        (λ taken stop. EndsRunBy (kinds_of (lent host.now)) accepted instants workers taken stop
        (N.asked engine.old) (N.asked engine.new) (O.seen out.old) (O.seen out.new) result) }
    ensures unread { accepted.inputs.items ≡ [] → source.new ≡ source.old }
    ensures source_count { (I.seen source.old).faults ≤ (I.seen source.new).faults }
    ensures out_count { (O.seen out.old).faults ≤ (O.seen out.new).faults }
{
    play_accepted(
        alloc, &accepted, host, instants, workers, engine, source, out,
    )
}
