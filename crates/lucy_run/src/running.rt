// The command `run` on an accepted program.
ghost use Rattle.std.specs.Prelude.{◌≡◌, ◌≢◌, ◌≤◌, ℕ, List, [], None, IfOk, IfErr, OnOk};
ghost use Rattle.lucy_host.specs.Host.{Serves, lent};
ghost use Rattle.lucy_host.specs.Operators.{Operator, kinds_of};
ghost use Rattle.lucy_lines.specs.Fronts.{most_bytes};
ghost use Rattle.lucy_text.specs.Outside.{SeenSink, Writes};
ghost use Rattle.lucy_text.specs.Sources.{ReadStop, Read};
ghost use Rattle.lucy_program.specs.declared.accepted.Accepted.{Accepted};
ghost use Rattle.lucy_run.specs.declared.pace.Pace.{Pace};
ghost use Rattle.lucy_run.specs.Owes as owes;
ghost use Rattle.lucy_run.specs.Paces.{IsPace};
ghost use Rattle.lucy_run.specs.Played.{AreBlocksWritten, Plays};
ghost use Rattle.lucy_run.specs.Ends.{EndsRun};
ghost use Rattle.lucy_run.specs.Calls.{WasAccepted};
ghost use Rattle.lucy_run.specs.Steps.{LeavesUnwritten};
ghost use Rattle.lucy_run.specs.Begun.{IsRunBegun};

use crate::course::Course;
use crate::ending::Ending;
use crate::laws::lines_go_on;
use crate::pace::Pace;
use lucy_host::Host;
use lucy_lines::{
    OutputError, OutputSpec, OutputWriter, cut_in_pieces, instant_by_instant, one_cut, some_cut,
    values_in_turn,
};
use lucy_program::{Accepted, accepted_programs_are_clocked, report};
use lucy_text::{Sink, Source, write_all};
use lucy_worker::Gate;
use std::alloc::{AllocError, Global};
use std::thread::Threads;

// The report and the line `run`.
fn heading(alloc: Global, accepted: &Accepted) -> Result<Vec<u8>, AllocError>
    requires { (ops : List Operator) × WasAccepted ops accepted.now }
    ensures { IfOk result (λ v. v.items ≡ owes.heading accepted.now) }
{
    let mut text = report(alloc, accepted)?;
    text.extend_from_slice(b"run\n")?;
    Ok(text)
}

/// Writes the report and the line `run`. Where that fails, the run ends so.
pub(crate) fn write_heading<O: Sink>(
    alloc: Global,
    accepted: &Accepted,
    out: &mut O,
) -> Result<(), Ending>
    requires { (ops : List Operator) × WasAccepted ops accepted.now }
    ensures ok { OnOk result (Writes (O.seen out.old) (O.seen out.new) (owes.heading accepted.now)) }
    ensures err { IfErr result (LeavesUnwritten (owes.heading accepted.now) (O.seen out.old) (O.seen out.new)) }
    ensures count { (O.seen out.old).faults ≤ (O.seen out.new).faults }
{
    let text = match heading(alloc, accepted) {
        Ok(text) => text,
        Err(_) => return Err(Ending::OutOfMemory),
    };
    match write_all(out, &text) {
        Ok(()) => Ok(()),
        Err(_) => Err(Ending::WriteFault),
    }
}

// Runs a course to its last block, and writes the lines of each.
fn play<R: Threads + Sync, F: Fn(u32, i64, i64) -> i64 + Sync, G: Gate + Sync, I: Source, O: Sink>(
    rt: &R,
    alloc: Global,
    host: &Host<F>,
    gate: &G,
    course: &mut Course<'_>,
    writer: &mut OutputWriter<'_>,
    source: &mut I,
    out: &mut O,
) -> Result<(), OutputError>
    requires serves { Serves F.pre F.post host.now }
    requires kinds { kinds_of (lent host.now) ≡ course.old.player.kinds }
    requires written { AreBlocksWritten (I.seen source.old) (O.seen out.old) course.old writer.old }
    ensures plays { Plays (I.seen source.old) (I.seen source.new) (O.seen out.old) (O.seen out.new) course.old course.new writer.old writer.new result }
    ensures given { course.new.given ≡ course.old.given }
    ensures unread { course.old.words ≡ [] → source.new ≡ source.old }
    ensures source_count { (I.seen source.old).faults ≤ (I.seen source.new).faults }
    ensures out_count { (O.seen out.old).faults ≤ (O.seen out.new).faults }
{
    lines_go_on();
    values_in_turn();
    one_cut();
    some_cut();
    cut_in_pieces();
    'blocks: while course.goes_on() {
        let streams = course.next_block(rt, alloc, host, gate, source)?;
        writer.write(&streams, course.horizon(), out)?;
    }
    Ok(())
}

// Plays a course before its first instant, of an accepted program whose heading was written, to its end.
fn play_course<
    R: Threads + Sync,
    F: Fn(u32, i64, i64) -> i64 + Sync,
    G: Gate + Sync,
    I: Source,
    O: Sink,
>(
    rt: &R,
    alloc: Global,
    host: &Host<F>,
    gate: &G,
    course: &mut Course<'_>,
    outputs: &[OutputSpec],
    source: &mut I,
    out: &mut O,
) -> Ending
    requires serves { Serves F.pre F.post host.now }
    requires begun { (a : Accepted) × (pace : Pace) × IsRunBegun (lent host.now) a pace outputs.now course.old }
    ensures ends { (a : Accepted) (pace : Pace) (was : SeenSink) → IsRunBegun (lent host.now) a pace outputs.now course.old →
        Writes was (O.seen out.old) (owes.heading a) →
        (taken : List ℕ) × (stop : ReadStop) × Read most_bytes (I.seen source.old) (I.seen source.new) taken stop
        × EndsRun (kinds_of (lent host.now)) a pace.instants pace.block taken stop was (O.seen out.new) result }
    ensures unread { (a : Accepted) (pace : Pace) → IsRunBegun (lent host.now) a pace outputs.now course.old → a.inputs.items ≡ [] →
        source.new ≡ source.old }
    ensures source_count { (I.seen source.old).faults ≤ (I.seen source.new).faults }
    ensures out_count { (O.seen out.old).faults ≤ (O.seen out.new).faults }
{
    lines_go_on();
    instant_by_instant();
    let mut writer = match OutputWriter::new(alloc, outputs) {
        Ok(writer) => writer,
        Err(_) => return Ending::OutOfMemory,
    };
    match play(rt, alloc, host, gate, course, &mut writer, source, out) {
        Ok(()) => course.end(source),
        Err(OutputError::Failed) => Ending::WriteFault,
        Err(OutputError::OutOfMemory) => Ending::OutOfMemory,
    }
}

/// Runs an accepted program at a pace: its report and the line `run` are written, and then the lines of its results up to the horizon,
/// at most as many instants as are given, or 1,048,576 where none are. It goes by blocks of as many instants
/// as the pace says: lines of the input are read until there are the items that the block needs, and then the block is run, and its
/// lines are written. Blocks in which no output has an item are run with the next one, as far as all together have no more than
/// 4,096 instants. Behind the last block the input is read on to its end or its first fault. A main without inputs reads nothing, and runs so many instants. No
/// byte of the output depends on the block.
///
/// After a failed write nothing more is written and nothing more is read: where that is a write of the report or of the line
/// `run`, nothing was, and else no more than the block of the line needs.
pub fn run<
    R: Threads + Sync,
    F: Fn(u32, i64, i64) -> i64 + Sync,
    G: Gate + Sync,
    I: Source,
    O: Sink,
>(
    rt: &R,
    alloc: Global,
    accepted: Accepted,
    host: &Host<F>,
    gate: &G,
    pace: Pace,
    source: &mut I,
    out: &mut O,
) -> Ending
    requires serves { Serves F.pre F.post host.now }
    requires accepted { WasAccepted (lent host.now) accepted }
    requires pace { IsPace pace }
    requires given { accepted.inputs.items ≡ [] → pace.instants ≢ None }
    ensures ends { (taken : List ℕ) × (stop : ReadStop) × Read most_bytes (I.seen source.old) (I.seen source.new) taken stop
        × EndsRun (kinds_of (lent host.now)) accepted pace.instants pace.block taken stop (O.seen out.old) (O.seen out.new) result }
    ensures unread { accepted.inputs.items ≡ [] → source.new ≡ source.old }
    ensures source_count { (I.seen source.old).faults ≤ (I.seen source.new).faults }
    ensures out_count { (O.seen out.old).faults ≤ (O.seen out.new).faults }
{
    match write_heading(alloc, &accepted, out) {
        Ok(()) => (),
        Err(ending) => {
            drop(accepted);
            return ending;
        }
    }
    let Accepted {
        placed,
        typed,
        clocks,
        net,
        schedule,
        inputs,
        outputs,
    } = accepted;
    drop(typed);
    accepted_programs_are_clocked();
    // All ways meet here, so that the proof counts once what is let go; and a call of `drop` is one step, where the end of a scope is one
    // for each list.
    let ending = match Course::new(
        rt, alloc, &placed, &clocks, net, schedule, inputs, &outputs, host, gate, pace,
    ) {
        Ok(mut course) => {
            let ending = play_course(rt, alloc, host, gate, &mut course, &outputs, source, out);
            drop(course);
            ending
        }
        Err(_) => Ending::OutOfMemory,
    };
    drop(placed);
    drop(clocks);
    drop(outputs);
    ending
}
