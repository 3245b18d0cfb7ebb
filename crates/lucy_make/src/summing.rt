// The run of the generated program.
ghost use Rattle.std.specs.Prelude.{◌≡◌, ◌≢◌, ◌⊎◌, [], IfOk, IfErr};
ghost use Rattle.lucy_host.specs.Host.{Serves, lent};
ghost use Rattle.lucy_host.specs.Operators.{kinds_of};
ghost use Rattle.lucy_run.specs.Paces.{AreWorkers, IsBlock};
ghost use Rattle.lucy_run.specs.Calls.{WasAccepted};
ghost use Rattle.lucy_run.specs.declared.ending.Ending.TheVariants as ending;
ghost use Rattle.lucy_make.specs.Owes.{OwesSummary};
ghost use Rattle.lucy_make.specs.Blocks.{IsBeforeFirst, steady, RunsOut, IsMadeRun, IsDone, IsUndone};
ghost use Rattle.lucy_make.specs.Text.{made_input};

use crate::blocks::tell;
use crate::figures::{Tally, counts_of, print};
use crate::input::made_source;
use crate::laws::first_goes_on;
use lucy_host::Host;
use lucy_lines::cut_in_pieces;
use lucy_program::{Accepted, accepted_programs_are_clocked};
use lucy_run::{Course, Ending, Pace};
use lucy_worker::Gate;
use std::alloc::Global;
use std::thread::Threads;

/// How many instants a run had, and the tally of main's first result.
#[derive(Clone, Copy)]
pub(crate) struct Told {
    pub instants: u64,
    pub tally: Tally,
}

// Runs a course on the generated input from its first block to its end. Where it ends early the course is let go by a call, which is one
// step of the proof, where the end of a scope is one for each of its lists.
fn run_out<R: Threads + Sync, F: Fn(u32, i64, i64) -> i64 + Sync, G: Gate + Sync>(
    rt: &R,
    alloc: Global,
    host: &Host<F>,
    gate: &G,
    mut course: Course<'_>,
) -> Result<Told, Ending>
    requires serves { Serves F.pre F.post host.now }
    requires first { IsBeforeFirst (kinds_of (lent host.now)) (steady made_input) course }
    requires words { course.words ≢ [] }
    ensures ok { IfOk result (IsDone (RunsOut course.entry)) }
    ensures err { IfErr result (IsUndone (RunsOut course.entry)) }
{
    let mut source = match made_source(alloc) {
        Ok(source) => source,
        Err(_) => {
            drop(course);
            return Err(Ending::OutOfMemory);
        }
    };
    let tally = match tell(rt, alloc, host, gate, &mut course, &mut source) {
        Ok(tally) => tally,
        Err(_) => {
            drop(course);
            return Err(Ending::OutOfMemory);
        }
    };
    let instants = course.horizon();
    match course.finish(&mut source) {
        Ending::Done => Ok(Told { instants, tally }),
        end => Err(end),
    }
}

// Runs an accepted program on the generated input, by so many workers and in blocks of so many instants.
fn run_made<R: Threads + Sync, F: Fn(u32, i64, i64) -> i64 + Sync, G: Gate + Sync>(
    rt: &R,
    alloc: Global,
    accepted: Accepted,
    host: &Host<F>,
    gate: &G,
    workers: u32,
    block: u64,
) -> Result<Told, Ending>
    requires serves { Serves F.pre F.post host.now }
    requires accepted { WasAccepted (lent host.now) accepted }
    requires inputs { accepted.inputs.items ≢ [] }
    requires workers { AreWorkers workers }
    requires block { IsBlock block }
    ensures ok { IfOk result (IsDone (IsMadeRun (kinds_of (lent host.now)) accepted)) }
    ensures err { IfErr result (IsUndone (IsMadeRun (kinds_of (lent host.now)) accepted)) }
{
    let Accepted {
        placed,
        clocks,
        net,
        schedule,
        inputs,
        outputs,
        ..
    } = accepted;
    accepted_programs_are_clocked();
    cut_in_pieces();
    first_goes_on();
    let pace = Pace {
        instants: None,
        workers,
        block,
    };
    // All ways meet here, so that the proof counts once what is let go.
    let told = match Course::new(
        rt, alloc, &placed, &clocks, net, schedule, inputs, &outputs, host, gate, pace,
    ) {
        Ok(course) => run_out(rt, alloc, host, gate, course),
        Err(_) => Err(Ending::OutOfMemory),
    };
    told
}

/// The figures of the run of an accepted program of so many stages on the generated input, in seven lines, by 1 to 64 workers and
/// in blocks of so many instants, on which no byte depends. Where that run isn't done, how it ends: for a fault of its input, or past
/// the limit of instants; and that memory ran out where it did.
/// Main has inputs.
pub fn summary<R: Threads + Sync, F: Fn(u32, i64, i64) -> i64 + Sync, G: Gate + Sync>(
    rt: &R,
    alloc: Global,
    stages: u64,
    accepted: Accepted,
    host: &Host<F>,
    gate: &G,
    workers: u32,
    block: u64,
) -> Result<Vec<u8>, Ending>
    requires serves { Serves F.pre F.post host.now }
    requires accepted { WasAccepted (lent host.now) accepted }
    requires inputs { accepted.inputs.items ≢ [] }
    requires workers { AreWorkers workers }
    requires block { IsBlock block }
    ensures ok { IfOk result (λ v. OwesSummary stages (kinds_of (lent host.now)) accepted v.items ending.Done) }
    ensures err { IfErr result (λ end. (end ≡ ending.OutOfMemory) ⊎ ((end ≢ ending.Done) × OwesSummary stages (kinds_of (lent host.now)) accepted [] end)) }
{
    let counts = counts_of(&accepted.net);
    match run_made(rt, alloc, accepted, host, gate, workers, block) {
        Ok(told) => Ok(print(alloc, stages, counts, told.instants, told.tally)?),
        Err(end) => Err(end),
    }
}
