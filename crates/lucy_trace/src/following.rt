// A run, traced to its end.
ghost use Rattle.std.specs.Prelude.{ℕ, ◌≡◌, ◌<◌, ◌≤◌, ◌++◌, List, length, OnOk, Err};
ghost use Rattle.lucy_host.specs.Host.{Serves, lent};
ghost use Rattle.lucy_host.specs.Operators.{kinds_of};
ghost use Rattle.lucy_text.specs.Outside.{Writes, Fails};
ghost use Rattle.lucy_core.specs.Seen.{IsOver, IsUnbegun};
ghost use Rattle.lucy_runner.specs.Left.{events_left};
ghost use Rattle.lucy_trace.specs.Traces.{IsTraceText};
ghost use Rattle.lucy_trace.specs.Together.{AreTogether};
ghost use Rattle.lucy_trace.specs.Progress.{IsRoundPrinted, IsRest};

use crate::rounds::{print, round};
use lucy_core::{Core, events_go_by_the_net};
use lucy_host::Host;
use lucy_lines::OutputError;
use lucy_runner::Runner;
use lucy_text::Sink;
use std::alloc::Global;

// A round, and its line.
fn trace_round<F: Fn(u32, i64, i64) -> i64 + Sync, K: Sink>(
    alloc: Global,
    runner: &mut Runner,
    core: &mut Core,
    host: &Host<F>,
    counts: &mut [u64],
    out: &mut K,
) -> Result<(), OutputError>
    requires serves { Serves F.pre F.post host.now }
    requires kinds { kinds_of (lent host.now) ≡ kinds_of core.old.operators }
    requires runner_kinds { kinds_of (lent host.now) ≡ kinds_of runner.old.seen.operators }
    requires together { AreTogether core.old runner.old.seen }
    requires unfinished { IsOver runner.old.seen → ⊥ }
    requires count { length counts.old ≡ length core.old.net.actors }
    ensures printed { OnOk result (IsRoundPrinted core.old core.new (K.seen out.old) (K.seen out.new)) }
    ensures less { OnOk result (events_left core.new < events_left core.old) }
    ensures together { OnOk result (AreTogether core.new runner.new.seen) }
    ensures operators { runner.new.seen.operators ≡ runner.old.seen.operators }
    ensures crew { runner.new.crew ≡ runner.old.crew }
    ensures failed { result ≡ Err OutputError.Failed → (text : List ℕ) × IsRest core.old text × Fails (K.seen out.old) (K.seen out.new) text }
    ensures out_of_memory { result ≡ Err OutputError.OutOfMemory → out.new ≡ out.old }
    ensures faults { (K.seen out.old).faults ≤ (K.seen out.new).faults }
{
    core.runs_go_on();
    let picks = round(alloc, runner, core, host, counts)?;
    core.runs_go_on();
    print(alloc, &picks, out)
}

// Rounds, and their lines, to the end.
fn trace_on<F: Fn(u32, i64, i64) -> i64 + Sync, K: Sink>(
    alloc: Global,
    runner: &mut Runner,
    core: &mut Core,
    host: &Host<F>,
    counts: &mut [u64],
    out: &mut K,
) -> Result<(), OutputError>
    requires serves { Serves F.pre F.post host.now }
    requires kinds { kinds_of (lent host.now) ≡ kinds_of core.old.operators }
    requires runner_kinds { kinds_of (lent host.now) ≡ kinds_of runner.old.seen.operators }
    requires together { AreTogether core.old runner.old.seen }
    requires count { length counts.old ≡ length core.old.net.actors }
    ensures crew { runner.new.crew ≡ runner.old.crew }
    ensures ok { OnOk result ((text : List ℕ) × IsRest core.old text × Writes (K.seen out.old) (K.seen out.new) text) }
    ensures failed { result ≡ Err OutputError.Failed → (text : List ℕ) × IsRest core.old text × Fails (K.seen out.old) (K.seen out.new) text }
    ensures out_of_memory { result ≡ Err OutputError.OutOfMemory →
        (front rest : List ℕ) × IsRest core.old (front ++ rest) × Writes (K.seen out.old) (K.seen out.new) front }
    ensures faults { (K.seen out.old).faults ≤ (K.seen out.new).faults }
{
    events_go_by_the_net();
    core.runs_go_on();
    'rounds: while !runner.finished() {
        core.runs_go_on();
        match trace_round(alloc, runner, core, host, counts, out) {
            Ok(()) => {}
            Err(error) => return Err(error),
        }
    }
    Ok(())
}

/// Runs a runner without an event so far to the end, round by round, and writes the line of each round behind it: events that lead
/// from where the runner stood before the round to where it stands after it. The core, of the same net and horizon, is led behind it.
/// All lines are a trace. Of the run only the round at hand is kept. Each worker keeps its actors.
///
/// After a failed write nothing more is written. Where a write fails or memory runs out, a front of a trace was written.
pub fn trace<F: Fn(u32, i64, i64) -> i64 + Sync, K: Sink>(
    alloc: Global,
    runner: &mut Runner,
    core: &mut Core,
    host: &Host<F>,
    out: &mut K,
) -> Result<(), OutputError>
    requires serves { Serves F.pre F.post host.now }
    requires kinds { kinds_of (lent host.now) ≡ kinds_of core.old.operators }
    requires runner_kinds { kinds_of (lent host.now) ≡ kinds_of runner.old.seen.operators }
    requires unbegun { IsUnbegun core.old }
    requires together { AreTogether core.old runner.old.seen }
    ensures crew { runner.new.crew ≡ runner.old.crew }
    ensures ok { OnOk result ((text : List ℕ) × IsTraceText core.old.net core.old.instants text × Writes (K.seen out.old) (K.seen out.new) text) }
    ensures failed { result ≡ Err OutputError.Failed → (text : List ℕ) × IsTraceText core.old.net core.old.instants text × Fails (K.seen out.old) (K.seen out.new) text }
    ensures out_of_memory { result ≡ Err OutputError.OutOfMemory →
        (front rest : List ℕ) × IsTraceText core.old.net core.old.instants (front ++ rest) × Writes (K.seen out.old) (K.seen out.new) front }
    ensures faults { (K.seen out.old).faults ≤ (K.seen out.new).faults }
{
    events_go_by_the_net();
    core.runs_go_on();
    let mut counts = vec![in alloc; 0u64; runner.actors()]?;
    trace_on(alloc, runner, core, host, &mut counts, out)
}
