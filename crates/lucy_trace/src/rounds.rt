// One round, its events and its line.
ghost use Rattle.std.specs.Prelude.{ℕ, ◌≡◌, ◌<◌, ◌≤◌, ◌^◌, length, IfOk, OnOk, OnErr, Err};
ghost use Rattle.lucy_host.specs.Host.{Serves, lent};
ghost use Rattle.lucy_host.specs.Operators.{kinds_of};
ghost use Rattle.lucy_text.specs.Outside.{Writes, Fails};
ghost use Rattle.lucy_core.specs.Seen.{CanRun, IsOver, after_picks, done_of};
ghost use Rattle.lucy_trace.specs.Traces.{round_line};
ghost use Rattle.lucy_trace.specs.Together.{AreTogether};

use crate::{catch_up, line_of};
use lucy_core::{Core, events_go_by_the_net};
use lucy_host::Host;
use lucy_lines::OutputError;
use lucy_runner::Runner;
use lucy_text::{Sink, write_all};
use std::alloc::{AllocError, Global};

// Behind so many events a round ends with the pass in which they were done. So a line stays short, whatever the run's length.
const MOST_EVENTS: u64 = 65_536;

// How many operations each actor has done.
fn count_all(runner: &Runner, counts: &mut [u64])
    requires few { length counts.old < 2 ^ 32 }
    requires count { length counts.old ≡ length runner.now.seen.net.actors }
    ensures each { (a : ℕ) → a < length counts.old → done_of counts.new a ≡ done_of runner.now.seen.done a }
{
    for actor in 0..counts.len() {
        counts[actor] = runner.done(actor as u32);
    }
}

/// A round of the runner, and events that lead the core to where the runner then stands.
pub(crate) fn round<F: Fn(u32, i64, i64) -> i64 + Sync>(
    alloc: Global,
    runner: &mut Runner,
    core: &mut Core,
    host: &Host<F>,
    counts: &mut [u64],
) -> Result<Vec<u32>, AllocError>
    requires serves { Serves F.pre F.post host.now }
    requires kinds { kinds_of (lent host.now) ≡ kinds_of core.old.operators }
    requires runner_kinds { kinds_of (lent host.now) ≡ kinds_of runner.old.seen.operators }
    requires together { AreTogether core.old runner.old.seen }
    requires unfinished { IsOver runner.old.seen → ⊥ }
    requires count { length counts.old ≡ length core.old.net.actors }
    ensures some { IfOk result (λ picks. 0 < length picks.items) }
    ensures run { IfOk result (λ picks. CanRun core.old picks.items × (core.new ≡ after_picks core.old picks.items)) }
    ensures together { OnOk result (AreTogether core.new runner.new.seen) }
    ensures operators { runner.new.seen.operators ≡ runner.old.seen.operators }
    ensures crew { runner.new.crew ≡ runner.old.crew }
    ensures refused { OnErr result (core.new ≡ core.old) }
{
    events_go_by_the_net();
    core.runs_go_on();
    runner.round_in_place(host, MOST_EVENTS);
    count_all(runner, counts);
    catch_up(alloc, core, counts, host)
}

/// Writes the line of a round.
pub(crate) fn print<K: Sink>(alloc: Global, picks: &[u32], out: &mut K) -> Result<(), OutputError>
    ensures ok { OnOk result (Writes (K.seen out.old) (K.seen out.new) (round_line picks.now)) }
    ensures failed { result ≡ Err OutputError.Failed → Fails (K.seen out.old) (K.seen out.new) (round_line picks.now) }
    ensures out_of_memory { result ≡ Err OutputError.OutOfMemory → out.new ≡ out.old }
    ensures count { (K.seen out.old).faults ≤ (K.seen out.new).faults }
{
    let line = line_of(alloc, picks)?;
    write_all(out, &line)?;
    Ok(())
}
