// The generated program, and the figures of its run.
ghost use Rattle.std.specs.Prelude.{◌≡◌, ◌≤◌, IfOk, ◌≢◌, ◌⊎◌, [], IfErr};
ghost use Rattle.lucy_make.specs.Text as spec;
ghost use Rattle.lucy_host.specs.Host.{Serves, lent};
ghost use Rattle.lucy_host.specs.Operators.{kinds_of};
ghost use Rattle.lucy_run.specs.Paces.{AreWorkers, IsBlock};
ghost use Rattle.lucy_run.specs.Calls.{WasAccepted};
ghost use Rattle.lucy_run.specs.declared.ending.Ending.TheVariants as ending;
ghost use Rattle.lucy_make.specs.Owes.{OwesSummary};
ghost use Rattle.lucy_make.specs.Laws.{EndsAsRun};

use lucy_host::Host;
use lucy_program::Accepted;
use lucy_run::Ending;
use lucy_worker::Gate;
use std::alloc::{AllocError, Global};
use std::thread::Threads;

/// Pins `lucy_make::made_text`.
pub fn made_text(alloc: Global, stages: u64) -> Result<Vec<u8>, AllocError>
    requires { (1 ≤ stages) × (stages ≤ 256) }
    ensures { IfOk result (λ v. v.items ≡ spec.made_text stages) }
{
    lucy_make::made_text(alloc, stages)
}

/// Pins `lucy_make::summary`.
pub fn summary<R: Threads + Sync, F: Fn(u32, i64, i64) -> i64 + Sync, G: Gate + Sync>(
    rt: &R,
    alloc: Global,
    stages: u64,
    accepted: Accepted,
    host: &Host<F>,
    gate: &G,
    workers: u32,
    block: u64,
) -> Result<Vec<u8>, Ending>
    requires serves { Serves F.pre F.post host.now }
    requires accepted { WasAccepted (lent host.now) accepted }
    requires inputs { accepted.inputs.items ≢ [] }
    requires workers { AreWorkers workers }
    requires block { IsBlock block }
    ensures ok { IfOk result (λ v. OwesSummary stages (kinds_of (lent host.now)) accepted v.items ending.Done) }
    ensures err { IfErr result (λ end. (end ≡ ending.OutOfMemory) ⊎ ((end ≢ ending.Done) × OwesSummary stages (kinds_of (lent host.now)) accepted [] end)) }
{
    lucy_make::summary(rt, alloc, stages, accepted, host, gate, workers, block)
}

/// Pins `lucy_make::summaries_end_as_runs`.
pub fn summaries_end_as_runs()
    ensures { EndsAsRun }
{
    lucy_make::summaries_end_as_runs();
}
