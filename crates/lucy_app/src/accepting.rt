// The commands `run` and `kahn`: a program of a file from its input to its output.
ghost use Rattle.std.specs.Prelude.{◌≡◌, ◌≢◌, ◌≤◌, ◌⊎◌, ◌∷◌, ℕ, List, [], None, IfOk, IfErr};
ghost use Rattle.lucy_word.specs.Limits.{limit_number};
ghost use Rattle.lucy_word.specs.declared.limit.Limit.TheVariants as limit;
ghost use Rattle.lucy_host.specs.Host.{Serves, lent};
ghost use Rattle.lucy_host.specs.Operators.{kinds_of};
ghost use Rattle.lucy_text.specs.Sources.{ReadStop, Read};
ghost use Rattle.lucy_program.specs.Inferring.{AreOptions};
ghost use Rattle.lucy_run.specs.Owes.{OwesRun, OwesKahn, LinesAllow};
ghost use Rattle.lucy_run.specs.Ends.{Outputs, FailsInOrder};
ghost use Rattle.lucy_command.specs.Commands as names;
ghost use Rattle.lucy_command.specs.Named.{run_named, kahn_named, IsWithin, block_or_default};
ghost use Rattle.lucy_app.specs.Commands.{inferring_options, TakesInput};
ghost use Rattle.lucy_app.specs.Outcomes.{bytes_of, IsAccepting, EndsRunning, OfProgram, Tellable};

use crate::options::inferring;
use crate::output::{conclude, refuse};
use crate::refusal::Refusal;
use lucy_command::{KahnWords, RunWords, block_or_default};
use lucy_front::accept;
use lucy_host::{Host, Ops};
use lucy_program::{Accepted, Options};
use lucy_run::Pace;
use lucy_text::{ShelfError, Sink, Source};
use lucy_worker::Gate;
use std::alloc::Global;
use std::thread::Threads;

/// The program of what the fetch gave, where the host has these operators and clocks are found so, if it can be run for these
/// instants.
pub(crate) fn accepted(
    alloc: Global,
    fetched: Result<Vec<u8>, ShelfError>,
    options: &Options,
    instants: Option<u64>,
    ops: &Ops,
) -> Result<Accepted, Refusal>
    requires { AreOptions options.now }
    ensures accepting { IsAccepting ops.now options.now instants (bytes_of fetched ∷ []) result }
    ensures given { IfOk result (λ a. a.inputs.items ≡ [] → instants ≢ None) }
    ensures tellable { IfErr result Tellable }
{
    let text = match fetched {
        Ok(text) => text,
        Err(error) => return Err(Refusal::from(error)),
    };
    let accepted = match accept(alloc, &text, ops, options) {
        Ok(accepted) => accepted,
        Err(reason) => return Err(Refusal::from(reason)),
    };
    if accepted.inputs.is_empty() && instants.is_none() {
        drop(accepted);
        return Err(Refusal::NoInstants);
    }
    Ok(accepted)
}

/// Runs the program of what the fetch gave on the input, by so many workers and in blocks of so many instants: its report, the line
/// `run`, and the output lines.
pub(crate) fn run<
    R: Threads + Sync,
    I: Source,
    O: Sink,
    E: Sink,
    G: Gate + Sync,
    F: Fn(u32, i64, i64) -> i64 + Sync,
>(
    rt: &R,
    alloc: Global,
    fetched: Result<Vec<u8>, ShelfError>,
    words: RunWords<'_>,
    input: &mut I,
    out: &mut O,
    err: &mut E,
    gate: &G,
    host: &Host<F>,
) -> u8
    requires serves { Serves F.pre F.post host.now }
    requires within { IsWithin (run_named words) }
    ensures ends { (taken : List ℕ) × (stop : ReadStop) × Read (limit_number limit.Input) (I.seen input.old) (I.seen input.new) taken stop
        × ((I.seen input.new ≡ I.seen input.old) ⊎ TakesInput (lent host.now) (inferring_options words.entry.scale words.entry.lead) (bytes_of fetched ∷ []) taken)
        × EndsRunning (λ a. OwesRun (kinds_of (lent host.now)) a words.entry.instants taken stop)
        (λ a. LinesAllow (kinds_of (lent host.now)) a words.entry.instants taken stop)
        (OfProgram (λ a. FailsInOrder (kinds_of (lent host.now)) a words.entry.instants (block_or_default words.entry.block) taken stop
        (O.seen out.old) (O.seen out.new)) (lent host.now) (inferring_options words.entry.scale words.entry.lead) (bytes_of fetched ∷ []))
        (lent host.now) (inferring_options words.entry.scale words.entry.lead) words.entry.instants stop (bytes_of fetched ∷ [])
        (O.seen out.old) (O.seen out.new) (E.seen err.old) (E.seen err.new) result }
    ensures quiet { result ≡ 0 → err.new ≡ err.old }
    ensures source_count { (I.seen input.old).faults ≤ (I.seen input.new).faults }
    ensures out_count { (O.seen out.old).faults ≤ (O.seen out.new).faults }
    ensures err_count { (E.seen err.old).faults ≤ (E.seen err.new).faults }
{
    let options = inferring(words.scale, words.lead);
    let pace = Pace {
        instants: words.instants,
        workers: words.workers,
        block: block_or_default(words.block),
    };
    match accepted(alloc, fetched, &options, words.instants, host.ops()) {
        Ok(accepted) => {
            let ending = lucy_run::run(rt, alloc, accepted, host, gate, pace, input, out);
            conclude(alloc, err, ending)
        }
        Err(refusal) => refuse(alloc, err, refusal),
    }
}

/// Runs it by the plain interpreter: the output lines alone.
pub(crate) fn kahn<I: Source, O: Sink, E: Sink, F: Fn(u32, i64, i64) -> i64 + Sync>(
    alloc: Global,
    fetched: Result<Vec<u8>, ShelfError>,
    words: KahnWords<'_>,
    input: &mut I,
    out: &mut O,
    err: &mut E,
    host: &Host<F>,
) -> u8
    requires serves { Serves F.pre F.post host.now }
    requires within { IsWithin (names.Kahn (kahn_named words)) }
    ensures ends { (taken : List ℕ) × (stop : ReadStop) × Read (limit_number limit.Input) (I.seen input.old) (I.seen input.new) taken stop
        × ((I.seen input.new ≡ I.seen input.old) ⊎ TakesInput (lent host.now) (inferring_options words.entry.scale words.entry.lead) (bytes_of fetched ∷ []) taken)
        × EndsRunning (λ a. OwesKahn (kinds_of (lent host.now)) a words.entry.instants taken stop)
        (λ a. Outputs (OwesKahn (kinds_of (lent host.now)) a words.entry.instants taken stop))
        (OfProgram (λ a. Unit {0}) (lent host.now) (inferring_options words.entry.scale words.entry.lead) (bytes_of fetched ∷ []))
        (lent host.now) (inferring_options words.entry.scale words.entry.lead) words.entry.instants stop (bytes_of fetched ∷ [])
        (O.seen out.old) (O.seen out.new) (E.seen err.old) (E.seen err.new) result }
    ensures quiet { result ≡ 0 → err.new ≡ err.old }
    ensures source_count { (I.seen input.old).faults ≤ (I.seen input.new).faults }
    ensures out_count { (O.seen out.old).faults ≤ (O.seen out.new).faults }
    ensures err_count { (E.seen err.old).faults ≤ (E.seen err.new).faults }
{
    let options = inferring(words.scale, words.lead);
    match accepted(alloc, fetched, &options, words.instants, host.ops()) {
        Ok(accepted) => {
            let ending = lucy_run::kahn(alloc, accepted, host, words.instants, input, out);
            conclude(alloc, err, ending)
        }
        Err(refusal) => refuse(alloc, err, refusal),
    }
}
