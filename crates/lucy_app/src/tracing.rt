// The command `trace`: the rounds of a run of a program of a file.
ghost use Rattle.std.specs.Prelude.{◌≡◌, ◌≤◌, ◌⊎◌, ◌∷◌, ℕ, List, []};
ghost use Rattle.lucy_word.specs.Limits.{limit_number};
ghost use Rattle.lucy_word.specs.declared.limit.Limit.TheVariants as limit;
ghost use Rattle.lucy_host.specs.Host.{Serves, lent};
ghost use Rattle.lucy_text.specs.Sources.{ReadStop, Read};
ghost use Rattle.lucy_run.specs.Tracing.{OwesTrace};
ghost use Rattle.lucy_run.specs.Ends.{Outputs};
ghost use Rattle.lucy_command.specs.Named.{trace_named, IsWithin};
ghost use Rattle.lucy_app.specs.Commands.{inferring_options, TakesInput};
ghost use Rattle.lucy_app.specs.Outcomes.{bytes_of, EndsRunning, OfProgram};

use crate::accepting::accepted;
use crate::options::inferring;
use crate::output::{conclude, refuse};
use lucy_command::TraceWords;
use lucy_host::Host;
use lucy_text::{ShelfError, Sink, Source};
use std::alloc::Global;

/// Runs the program of what the fetch gave on the input, in one piece and by so many workers: a line for each round, with the actors of
/// events that lead from where the run stood before the round to where it stands after it.
pub(crate) fn trace<I: Source, O: Sink, E: Sink, F: Fn(u32, i64, i64) -> i64 + Sync>(
    alloc: Global,
    fetched: Result<Vec<u8>, ShelfError>,
    words: TraceWords<'_>,
    input: &mut I,
    out: &mut O,
    err: &mut E,
    host: &Host<F>,
) -> u8
    requires serves { Serves F.pre F.post host.now }
    requires within { IsWithin (trace_named words) }
    ensures ends { (taken : List ℕ) × (stop : ReadStop) × Read (limit_number limit.Input) (I.seen input.old) (I.seen input.new) taken stop
        × ((I.seen input.new ≡ I.seen input.old) ⊎ TakesInput (lent host.now) (inferring_options words.entry.scale words.entry.lead) (bytes_of fetched ∷ []) taken)
        × EndsRunning (λ a. OwesTrace a words.entry.instants taken stop) (λ a. Outputs (OwesTrace a words.entry.instants taken stop))
        (OfProgram (λ a. Unit {0}) (lent host.now) (inferring_options words.entry.scale words.entry.lead) (bytes_of fetched ∷ []))
        (lent host.now) (inferring_options words.entry.scale words.entry.lead) words.entry.instants stop (bytes_of fetched ∷ [])
        (O.seen out.old) (O.seen out.new) (E.seen err.old) (E.seen err.new) result }
    ensures quiet { result ≡ 0 → err.new ≡ err.old }
    ensures source_count { (I.seen input.old).faults ≤ (I.seen input.new).faults }
    ensures out_count { (O.seen out.old).faults ≤ (O.seen out.new).faults }
    ensures err_count { (E.seen err.old).faults ≤ (E.seen err.new).faults }
{
    let options = inferring(words.scale, words.lead);
    match accepted(alloc, fetched, &options, words.instants, host.ops()) {
        Ok(accepted) => {
            let ending = lucy_run::trace(
                alloc,
                accepted,
                host,
                words.instants,
                words.workers,
                input,
                out,
            );
            conclude(alloc, err, ending)
        }
        Err(refusal) => refuse(alloc, err, refusal),
    }
}
