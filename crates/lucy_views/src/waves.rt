// The command `wave`: a run as a value change dump.
ghost use Rattle.std.specs.Prelude.{◌≡◌, ◌≢◌, ◌≤◌, ◌⊎◌, ◌∷◌, ℕ, List, [], None, Ok, IfErr, IfOk};
ghost use Rattle.lucy_word.specs.Limits.{limit_number};
ghost use Rattle.lucy_word.specs.declared.limit.Limit.TheVariants as limit;
ghost use Rattle.lucy_host.specs.Host.{Serves, lent};
ghost use Rattle.lucy_text.specs.Sources.{ReadStop, Read};
ghost use Rattle.lucy_app.specs.World.{bytes_of};
ghost use Rattle.lucy_asking.specs.declared.ask.Ask.TheVariants as asked;
ghost use Rattle.lucy_asking.specs.Asks.{AreFactors, IsWithin};
ghost use Rattle.lucy_views.specs.Meets.{options_of, ReadsSource};
ghost use Rattle.lucy_views.specs.Looks.{EndsGiven};
ghost use Rattle.lucy_views.specs.Failures.{IsAccepting, Tellable, given_of};

use crate::failure::Failure;
use crate::missing::Missing;
use crate::program::accepted;
use crate::telling::refuse;
use lucy_app::conclude;
use lucy_asking::WaveWords;
use lucy_host::{Host, Ops};
use lucy_program::Accepted;
use lucy_text::{ShelfError, Sink, Source};
use std::alloc::Global;

// A program, if it can be run for these instants.
fn given(instants: Option<u64>, program: Accepted) -> Result<Accepted, Failure>
    ensures ok { IfOk result (λ a. (a ≡ program) × (a.inputs.items ≡ [] → instants ≢ None)) }
    ensures lacks { IfErr result (λ e. (e ≡ Failure.Lacks Missing.Instants) × (program.inputs.items ≡ []) × (instants ≡ None)) }
{
    if program.inputs.is_empty() && instants.is_none() {
        return Err(Failure::Lacks(Missing::Instants));
    }
    Ok(program)
}

// The program of a text, if it can be run for the instants that the words ask for.
fn runnable_text(
    alloc: Global,
    words: WaveWords<'_>,
    ops: &Ops,
    text: &[u8],
) -> Result<Accepted, Failure>
    requires { AreFactors words.program }
    ensures accepting { IsAccepting ops.now (options_of words.entry.program) words.entry.instants (Ok text.now) result }
    ensures given { IfOk result (λ a. a.inputs.items ≡ [] → words.entry.instants ≢ None) }
    ensures told { IfErr result Tellable }
{
    match accepted(alloc, words.program, ops, text) {
        Ok(program) => given(words.instants, program),
        Err(failure) => Err(failure),
    }
}

// The program of what was fetched, if it can be run for these instants.
fn runnable(
    alloc: Global,
    words: WaveWords<'_>,
    ops: &Ops,
    fetched: Result<Vec<u8>, ShelfError>,
) -> Result<Accepted, Failure>
    requires { AreFactors words.program }
    ensures accepting { IsAccepting ops.now (options_of words.entry.program) words.entry.instants (bytes_of fetched) result }
    ensures given { IfOk result (λ a. a.inputs.items ≡ [] → words.entry.instants ≢ None) }
    ensures told { IfErr result Tellable }
{
    match fetched {
        Ok(text) => runnable_text(alloc, words, ops, &text),
        Err(error) => Err(Failure::from(error)),
    }
}

/// Runs the program of what was fetched on its input, and writes its dump. The answer is the status.
pub(crate) fn wave<I: Source, O: Sink, E: Sink, F: Fn(u32, i64, i64) -> i64 + Sync>(
    alloc: Global,
    words: WaveWords<'_>,
    fetched: Result<Vec<u8>, ShelfError>,
    host: &Host<F>,
    source: &mut I,
    out: &mut O,
    err: &mut E,
) -> u8
    requires serves { Serves F.pre F.post host.now }
    requires within { IsWithin (asked.Wave words) }
    ensures ends { (taken : List ℕ) × (stop : ReadStop) × Read (limit_number limit.Input) (I.seen source.old) (I.seen source.new) taken stop
        × ((I.seen source.new ≡ I.seen source.old) ⊎ ReadsSource (asked.Wave words.entry) (lent host.now) (bytes_of fetched ∷ []) taken)
        × EndsGiven (asked.Wave words.entry) (given_of (lent host.now) (bytes_of fetched) taken stop)
        (O.seen out.old) (O.seen out.new) (E.seen err.old) (E.seen err.new) result }
    ensures known { result ≤ 7 }
    ensures quiet { result ≡ 0 → err.new ≡ err.old }
    ensures source_count { (I.seen source.old).faults ≤ (I.seen source.new).faults }
    ensures out_count { (O.seen out.old).faults ≤ (O.seen out.new).faults }
    ensures err_count { (E.seen err.old).faults ≤ (E.seen err.new).faults }
{
    match runnable(alloc, words, host.ops(), fetched) {
        Ok(program) => {
            let ending = lucy_wave::wave(alloc, program, host, words.instants, source, out);
            conclude(alloc, err, ending)
        }
        Err(failure) => refuse(alloc, err, failure),
    }
}
