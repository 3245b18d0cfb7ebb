// The command `run` in one piece, by an engine that is handed in.
ghost use Rattle.std.specs.Prelude.{◌≡◌, ◌⊎◌, ◌≤◌, ◌∷◌, ℕ, List, [], None, map, string_bytes, IfSome};
ghost use Rattle.std.specs.Option.{option_map};
ghost use Rattle.lucy_word.specs.Limits.{limit_number};
ghost use Rattle.lucy_word.specs.declared.limit.Limit.TheVariants as limit;
ghost use Rattle.lucy_host.specs.Host.{lent};
ghost use Rattle.lucy_host.specs.Operators.{kinds_of};
ghost use Rattle.lucy_text.specs.Sources.{ReadStop, Read};
ghost use Rattle.lucy_run.specs.Owes.{OwesRun, LinesAllow};
ghost use Rattle.lucy_run.specs.Engines.{FailsInPiece};
ghost use Rattle.lucy_command.specs.Commands.{command_of};
ghost use Rattle.lucy_command.specs.Named.{named, run_named, IsWithin};
ghost use Rattle.lucy_app.specs.Commands.{inferring_options, TakesInput};
ghost use Rattle.lucy_app.specs.World.{world};
ghost use Rattle.lucy_app.specs.Outcomes.{bytes_of, EndsRunning, OfProgram};
ghost use Rattle.lucy_app.specs.Engines.{whole_run, AsksEngineFor, EndsPlayed, EndsPlaying};

use crate::accepting::accepted;
use crate::fetching::fetch;
use crate::options::inferring;
use crate::output::{conclude, refuse, tell};
use lucy_command::{Command, RunWords, read};
use lucy_host::Host;
use lucy_run::{Engine, run_by};
use lucy_text::{Shelf, ShelfError, Sink, Source};
use lucy_word::Limit;
use std::alloc::Global;

// What the command works on, where it is `run` and no block is given.
fn whole_run<'a>(command: Option<Command<'a>>) -> Option<RunWords<'a>>
    ensures is { option_map run_named result ≡ whole_run (option_map named command.entry) }
    ensures within { IfSome command.entry (λ c. IsWithin (named c)) → IfSome result (λ words. IsWithin (run_named words)) }
{
    match command {
        Some(Command::Run(words)) => match words.block {
            None => Some(words),
            Some(_) => None,
        },
        _ => None,
    }
}

// Has the engine play the program of what the fetch gave on the input, by so many workers: its report, the line `run`, and the output
// lines.
fn play<I: Source, O: Sink, E: Sink, N: Engine<F>, F: Fn(u32, i64, i64) -> i64 + Sync>(
    alloc: Global,
    fetched: Result<Vec<u8>, ShelfError>,
    words: RunWords<'_>,
    input: &mut I,
    out: &mut O,
    err: &mut E,
    engine: &mut N,
    host: &Host<F>,
) -> u8
    requires plays { N.plays engine.old host.now }
    requires within { IsWithin (run_named words) }
    ensures ends { (taken : List ℕ) × (stop : ReadStop) × Read (limit_number limit.Input) (I.seen input.old) (I.seen input.new) taken stop
        × ((I.seen input.new ≡ I.seen input.old)
        ⊎ TakesInput (lent host.now) (inferring_options words.entry.scale words.entry.lead) (bytes_of fetched ∷ []) taken)
        × AsksEngineFor (lent host.now) (inferring_options words.entry.scale words.entry.lead) words.entry.instants words.entry.workers
        taken stop (bytes_of fetched ∷ []) (N.asked engine.old) (N.asked engine.new) result
        × EndsRunning (λ a. OwesRun (kinds_of (lent host.now)) a words.entry.instants taken stop)
        (λ a. LinesAllow (kinds_of (lent host.now)) a words.entry.instants taken stop)
        (OfProgram (λ a. FailsInPiece a words.entry.instants words.entry.workers taken stop (N.asked engine.old) (N.asked engine.new)
        (O.seen out.old) (O.seen out.new)) (lent host.now) (inferring_options words.entry.scale words.entry.lead) (bytes_of fetched ∷ []))
        (lent host.now) (inferring_options words.entry.scale words.entry.lead) words.entry.instants stop (bytes_of fetched ∷ [])
        (O.seen out.old) (O.seen out.new) (E.seen err.old) (E.seen err.new) result }
    ensures quiet { result ≡ 0 → err.new ≡ err.old }
    ensures source_count { (I.seen input.old).faults ≤ (I.seen input.new).faults }
    ensures out_count { (O.seen out.old).faults ≤ (O.seen out.new).faults }
    ensures err_count { (E.seen err.old).faults ≤ (E.seen err.new).faults }
{
    let options = inferring(words.scale, words.lead);
    match accepted(alloc, fetched, &options, words.instants, host.ops()) {
        Ok(accepted) => {
            let (instants, workers) = (words.instants, words.workers);
            let ending = run_by(alloc, accepted, host, instants, workers, engine, input, out);
            conclude(alloc, err, ending)
        }
        Err(refusal) => refuse(alloc, err, refusal),
    }
}

// Fetches the program, and has it played.
fn play_file<
    S: Shelf,
    I: Source,
    O: Sink,
    E: Sink,
    N: Engine<F>,
    F: Fn(u32, i64, i64) -> i64 + Sync,
>(
    alloc: Global,
    words: RunWords<'_>,
    shelf: &mut S,
    input: &mut I,
    out: &mut O,
    err: &mut E,
    engine: &mut N,
    host: &Host<F>,
) -> u8
    requires plays { N.plays engine.old host.now }
    requires within { IsWithin (run_named words) }
    ensures ends { EndsPlayed (run_named words.entry) (N.asked engine.old) (N.asked engine.new)
        (world (S.seen shelf.old) (I.seen input.old) (O.seen out.old) (E.seen err.old) (lent host.now))
        (world (S.seen shelf.new) (I.seen input.new) (O.seen out.new) (E.seen err.new) (lent host.now)) result }
    ensures quiet { result ≡ 0 → err.new ≡ err.old }
    ensures shelf_count { (S.seen shelf.old).faults ≤ (S.seen shelf.new).faults }
    ensures source_count { (I.seen input.old).faults ≤ (I.seen input.new).faults }
    ensures out_count { (O.seen out.old).faults ≤ (O.seen out.new).faults }
    ensures err_count { (E.seen err.old).faults ≤ (E.seen err.new).faults }
{
    let fetched = fetch(alloc, shelf, words.file, Limit::Text);
    play(alloc, fetched, words, input, out, err, engine, host)
}

/// Does what [`lucy`](crate::lucy) does with words that name `run` without `--block`, but has the program played by an engine that is
/// handed in, in one piece: the report and the line `run` are written, the whole input is read, the engine is asked once, for so many
/// workers, and plays, and the lines are written. Where a write of the report failed, nothing is read and nothing is played. The answer is
/// the status, with the causes that `run` has there. All other words are for it words that name no command: with 2 the line
/// `lucy: words` stands on `err`, with 7 the line that says that memory ran out; with 5 a write to `err` failed.
///
/// It returns if the engine does.
pub fn run_with<
    S: Shelf,
    I: Source,
    O: Sink,
    E: Sink,
    N: Engine<F>,
    F: Fn(u32, i64, i64) -> i64 + Sync,
>(
    alloc: Global,
    words: &[String],
    shelf: &mut S,
    input: &mut I,
    out: &mut O,
    err: &mut E,
    engine: &mut N,
    host: &Host<F>,
) -> u8
    requires { N.plays engine.old host.now }
    // How the call ends, by what the words give `run`, where they name it and no block, and what the engine was asked for.
    ensures ends { EndsPlaying (whole_run (command_of (map string_bytes words.now))) (N.asked engine.old) (N.asked engine.new)
        (world (S.seen shelf.old) (I.seen input.old) (O.seen out.old) (E.seen err.old) (lent host.now))
        (world (S.seen shelf.new) (I.seen input.new) (O.seen out.new) (E.seen err.new) (lent host.now)) result }
    ensures statuses { result ≤ 7 }
    // Other words are refused, and then nothing but `err` is touched.
    ensures other_words_engine { whole_run (command_of (map string_bytes words.now)) ≡ None → engine.new ≡ engine.old }
    ensures other_words { whole_run (command_of (map string_bytes words.now)) ≡ None → (result ≡ 2) ⊎ (result ≡ 5) ⊎ (result ≡ 7) }
    ensures other_words_out { whole_run (command_of (map string_bytes words.now)) ≡ None → out.new ≡ out.old }
    ensures other_words_shelf { whole_run (command_of (map string_bytes words.now)) ≡ None → shelf.new ≡ shelf.old }
    ensures other_words_source { whole_run (command_of (map string_bytes words.now)) ≡ None → input.new ≡ input.old }
    ensures quiet { result ≡ 0 → err.new ≡ err.old }
    // No count falls.
    ensures shelf_count { (S.seen shelf.old).faults ≤ (S.seen shelf.new).faults }
    ensures source_count { (I.seen input.old).faults ≤ (I.seen input.new).faults }
    ensures out_count { (O.seen out.old).faults ≤ (O.seen out.new).faults }
    ensures err_count { (E.seen err.old).faults ≤ (E.seen err.new).faults }
{
    let mut spelled = Vec::new(alloc);
    match read(alloc, words, &mut spelled) {
        Ok(command) => match whole_run(command) {
            Some(run) => play_file(alloc, run, shelf, input, out, err, engine, host),
            None => tell(err, b"lucy: words\n", 2),
        },
        Err(_) => tell(err, b"lucy: out of memory\n", 7),
    }
}
