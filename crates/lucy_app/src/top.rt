// The one call that the program makes.
ghost use Rattle.std.specs.Prelude.{ℕ, ◌≡◌, ◌⊎◌, ◌≤◌, List, [], Option, None, Some, map, option_map, string_bytes};
ghost use Rattle.lucy_word.specs.Limits.{limit_number};
ghost use Rattle.lucy_word.specs.declared.limit.Limit.TheVariants as limit;
ghost use Rattle.lucy_host.specs.Host.{Serves, lent};
ghost use Rattle.lucy_grammar.specs.Texts.{HasTree};
ghost use Rattle.lucy_program.specs.declared.options.Options.{Options};
ghost use Rattle.lucy_right.specs.Right.{RunIsRight};
ghost use Rattle.lucy_right.specs.Accepted.{CheckIsRight};
ghost use Rattle.lucy_right.specs.Earliest.{AreChosen};
ghost use Rattle.lucy_command.specs.Commands.{ProgramWords, Run, command_of};
ghost use Rattle.lucy_app.specs.Commands.{files_of, most_input};
ghost use Rattle.lucy_app.specs.World.{world};
ghost use Rattle.lucy_app.specs.Ends.{Ends};
ghost use Rattle.lucy_app.specs.Right.{Checks};

use crate::carrying::carry_out;
use crate::laws::{checks_are_right, runs_are_right};
use crate::output::tell;
use lucy_command::read;
use lucy_host::Host;
use lucy_text::{Shelf, Sink, Source};
use lucy_worker::Gate;
use std::alloc::Global;
use std::thread::Threads;

/// All that the program does with the words after its name. The answer is the status that it ends with:
///
/// - 0: the answer of the command stands on `out`, and nothing more on `err`.
/// - 1: the text of FILE is no program; for all but `show` also, one of its names is refused, or one of its nodes has no types;
///   for `check`, `clocks`, `tighten`, `run`, `kahn`, `trace` and `replay` also, a written node hands down words that don't meet its
///   needs, or items of its net depend on each other; for `check` one of its nodes isn't written; for the others a node that isn't has no
///   clocks, as its rates don't agree or none of the shape meet its needs.
/// - 2: the words name no command; or main has no inputs and `run`, `kahn`, `trace` or `replay` is given no instants; or the buffer of
///   `tighten` isn't there.
/// - 3: the input of `order` is not two words, or the first of them that is refused is badly spelled or has no one in its period;
///   or a line of the input of `run`, `kahn`, `trace` or `replay` is refused: the lines of what the items before it allow stand on `out`;
///   or a field of the log of `replay` is no number, or one of its events isn't possible.
/// - 4: the shelf tells its files and has no FILE or no LOG, or a fetch or a read failed; where a read of `run`, `kahn`, `trace` or
///   `replay` did, the lines of what the items before it allow stand on `out`.
/// - 5: a write to `out` or to `err` failed. A front of the answer may stand on `out`; where `out` failed, the line
///   `lucy: write fault` is tried on `err`. A front of a line may stand on `err`.
/// - 6: a limit is passed: the input of `order` has more than 262,144 bytes, or the first of its two words that is refused has more
///   than 65,536 bits, or more than 16,777,216 instants decide about the two; the text of FILE has more than 1,048,576 bytes, or
///   passes a limit of programs at the first token that is refused; for all but `show` also, one of its nodes has more than 4,096
///   places, and no name up to its end is refused; for `check`, `clocks`, `tighten`, `run`, `kahn`, `trace` and `replay` also, the needs
///   of a node, its rates, positions, inequalities or words or their comparison, the net or its schedule pass a limit, and nothing before
///   that is refused. For `tighten` also, the inequalities of a size of the buffer pass a limit, or the words of its least size; for
///   `replay` LOG has more than 16,777,216 bytes.
///   Where `run`, `kahn`, `trace` or `replay` pass the limit of the input or of the instants of a run, the lines up to there stand on
///   `out`, and nothing where `kahn` passes one of its own.
/// - 7: memory ran out. Of `run`, `kahn`, `trace` and `replay` a front of the answer may stand on `out`, of the others nothing does. Words
///   that name no command never end so.
///
/// With 1, 2, 3, 4, 6 and 7 the line that says so stands on `err`. The words are looked at first. Then `order` reads the
/// input, to its end or to one byte past its limit, and judges its length, the count of its words, and the words in turn,
/// each by its spelling, its number of bits and its period. The other commands ask the shelf for FILE, once and with the
/// limit of a program's text, and judge the text. Then `show` prints the program. `types` judges the names of all nodes, and then the
/// types of each node in turn; it prints each node with the types of its parameters and defined names. `check` judges these too,
/// then the clocks of each node in turn, each of which must be written, and then the net; it prints the report: types, words, and
/// the sizes of buffers. `clocks` does the same, but infers the clocks of nodes that aren't written. `tighten` judges as `clocks`
/// does, then looks for the buffer, and prints its size, the least size that any clocks of its node's shape reach, the node's lines
/// at the earliest of these clocks, and a cycle that shows that one less is too small; of a written node it prints the size, which
/// is fixed. `run`, `kahn` and `trace` judge as `clocks` does, and then look for missing instants. `run` prints the report and the line
/// `run`. All three read the input to its end or to its first fault, where main has inputs, and print the output lines, `trace` in place
/// of them a line for each round; where main has none, or nothing is run, they leave the source alone, with every status. `replay` goes
/// like `kahn`, but that it asks for LOG before it reads and judges its fields, and its events behind the input. The host
/// lends programs its operators, by their names. `make` judges the program that it generates as `run` does, and prints the figures of
/// its run on the input that it generates; it calls neither the shelf nor the source. No read follows the end of the input or a failed
/// read, no byte is asked for behind a refused line, and no write to a sink follows one that failed. Nothing is read behind a write to
/// `out` that failed: behind one of the report nothing was, and behind one of a line no more than its block needs.
///
/// `Ends` says all this, by the command that the words name. Of `run`, `RunIsRight` says what stands on `out` by the text of FILE and the input, where
/// these are told. Of `check` and `clocks`, `CheckIsRight` says what is accepted, and what stands on `out`, by the text of FILE.
///
/// `run` moves the actors of the program's net by workers, each on a thread of its own where there are several; each passes the gate
/// before it moves. The call returns if the gate does. `trace` moves them by workers too, all on the thread of the call.
pub fn lucy<
    R: Threads + Sync,
    S: Shelf,
    I: Source,
    O: Sink,
    E: Sink,
    G: Gate + Sync,
    F: Fn(u32, i64, i64) -> i64 + Sync,
>(
    rt: &R,
    alloc: Global,
    words: &[String],
    shelf: &mut S,
    input: &mut I,
    out: &mut O,
    err: &mut E,
    gate: &G,
    host: &Host<F>,
) -> u8
    requires { Serves F.pre F.post host.now }
    // How the call ends, by the command that the words name, where they name one.
    ensures ends { Ends (command_of (map string_bytes words.now))
        (world (S.seen shelf.old) (I.seen input.old) (O.seen out.old) (E.seen err.old) (lent host.now))
        (world (S.seen shelf.new) (I.seen input.new) (O.seen out.new) (E.seen err.new) (lent host.now)) result }
    // Where they name `run`, what it leaves is right: that is read without what `Ends` says of limits, refusals and devices.
    ensures run { (run : ProgramWords) (workers : ℕ) (block : Option ℕ) → command_of (map string_bytes words.now) ≡ Some (Run run workers block) →
        RunIsRight HasTree (AreChosen run.scale run.lead) (lent host.now) (limit_number limit.Instants) run.instants
        (option_map (λ files. files run.file) (S.seen shelf.old).files) (I.seen input.old).left (O.seen out.old).written (O.seen out.new).written result }
    // Where they name `check` or `clocks`, so is what that leaves: exactly what is accepted is told.
    ensures accepts { (file : List ℕ) (o : Options) → Checks (command_of (map string_bytes words.now)) file o →
        CheckIsRight (lent host.now) o file (S.seen shelf.old) (S.seen shelf.new) (O.seen out.old) (O.seen out.new) (E.seen err.old) (E.seen err.new) result }
    ensures statuses { result ≤ 7 }
    // Words that name no command are refused, and then the output is not touched.
    ensures other_words { command_of (map string_bytes words.now) ≡ None → (result ≡ 2) ⊎ (result ≡ 5) }
    ensures other_words_out { command_of (map string_bytes words.now) ≡ None → out.new ≡ out.old }
    // What isn't called is left alone: the shelf where no FILE is fetched, the source where the command reads none. Of commands that need
    // not read it `Ends` says so, by `Meets`.
    ensures shelf { files_of (command_of (map string_bytes words.now)) ≡ [] → shelf.new ≡ shelf.old }
    ensures source { most_input (command_of (map string_bytes words.now)) ≡ None → input.new ≡ input.old }
    ensures quiet { result ≡ 0 → err.new ≡ err.old }
    // No count falls.
    ensures shelf_count { (S.seen shelf.old).faults ≤ (S.seen shelf.new).faults }
    ensures source_count { (I.seen input.old).faults ≤ (I.seen input.new).faults }
    ensures out_count { (O.seen out.old).faults ≤ (O.seen out.new).faults }
    ensures err_count { (E.seen err.old).faults ≤ (E.seen err.new).faults }
{
    runs_are_right();
    checks_are_right();
    let mut spelled = Vec::new(alloc);
    match read(alloc, words, &mut spelled) {
        Ok(Some(command)) => { carry_out(rt, alloc, command, shelf, input, out, err, gate, host) }
        Ok(None) => tell(err, b"lucy: words\n", 2),
        Err(_) => tell(err, b"lucy: out of memory\n", 7),
    }
}
