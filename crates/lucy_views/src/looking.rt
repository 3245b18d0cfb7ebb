// The one call that `lucy_view` makes.
ghost use Rattle.std.specs.Prelude.{◌≡◌, ◌≢◌, ◌≤◌, [], None, Some, map, string_bytes};
ghost use Rattle.clap.specs.Faults.{fault_of};
ghost use Rattle.lucy_host.specs.Host.{Serves, lent};
ghost use Rattle.lucy_app.specs.World.{world};
ghost use Rattle.lucy_asking.specs.declared.name.Name.TheVariants as name;
ghost use Rattle.lucy_asking.specs.CommandLine.{line};
ghost use Rattle.lucy_asking.specs.Asks.{name_in, IsWithin};
ghost use Rattle.lucy_views.specs.Meets.{most_input};
ghost use Rattle.lucy_views.specs.Looks.{EndsSo, Looks};

use crate::failure::Failure;
use crate::missing::Missing;
use crate::pictures::{file_of, outcome_of};
use crate::telling::{finish, refuse, tell_words};
use crate::waves::wave;
use lucy_app::fetch;
use lucy_asking::{Ask, read};
use lucy_host::Host;
use lucy_text::{Shelf, Sink, Source};
use lucy_word::Limit;
use std::alloc::Global;

// Answers what is asked for. The answer is the status.
fn answer<S: Shelf, I: Source, O: Sink, E: Sink, F: Fn(u32, i64, i64) -> i64 + Sync>(
    alloc: Global,
    ask: Ask<'_>,
    host: &Host<F>,
    shelf: &mut S,
    source: &mut I,
    out: &mut O,
    err: &mut E,
) -> u8
    requires serves { Serves F.pre F.post host.now }
    requires within { IsWithin ask }
    ensures ends { EndsSo ask.entry (world (S.seen shelf.old) (I.seen source.old) (O.seen out.old) (E.seen err.old) (lent host.now))
        (world (S.seen shelf.new) (I.seen source.new) (O.seen out.new) (E.seen err.new) (lent host.now)) result }
    ensures known { result ≤ 7 }
    ensures source { most_input ask.entry ≡ None → source.new ≡ source.old }
    ensures quiet { result ≡ 0 → err.new ≡ err.old }
    ensures shelf_count { (S.seen shelf.old).faults ≤ (S.seen shelf.new).faults }
    ensures source_count { (I.seen source.old).faults ≤ (I.seen source.new).faults }
    ensures out_count { (O.seen out.old).faults ≤ (O.seen out.new).faults }
    ensures err_count { (E.seen err.old).faults ≤ (E.seen err.new).faults }
{
    match ask {
        Ask::Wave(words) => {
            let fetched = fetch(alloc, shelf, words.program.file, Limit::Text);
            wave(alloc, words, fetched, host, source, out, err)
        }
        Ask::Picture(picture) => {
            let fetched = fetch(alloc, shelf, file_of(picture), Limit::Text);
            let outcome = outcome_of(alloc, picture, host.ops(), fetched);
            finish(alloc, out, err, outcome)
        }
    }
}

/// All that the program does with its words, the first of which is its own name. The answer is the status that it ends with:
///
/// - 0: what was asked for stands on `out`: a picture, an explanation, a program, or the help or the version; and nothing more on `err`.
///   `explain` ends so for a text that is refused, too.
/// - 1: the text of FILE is no program, and why is told as `lucy clocks` tells it; `page` prints a page of that. `where` refuses a text for
///   its syntax and its names alone, and where it looks for no place none. `freeze` ends so too where its text with the clocks written out is
///   no program, for which no text is known.
/// - 2: the words ask for nothing that there is; or the program has no such node or buffer, the node no such place, or the text no such
///   offset; or the program with its clocks written out would be another one; or a program without inputs is to be run, and no instants
///   are given.
/// - 3: the input of a run is refused, as `lucy run` tells it.
/// - 4: there is no FILE, or a fetch or a read failed.
/// - 5: a write to `out` or to `err` failed.
/// - 6: a limit is passed, as `lucy clocks` and `lucy run` tell it, also by a program with its clocks written out.
/// - 7: memory ran out.
///
/// With all but 0 and 5 the line that says so stands on `err`, with 5 a front of a line may. Then nothing stands on `out`, but for the page of
/// a program that is refused, the dump of a run up to where it ended so, and a front of what was to be printed where a write failed. The
/// shelf is asked for FILE, once and with the limit of a program's text, where the words ask for something of a program. The source is read
/// by `wave` alone. `Looks` says all this, by the words, but for what is only tested: what `clap` says, and whether the word `help` is answered
/// or refused; what `why` prints, what `explain` prints of an accepted program, and of a refused one behind its first line; how pictures are
/// laid out; and how many instants `page` shows.
pub fn look<S: Shelf, I: Source, O: Sink, E: Sink, F: Fn(u32, i64, i64) -> i64 + Sync>(
    alloc: Global,
    words: &[String],
    host: &Host<F>,
    shelf: &mut S,
    source: &mut I,
    out: &mut O,
    err: &mut E,
) -> u8
    requires { Serves F.pre F.post host.now }
    ensures looks { Looks (map string_bytes words.now)
        (world (S.seen shelf.old) (I.seen source.old) (O.seen out.old) (E.seen err.old) (lent host.now))
        (world (S.seen shelf.new) (I.seen source.new) (O.seen out.new) (E.seen err.new) (lent host.now)) result }
    ensures known { result ≤ 7 }
    // What isn't called is left alone: the shelf where the words name no command, the source where they name another than `wave`, and both
    // where `clap` refuses the words, as those that ask for the help.
    ensures shelf { name_in (map string_bytes words.now) ≡ None → shelf.new ≡ shelf.old }
    ensures refused_shelf { fault_of line (map string_bytes words.now) ≢ [] → shelf.new ≡ shelf.old }
    ensures source { name_in (map string_bytes words.now) ≢ Some name.Wave → source.new ≡ source.old }
    ensures refused_source { fault_of line (map string_bytes words.now) ≢ [] → source.new ≡ source.old }
    ensures quiet { result ≡ 0 → err.new ≡ err.old }
    // No count falls.
    ensures shelf_count { (S.seen shelf.old).faults ≤ (S.seen shelf.new).faults }
    ensures source_count { (I.seen source.old).faults ≤ (I.seen source.new).faults }
    ensures out_count { (O.seen out.old).faults ≤ (O.seen out.new).faults }
    ensures err_count { (E.seen err.old).faults ≤ (E.seen err.new).faults }
{
    match read(alloc, words) {
        Err(error) => tell_words(alloc, error, out, err),
        Ok(None) => refuse(alloc, err, Failure::Lacks(Missing::Command)),
        Ok(Some(ask)) => answer(alloc, ask, host, shelf, source, out, err),
    }
}
