// A command that looks at one file is carried out.
ghost use Rattle.std.specs.Prelude.{◌≡◌, ◌≤◌};
ghost use Rattle.lucy_host.specs.Host.{lent};
ghost use Rattle.lucy_text.specs.Outside.{SeenSource};
ghost use Rattle.lucy_command.specs.Named.{named, IsWithin};
ghost use Rattle.lucy_app.specs.Commands.{LooksAtFile};
ghost use Rattle.lucy_app.specs.World.{world};
ghost use Rattle.lucy_app.specs.Ends.{EndsSo};

use crate::fetching::fetch;
use crate::options::{inferring, written};
use crate::output::finish;
use crate::{check, show, tightening, types};
use lucy_command::Command;
use lucy_host::Host;
use lucy_text::{Shelf, Sink};
use lucy_word::Limit;
use std::alloc::Global;

/// Carries out a command that looks at one file, and reads and runs nothing. The answer is the status that the program ends with.
pub(crate) fn look<S: Shelf, O: Sink, E: Sink, F: Fn(u32, i64, i64) -> i64 + Sync>(
    alloc: Global,
    command: Command<'_>,
    shelf: &mut S,
    out: &mut O,
    err: &mut E,
    host: &Host<F>,
) -> u8
    requires looks { LooksAtFile (named command) }
    requires within { IsWithin (named command) }
    ensures ends { (source : SeenSource) → EndsSo (named command.entry)
        (world (S.seen shelf.old) source (O.seen out.old) (E.seen err.old) (lent host.now))
        (world (S.seen shelf.new) source (O.seen out.new) (E.seen err.new) (lent host.now)) result }
    ensures quiet { result ≡ 0 → err.new ≡ err.old }
    ensures shelf_count { (S.seen shelf.old).faults ≤ (S.seen shelf.new).faults }
    ensures out_count { (O.seen out.old).faults ≤ (O.seen out.new).faults }
    ensures err_count { (E.seen err.old).faults ≤ (E.seen err.new).faults }
{
    match command {
        Command::Show(file) => {
            let fetched = fetch(alloc, shelf, file, Limit::Text);
            finish(alloc, out, err, show::answer(alloc, fetched))
        }
        Command::Types(file) => {
            let fetched = fetch(alloc, shelf, file, Limit::Text);
            finish(alloc, out, err, types::answer(alloc, fetched, host.ops()))
        }
        Command::Check(file) => {
            let fetched = fetch(alloc, shelf, file, Limit::Text);
            let answer = check::answer(alloc, fetched, host.ops(), &written());
            finish(alloc, out, err, answer)
        }
        Command::Clocks(words) => {
            let fetched = fetch(alloc, shelf, words.file, Limit::Text);
            let options = inferring(words.scale, words.lead);
            let answer = check::answer(alloc, fetched, host.ops(), &options);
            finish(alloc, out, err, answer)
        }
        Command::Tighten(words) => {
            let fetched = fetch(alloc, shelf, words.file, Limit::Text);
            let answer = tightening::answer(alloc, fetched, host.ops(), words);
            finish(alloc, out, err, answer)
        }
        Command::Order
        | Command::Run(_)
        | Command::Kahn(_)
        | Command::Make(_)
        | Command::Replay(_)
        | Command::Trace(_) => unreachable!(),
    }
}
