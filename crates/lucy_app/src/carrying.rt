// A command that was read is carried out.
ghost use Rattle.std.specs.Prelude.{◌≡◌, ◌≤◌, [], None, Some};
ghost use Rattle.lucy_host.specs.Host.{Serves, lent};
ghost use Rattle.lucy_command.specs.Named.{named, IsWithin};
ghost use Rattle.lucy_app.specs.Commands.{files_of, most_input};
ghost use Rattle.lucy_app.specs.World.{world};
ghost use Rattle.lucy_app.specs.Ends.{EndsSo};

use crate::fetching::fetch;
use crate::looking::look;
use crate::output::finish;
use crate::{accepting, making, order, replaying, tracing};
use lucy_command::Command;
use lucy_host::Host;
use lucy_text::{Shelf, Sink, Source};
use lucy_word::Limit;
use lucy_worker::Gate;
use std::alloc::Global;
use std::thread::Threads;

/// Carries out the command. The answer is the status that the program ends with.
pub(crate) fn carry_out<
    R: Threads + Sync,
    S: Shelf,
    I: Source,
    O: Sink,
    E: Sink,
    G: Gate + Sync,
    F: Fn(u32, i64, i64) -> i64 + Sync,
>(
    rt: &R,
    alloc: Global,
    command: Command<'_>,
    shelf: &mut S,
    input: &mut I,
    out: &mut O,
    err: &mut E,
    gate: &G,
    host: &Host<F>,
) -> u8
    requires serves { Serves F.pre F.post host.now }
    requires within { IsWithin (named command) }
    ensures ends { EndsSo (named command.entry)
        (world (S.seen shelf.old) (I.seen input.old) (O.seen out.old) (E.seen err.old) (lent host.now))
        (world (S.seen shelf.new) (I.seen input.new) (O.seen out.new) (E.seen err.new) (lent host.now)) result }
    ensures shelf { files_of (Some (named command.entry)) ≡ [] → shelf.new ≡ shelf.old }
    ensures source { most_input (Some (named command.entry)) ≡ None → input.new ≡ input.old }
    ensures quiet { result ≡ 0 → err.new ≡ err.old }
    ensures shelf_count { (S.seen shelf.old).faults ≤ (S.seen shelf.new).faults }
    ensures source_count { (I.seen input.old).faults ≤ (I.seen input.new).faults }
    ensures out_count { (O.seen out.old).faults ≤ (O.seen out.new).faults }
    ensures err_count { (E.seen err.old).faults ≤ (E.seen err.new).faults }
{
    match command {
        Command::Order => {
            let outcome = order::answer(alloc, input);
            finish(alloc, out, err, outcome)
        }
        Command::Show(_)
        | Command::Types(_)
        | Command::Check(_)
        | Command::Clocks(_)
        | Command::Tighten(_) => look(alloc, command, shelf, out, err, host),
        Command::Run(words) => {
            let fetched = fetch(alloc, shelf, words.file, Limit::Text);
            accepting::run(rt, alloc, fetched, words, input, out, err, gate, host)
        }
        Command::Kahn(words) => {
            let fetched = fetch(alloc, shelf, words.file, Limit::Text);
            accepting::kahn(alloc, fetched, words, input, out, err, host)
        }
        Command::Make(words) => making::make(rt, alloc, words, out, err, gate, host),
        Command::Replay(words) => { replaying::replay(alloc, words, shelf, input, out, err, host) }
        Command::Trace(words) => {
            let fetched = fetch(alloc, shelf, words.file, Limit::Text);
            tracing::trace(alloc, fetched, words, input, out, err, host)
        }
    }
}
