// The command `replay`: the events of a log, over a program of a file and its input.
ghost use Rattle.std.specs.Prelude.{◌≡◌, ◌≢◌, ◌≤◌, ◌⊎◌, ℕ, List, [], None};
ghost use Rattle.lucy_word.specs.Limits.{limit_number};
ghost use Rattle.lucy_word.specs.declared.limit.Limit.TheVariants as limit;
ghost use Rattle.lucy_host.specs.Host.{Serves, lent};
ghost use Rattle.lucy_text.specs.Sources.{ReadStop, Read};
ghost use Rattle.lucy_run.specs.Paces.{AreInstants};
ghost use Rattle.lucy_run.specs.Calls.{WasAccepted};
ghost use Rattle.lucy_command.specs.Named.{replay_named, IsWithin};
ghost use Rattle.lucy_app.specs.World.{world};
ghost use Rattle.lucy_app.specs.Ends.{EndsSo};
ghost use Rattle.lucy_app.specs.Outcomes.{bytes_of, ReadsBehind, EndsLog};

use crate::accepting::accepted;
use crate::fetching::fetch;
use crate::log::picks;
use crate::options::inferring;
use crate::output::{conclude, refuse};
use crate::refusal::Refusal;
use lucy_command::ReplayWords;
use lucy_host::Host;
use lucy_program::Accepted;
use lucy_text::{Shelf, ShelfError, Sink, Source};
use lucy_word::Limit;
use std::alloc::Global;

// Replays the log that a fetch gave on a program that can be run.
fn replay_log<I: Source, O: Sink, E: Sink, F: Fn(u32, i64, i64) -> i64 + Sync>(
    alloc: Global,
    accepted: Accepted,
    fetched: Result<Vec<u8>, ShelfError>,
    instants: Option<u64>,
    input: &mut I,
    out: &mut O,
    err: &mut E,
    host: &Host<F>,
) -> u8
    requires serves { Serves F.pre F.post host.now }
    requires accepted { WasAccepted (lent host.now) accepted }
    requires few { AreInstants instants }
    requires given { accepted.inputs.items ≡ [] → instants ≢ None }
    ensures ends { (taken : List ℕ) × (stop : ReadStop) × Read (limit_number limit.Input) (I.seen input.old) (I.seen input.new) taken stop
        × ReadsBehind accepted (bytes_of fetched) (I.seen input.old) (I.seen input.new) taken
        × EndsLog (lent host.now) accepted instants taken stop (bytes_of fetched) (O.seen out.old) (O.seen out.new) (E.seen err.old) (E.seen err.new) result }
    ensures quiet { result ≡ 0 → err.new ≡ err.old }
    ensures source_count { (I.seen input.old).faults ≤ (I.seen input.new).faults }
    ensures out_count { (O.seen out.old).faults ≤ (O.seen out.new).faults }
    ensures err_count { (E.seen err.old).faults ≤ (E.seen err.new).faults }
{
    let picks = match picks(alloc, fetched) {
        Ok(picks) => picks,
        Err(refusal) => return refuse(alloc, err, refusal),
    };
    match lucy_run::replay(alloc, accepted, host, instants, &picks, input, out) {
        Ok(ending) => conclude(alloc, err, ending),
        Err(error) => refuse(alloc, err, Refusal::from(error)),
    }
}

/// Replays a log on the program of a file and its input: how many events there are, whether that is all, and the lines of the items
/// that the outputs took. LOG is asked for only where the program can be run, and its numbers are looked at before the input.
pub(crate) fn replay<S: Shelf, I: Source, O: Sink, E: Sink, F: Fn(u32, i64, i64) -> i64 + Sync>(
    alloc: Global,
    words: ReplayWords<'_>,
    shelf: &mut S,
    input: &mut I,
    out: &mut O,
    err: &mut E,
    host: &Host<F>,
) -> u8
    requires serves { Serves F.pre F.post host.now }
    requires within { IsWithin (replay_named words) }
    ensures ends { EndsSo (replay_named words.entry)
        (world (S.seen shelf.old) (I.seen input.old) (O.seen out.old) (E.seen err.old) (lent host.now))
        (world (S.seen shelf.new) (I.seen input.new) (O.seen out.new) (E.seen err.new) (lent host.now)) result }
    ensures quiet { result ≡ 0 → err.new ≡ err.old }
    ensures shelf_count { (S.seen shelf.old).faults ≤ (S.seen shelf.new).faults }
    ensures source_count { (I.seen input.old).faults ≤ (I.seen input.new).faults }
    ensures out_count { (O.seen out.old).faults ≤ (O.seen out.new).faults }
    ensures err_count { (E.seen err.old).faults ≤ (E.seen err.new).faults }
{
    let options = inferring(words.scale, words.lead);
    let file = fetch(alloc, shelf, words.file, Limit::Text);
    match accepted(alloc, file, &options, words.instants, host.ops()) {
        Ok(accepted) => {
            let log = fetch(alloc, shelf, words.log, Limit::Log);
            replay_log(alloc, accepted, log, words.instants, input, out, err, host)
        }
        Err(refusal) => refuse(alloc, err, refusal),
    }
}
