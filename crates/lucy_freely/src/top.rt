// The one call that the program of free threads makes.
ghost use Rattle.std.specs.Prelude.{◌≡◌, ◌⊎◌, ◌≤◌, None, map, string_bytes};
ghost use Rattle.lucy_host.specs.Host.{Serves, lent};
ghost use Rattle.lucy_command.specs.Commands.{command_of};
ghost use Rattle.lucy_run.specs.Engines.{CanBePlayed, IsPlayedTo};
ghost use Rattle.lucy_app.specs.World.{world};
ghost use Rattle.lucy_app.specs.Engines.{whole_run, EndsPlaying};

use crate::playing::play_freely;
use lucy_app::{ClosureEngine, run_with};
use lucy_host::{Host, Inputs};
use lucy_program::Accepted;
use lucy_text::{Shelf, Sink, Source};
use std::alloc::{AllocError, Global};
use std::sync::Wait;
use std::thread::Threads;

/// Does what [`run_with`] does, with an engine of free threads: words that name `run` without `--block` run the program of FILE, whose
/// workers move their actors without rounds, each on a thread of its own where there are several. A worker parks where none of its
/// actors can move, and wakes the others where one has moved. All other words are refused with status 2, or with 5 or 7.
///
/// The contract holds if the call returns, and that it does isn't promised. Where no thread can be made it may wait without end.
pub fn lucy_free<
    R: Threads + Wait + Sync,
    S: Shelf,
    I: Source,
    O: Sink,
    E: Sink,
    F: Fn(u32, i64, i64) -> i64 + Sync,
>(
    rt: &R,
    alloc: Global,
    words: &[String],
    shelf: &mut S,
    input: &mut I,
    out: &mut O,
    err: &mut E,
    host: &Host<F>,
) -> u8
    requires { Serves F.pre F.post host.now }
    // How the call ends, by what the words give `run`, where they name it and no block. Its engine tells nothing of what it is asked for.
    ensures ends { EndsPlaying (whole_run (command_of (map string_bytes words.now))) None None
        (world (S.seen shelf.old) (I.seen input.old) (O.seen out.old) (E.seen err.old) (lent host.now))
        (world (S.seen shelf.new) (I.seen input.new) (O.seen out.new) (E.seen err.new) (lent host.now)) result }
    ensures statuses { result ≤ 7 }
    // Other words are refused, and then nothing but `err` is touched.
    ensures other_words { whole_run (command_of (map string_bytes words.now)) ≡ None → (result ≡ 2) ⊎ (result ≡ 5) ⊎ (result ≡ 7) }
    ensures other_words_out { whole_run (command_of (map string_bytes words.now)) ≡ None → out.new ≡ out.old }
    ensures other_words_shelf { whole_run (command_of (map string_bytes words.now)) ≡ None → shelf.new ≡ shelf.old }
    ensures other_words_source { whole_run (command_of (map string_bytes words.now)) ≡ None → input.new ≡ input.old }
    ensures quiet { result ≡ 0 → err.new ≡ err.old }
    // No count falls.
    ensures shelf_count { (S.seen shelf.old).faults ≤ (S.seen shelf.new).faults }
    ensures source_count { (I.seen input.old).faults ≤ (I.seen input.new).faults }
    ensures out_count { (O.seen out.old).faults ≤ (O.seen out.new).faults }
    ensures err_count { (E.seen err.old).faults ≤ (E.seen err.new).faults }
{
    let mut engine = ClosureEngine {
        call: |alloc: Global, accepted: &Accepted, lender: &Host<
            F,
        >, inputs: Inputs, instants: u64, workers: u32| -> Result<Inputs, AllocError>
            requires { Serves F.pre F.post lender.now × CanBePlayed (lent lender.now) accepted.now inputs instants workers }
            ensures { IsPlayedTo (lent lender.entry.now) accepted.entry.now inputs instants result }
        { play_freely(rt, alloc, accepted, lender, inputs, instants, workers) },
    };
    run_with(alloc, words, shelf, input, out, err, &mut engine, host)
}
