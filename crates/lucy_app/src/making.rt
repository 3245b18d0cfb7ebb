// The command `make`: a generated program and its input, and the figures of their run.
ghost use Rattle.std.specs.Prelude.{◌≡◌, ◌≤◌};
ghost use Rattle.lucy_host.specs.Host.{Serves, lent};
ghost use Rattle.lucy_command.specs.Commands as names;
ghost use Rattle.lucy_command.specs.Named.{IsWithin};
ghost use Rattle.lucy_app.specs.Outcomes.{EndsMake};

use crate::accepting::accepted;
use crate::options::inferring;
use crate::output::{conclude, print, refuse};
use crate::refusal::Refusal;
use lucy_command::{MakeWords, block_or_default};
use lucy_host::Host;
use lucy_make::{made_text, summary};
use lucy_text::Sink;
use lucy_worker::Gate;
use std::alloc::Global;
use std::thread::Threads;

/// Runs the program of so many stages by so many workers, in blocks of so many instants, on its input: the figures of that run. No
/// byte depends on the block.
pub(crate) fn make<
    R: Threads + Sync,
    O: Sink,
    E: Sink,
    G: Gate + Sync,
    F: Fn(u32, i64, i64) -> i64 + Sync,
>(rt: &R, alloc: Global, words: MakeWords, out: &mut O, err: &mut E, gate: &G, host: &Host<F>) -> u8
    requires serves { Serves F.pre F.post host.now }
    requires within { IsWithin (names.Make words) }
    ensures ends { EndsMake words (lent host.now) (O.seen out.old) (O.seen out.new) (E.seen err.old) (E.seen err.new) result }
    ensures quiet { result ≡ 0 → err.new ≡ err.old }
    ensures out_count { (O.seen out.old).faults ≤ (O.seen out.new).faults }
    ensures err_count { (E.seen err.old).faults ≤ (E.seen err.new).faults }
{
    let text = match made_text(alloc, words.stages) {
        Ok(text) => text,
        Err(_) => return refuse(alloc, err, Refusal::OutOfMemory),
    };
    let program = match accepted(alloc, Ok(text), &inferring(1, 1), None, host.ops()) {
        Ok(program) => program,
        Err(refusal) => return refuse(alloc, err, refusal),
    };
    let block = block_or_default(words.block);
    match summary(
        rt,
        alloc,
        words.stages,
        program,
        host,
        gate,
        words.workers,
        block,
    ) {
        Ok(figures) => print(out, err, &figures),
        Err(ending) => conclude(alloc, err, ending),
    }
}
