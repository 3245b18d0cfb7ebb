// What goes out at the end of a command, and the status that tells how it went.
ghost use Rattle.std.specs.Prelude.{◌≡◌, ◌≢◌, ◌≤◌, IfOk, IfErr, OnErr};
ghost use Rattle.lucy_front.specs.Refusals.{memory_line};
ghost use Rattle.lucy_app.specs.Ends.{Tells, TellsEnding};
ghost use Rattle.lucy_app.specs.Outcomes.{TellsRefusal, Prints, Delivers, Tellable};

use crate::ending::{fault_line, fault_status};
use crate::limit::limit_text;
use crate::log::log_line;
use crate::refusal::{Refusal, program_status};
use lucy_front::refusal_text;
use lucy_run::Ending;
use lucy_text::{Sink, write_all};
use std::alloc::{AllocError, Global};

// The status where a write failed.
const WRITE_FAULT: u8 = 5;

/// Writes the lines that go with a status. The answer is this status, or that of a write fault.
pub fn tell<E: Sink>(err: &mut E, lines: &[u8], status: u8) -> u8
    ensures told { Tells status lines.now (E.seen err.old) (E.seen err.new) result }
    ensures count { (E.seen err.old).faults ≤ (E.seen err.new).faults }
{
    match write_all(err, lines) {
        Ok(()) => status,
        Err(_) => WRITE_FAULT,
    }
}

/// Says why there is no answer or, where there is no memory for that, that it ran out.
pub fn explain<E: Sink>(err: &mut E, lines: Result<Vec<u8>, AllocError>, status: u8) -> u8
    ensures ok { IfOk lines (λ v. Tells status v.items (E.seen err.old) (E.seen err.new) result) }
    ensures err { OnErr lines (Tells 7 memory_line (E.seen err.old) (E.seen err.new) result) }
    ensures count { (E.seen err.old).faults ≤ (E.seen err.new).faults }
{
    match lines {
        Ok(lines) => tell(err, &lines, status),
        Err(_) => tell(err, b"lucy: out of memory\n", 7),
    }
}

/// Says why a command has no answer.
pub(crate) fn refuse<E: Sink>(alloc: Global, err: &mut E, refusal: Refusal) -> u8
    requires { Tellable refusal }
    ensures told { TellsRefusal refusal (E.seen err.old) (E.seen err.new) result }
    ensures fails { result ≢ 0 }
    ensures count { (E.seen err.old).faults ≤ (E.seen err.new).faults }
{
    match refusal {
        Refusal::Program(reason) => {
            let status = explain(err, refusal_text(alloc, &reason), program_status(&reason));
            drop(reason);
            status
        }
        Refusal::Input(cause) => explain(err, cause.line(alloc), cause.status()),
        Refusal::NoInstants => tell(
            err,
            b"lucy: words: main has no inputs, give --instants\n",
            2,
        ),
        Refusal::NoBuffer => tell(err, b"lucy: words: no such buffer\n", 2),
        Refusal::Log(error) => explain(err, log_line(alloc, error), 3),
        Refusal::ReadFault => tell(err, b"lucy: read fault\n", 4),
        Refusal::OutOfMemory => tell(err, b"lucy: out of memory\n", 7),
    }
}

/// Writes what a command prints. Where that fails, the fault is told on `err`, if it can be. The answer is 0, or the status of a write fault.
pub fn print<O: Sink, E: Sink>(out: &mut O, err: &mut E, text: &[u8]) -> u8
    ensures prints { Prints text.now (O.seen out.old) (O.seen out.new) (E.seen err.old) (E.seen err.new) result }
    ensures known { result ≤ 7 }
    ensures quiet { result ≡ 0 → err.new ≡ err.old }
    ensures out_count { (O.seen out.old).faults ≤ (O.seen out.new).faults }
    ensures err_count { (E.seen err.old).faults ≤ (E.seen err.new).faults }
{
    match write_all(out, text) {
        Ok(()) => 0,
        Err(_) => tell(err, b"lucy: write fault\n", WRITE_FAULT),
    }
}

/// Writes how a command came out: what it prints, or why it has no answer.
pub(crate) fn finish<O: Sink, E: Sink>(
    alloc: Global,
    out: &mut O,
    err: &mut E,
    outcome: Result<Vec<u8>, Refusal>,
) -> u8
    requires { IfErr outcome Tellable }
    ensures delivers { Delivers outcome (O.seen out.old) (O.seen out.new) (E.seen err.old) (E.seen err.new) result }
    ensures quiet { result ≡ 0 → err.new ≡ err.old }
    ensures out_count { (O.seen out.old).faults ≤ (O.seen out.new).faults }
    ensures err_count { (E.seen err.old).faults ≤ (E.seen err.new).faults }
{
    match outcome {
        Ok(text) => print(out, err, &text),
        Err(refusal) => refuse(alloc, err, refusal),
    }
}

/// Says how a run ended, where there is something to say.
pub fn conclude<E: Sink>(alloc: Global, err: &mut E, ending: Ending) -> u8
    ensures told { TellsEnding ending (E.seen err.old) (E.seen err.new) result }
    ensures quiet { result ≡ 0 → err.new ≡ err.old }
    ensures count { (E.seen err.old).faults ≤ (E.seen err.new).faults }
{
    match ending {
        Ending::Done => 0,
        Ending::Input(fault) => explain(err, fault_line(alloc, fault), fault_status(fault)),
        Ending::Limit(limit) => explain(err, limit_text(alloc, limit), 6),
        Ending::WriteFault => tell(err, b"lucy: write fault\n", WRITE_FAULT),
        Ending::OutOfMemory => tell(err, b"lucy: out of memory\n", 7),
    }
}
