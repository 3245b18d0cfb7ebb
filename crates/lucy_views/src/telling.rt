// What goes out at the end, and the status that tells how it went.
ghost use Rattle.std.specs.Prelude.{◌≡◌, ◌≢◌, ◌≤◌, ◌⊎◌, MatchResult};
ghost use Rattle.clap.specs.Values.{kind_of};
ghost use Rattle.clap.specs.declared.error.kind.ErrorKind.TheVariants as kind;
ghost use Rattle.lucy_front.specs.Refusals.{IsTellable};
ghost use Rattle.lucy_views.specs.Owes.{shown_refused};
ghost use Rattle.lucy_views.specs.Looks.{is_fault};
ghost use Rattle.lucy_views.specs.Failures.{shown_answer, IsTold, LacksMemory, Tellable, TellsFailure, Prints, Delivers, EndsSaying};

use crate::failure::Failure;
use crate::shown::Shown;
use clap::Error;
use clap::error::ErrorKind;
use lucy_app::{explain, print, program_status, tell};
use lucy_front::{Refusal, refusal_text};
use lucy_text::{Sink, write_all};
use std::alloc::Global;

// Writes what is printed, and then the lines that go with a status.
fn print_with<O: Sink, E: Sink>(
    out: &mut O,
    err: &mut E,
    text: &[u8],
    lines: &[u8],
    status: u8,
) -> u8
    ensures prints { Prints (record { status = status; out = text.now; err = lines.now }) (O.seen out.old) (O.seen out.new) (E.seen err.old) (E.seen err.new) result }
    ensures known { status ≤ 7 → result ≤ 7 }
    ensures fails { status ≢ 0 → result ≢ 0 }
    ensures out_count { (O.seen out.old).faults ≤ (O.seen out.new).faults }
    ensures err_count { (E.seen err.old).faults ≤ (E.seen err.new).faults }
{
    match write_all(out, text) {
        Ok(()) => tell(err, lines, status),
        Err(_) => tell(err, b"lucy: write fault\n", 5),
    }
}

// Writes what is printed of a program that is refused, and why, which is made first.
fn print_refused<O: Sink, E: Sink>(
    alloc: Global,
    out: &mut O,
    err: &mut E,
    text: &[u8],
    refusal: &Refusal,
) -> u8
    requires { IsTellable refusal.now }
    ensures prints { Prints (shown_refused refusal.now text.now) (O.seen out.old) (O.seen out.new) (E.seen err.old) (E.seen err.new) result
        ⊎ LacksMemory (O.seen out.old) (O.seen out.new) (E.seen err.old) (E.seen err.new) result }
    ensures known { result ≤ 7 }
    ensures fails { result ≢ 0 }
    ensures out_count { (O.seen out.old).faults ≤ (O.seen out.new).faults }
    ensures err_count { (E.seen err.old).faults ≤ (E.seen err.new).faults }
{
    match refusal_text(alloc, refusal) {
        Ok(lines) => print_with(out, err, text, &lines, program_status(refusal)),
        Err(_) => tell(err, b"lucy: out of memory\n", 7),
    }
}

// Writes what is shown.
fn show<O: Sink, E: Sink>(alloc: Global, out: &mut O, err: &mut E, shown: &Shown) -> u8
    requires { IsTold shown.now }
    ensures prints { Prints (shown_answer shown.now) (O.seen out.old) (O.seen out.new) (E.seen err.old) (E.seen err.new) result
        ⊎ LacksMemory (O.seen out.old) (O.seen out.new) (E.seen err.old) (E.seen err.new) result }
    ensures known { result ≤ 7 }
    ensures quiet { result ≡ 0 → err.new ≡ err.old }
    ensures out_count { (O.seen out.old).faults ≤ (O.seen out.new).faults }
    ensures err_count { (E.seen err.old).faults ≤ (E.seen err.new).faults }
{
    match &shown.refusal {
        None => print(out, err, &shown.print),
        Some(refusal) => print_refused(alloc, out, err, &shown.print, refusal),
    }
}

// Says why a program is refused or, where there is no memory for that, that it ran out.
fn refuse_program<E: Sink>(alloc: Global, err: &mut E, reason: &Refusal) -> u8
    requires { IsTellable reason.now }
    ensures told { TellsFailure (Failure.Program reason.now) (E.seen err.old) (E.seen err.new) result }
    ensures known { result ≤ 7 }
    ensures fails { result ≢ 0 }
    ensures count { (E.seen err.old).faults ≤ (E.seen err.new).faults }
{
    explain(err, refusal_text(alloc, reason), program_status(reason))
}

/// Says why nothing is printed or, where there is no memory for that, that it ran out.
pub(crate) fn refuse<E: Sink>(alloc: Global, err: &mut E, failure: Failure) -> u8
    requires { Tellable failure }
    ensures told { TellsFailure failure (E.seen err.old) (E.seen err.new) result }
    ensures known { result ≤ 7 }
    ensures fails { result ≢ 0 }
    ensures count { (E.seen err.old).faults ≤ (E.seen err.new).faults }
{
    match failure {
        Failure::Program(reason) => refuse_program(alloc, err, &reason),
        Failure::Lacks(missing) => tell(err, missing.line(), 2),
        Failure::ReadFault => tell(err, b"lucy: read fault\n", 4),
        Failure::OutOfMemory => tell(err, b"lucy: out of memory\n", 7),
    }
}

/// Writes how it came out: what is shown, or why nothing is.
pub(crate) fn finish<O: Sink, E: Sink>(
    alloc: Global,
    out: &mut O,
    err: &mut E,
    outcome: Result<Shown, Failure>,
) -> u8
    requires { MatchResult outcome IsTold Tellable }
    ensures delivers { Delivers outcome (O.seen out.old) (O.seen out.new) (E.seen err.old) (E.seen err.new) result }
    ensures known { result ≤ 7 }
    ensures quiet { result ≡ 0 → err.new ≡ err.old }
    ensures out_count { (O.seen out.old).faults ≤ (O.seen out.new).faults }
    ensures err_count { (E.seen err.old).faults ≤ (E.seen err.new).faults }
{
    match outcome {
        Ok(shown) => show(alloc, out, err, &shown),
        Err(failure) => refuse(alloc, err, failure),
    }
}

// Writes a text of `clap`: what is wrong with the words, or the help or the version.
fn tell_text<O: Sink, E: Sink>(is_fault: bool, text: &[u8], out: &mut O, err: &mut E) -> u8
    ensures ends { EndsSaying is_fault (O.seen out.old) (O.seen out.new) (E.seen err.old) (E.seen err.new) result }
    ensures known { result ≤ 7 }
    ensures quiet { result ≡ 0 → err.new ≡ err.old }
    ensures out_count { (O.seen out.old).faults ≤ (O.seen out.new).faults }
    ensures err_count { (E.seen err.old).faults ≤ (E.seen err.new).faults }
{
    if is_fault {
        return tell(err, text, 2);
    }
    print(out, err, text)
}

/// Writes what `clap` says of the words: the help, the version, or what is wrong with them.
pub(crate) fn tell_words<O: Sink, E: Sink>(
    alloc: Global,
    error: Error,
    out: &mut O,
    err: &mut E,
) -> u8
    ensures ends { kind_of error ≢ kind.OutOfMemory →
        EndsSaying (is_fault (kind_of error)) (O.seen out.old) (O.seen out.new) (E.seen err.old) (E.seen err.new) result }
    ensures short { kind_of error ≡ kind.OutOfMemory →
        LacksMemory (O.seen out.old) (O.seen out.new) (E.seen err.old) (E.seen err.new) result }
    ensures known { result ≤ 7 }
    ensures quiet { result ≡ 0 → err.new ≡ err.old }
    ensures out_count { (O.seen out.old).faults ≤ (O.seen out.new).faults }
    ensures err_count { (E.seen err.old).faults ≤ (E.seen err.new).faults }
{
    match error.kind() {
        ErrorKind::OutOfMemory => tell(err, b"lucy: out of memory\n", 7),
        _ => match format!(in alloc; "{error}") {
            Ok(text) => tell_text(error.use_stderr(), text.as_bytes(), out, err),
            Err(_) => tell(err, b"lucy: out of memory\n", 7),
        },
    }
}
