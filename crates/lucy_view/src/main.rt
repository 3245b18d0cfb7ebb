//! The program: it hands its words, the files, the standard streams and the operators that `lucy` lends to the call that does all the
//! work.
#![tactic(auto)]

use lucy_app::program_operators;
use lucy_host::Host;
use lucy_text::{RealShelf, RealSink, RealSource};
use lucy_views::look;
use std::alloc::Global;
use std::env::{self, Env};
use std::io::{self, ErrorKind};
use std::process::ExitCode;

// The words of the command line, the program's name first.
fn words_of(rt: &(impl Env + AllocGlobal), alloc: Global) -> io::Result<Vec<String>> {
    Ok(env::args(rt)?.collect(alloc)?)
}

// Says that memory ran out.
fn out_of_memory(rt: &impl Eprint) -> ExitCode {
    let _ = eprintln!(rt; "lucy: out of memory");
    ExitCode::from(7)
}

// Says that a word is no text, which `clap` can't be asked about.
fn not_text(rt: &impl Eprint) -> ExitCode {
    match eprintln!(rt; "lucy_view: a word isn't UTF-8") {
        Ok(()) => ExitCode::from(2),
        Err(_) => ExitCode::from(5),
    }
}

fn main(rt: HostRuntime) -> ExitCode {
    let alloc = rt.alloc();
    let words = match words_of(&rt, alloc) {
        Ok(words) => words,
        Err(error) if error.kind() == ErrorKind::OutOfMemory => return out_of_memory(&rt),
        Err(_) => return not_text(&rt),
    };
    let (Ok(ops), Ok(kinds)) = (program_operators(alloc), program_operators(alloc)) else {
        return out_of_memory(&rt);
    };
    let host = Host::new(ops, |op: u32, a: i64, b: i64| kinds.value(op, a, b));
    let status = look(
        alloc,
        &words,
        &host,
        &mut RealShelf::new(&rt),
        &mut RealSource::new(rt.stdin()),
        &mut RealSink::new(rt.stdout()),
        &mut RealSink::new(rt.stderr()),
    );
    ExitCode::from(status)
}
