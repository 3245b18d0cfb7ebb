//! The program of free threads: it hands the words, the files, the standard streams and the operators that it lends to the call that
//! does all the work.
#![tactic(auto)]

use lucy_app::program_operators;
use lucy_freely::lucy_free;
use lucy_host::Host;
use lucy_text::{RealShelf, RealSink, RealSource};
use std::alloc::Global;
use std::env::{self, Env};
use std::io::{self, ErrorKind};
use std::process::ExitCode;

// The words after the program's name.
fn words_of(rt: &(impl Env + AllocGlobal), alloc: Global) -> io::Result<Vec<String>> {
    Ok(env::args(rt)?.skip(1).collect(alloc)?)
}

// Says that memory ran out.
fn out_of_memory(rt: &impl Eprint) -> ExitCode {
    let _ = eprintln!(rt; "lucy: out of memory");
    ExitCode::from(7)
}

fn main(rt: HostRuntime) -> ExitCode {
    let alloc = rt.alloc();
    let words = match words_of(&rt, alloc) {
        Ok(words) => words,
        Err(error) if error.kind() == ErrorKind::OutOfMemory => return out_of_memory(&rt),
        // A word that is no text fits no command.
        Err(_) => Vec::new(alloc),
    };
    let (Ok(ops), Ok(kinds)) = (program_operators(alloc), program_operators(alloc)) else {
        return out_of_memory(&rt);
    };
    let host = Host::new(ops, |op: u32, a: i64, b: i64| kinds.value(op, a, b));
    let status = lucy_free(
        &rt,
        alloc,
        &words,
        &mut RealShelf::new(&rt),
        &mut RealSource::new(rt.stdin()),
        &mut RealSink::new(rt.stdout()),
        &mut RealSink::new(rt.stderr()),
        &host,
    );
    ExitCode::from(status)
}
