//! The program with lookup tables: it hands the words, the files and the standard streams to the call that does all the work.
#![tactic(auto)]

use lucy_tables::lucy_table;
use lucy_text::{RealShelf, RealSink, RealSource};
use lucy_worker::OpenGate;
use std::alloc::Global;
use std::env::{self, Env};
use std::io::{self, ErrorKind};
use std::process::ExitCode;

// The words after the program's name.
fn words_of(rt: &(impl Env + AllocGlobal), alloc: Global) -> io::Result<Vec<String>> {
    Ok(env::args(rt)?.skip(1).collect(alloc)?)
}

// Says that memory ran out.
fn out_of_memory(rt: &impl Eprint) -> ExitCode {
    let _ = eprintln!(rt; "lucy: out of memory");
    ExitCode::from(7)
}

fn main(rt: HostRuntime) -> ExitCode {
    let alloc = rt.alloc();
    let words = match words_of(&rt, alloc) {
        Ok(words) => words,
        Err(error) if error.kind() == ErrorKind::OutOfMemory => return out_of_memory(&rt),
        // A word that is no text fits no command.
        Err(_) => Vec::new(alloc),
    };
    let status = lucy_table(
        &rt,
        alloc,
        &words,
        &mut RealShelf::new(&rt),
        &mut RealSource::new(rt.stdin()),
        &mut RealSink::new(rt.stdout()),
        &mut RealSink::new(rt.stderr()),
        &OpenGate,
    );
    ExitCode::from(status)
}
