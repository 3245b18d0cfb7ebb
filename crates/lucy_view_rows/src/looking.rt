// A row of `lucy_view` has the words of a call behind the program's name, parted by blanks, and where it reads an input, ` < ` and the
// input's file. Each line of its output is printed behind `> `, each line of its faults behind `! `, and `status N` where that isn't 0.
ghost use Rattle.lucy_host.specs.Host.{Serves};

use crate::promised::look;
use crate::show::{print_lines, sink};
use lucy_host::Host;
use lucy_text::{MemSource, RealShelf};
use std::alloc::{AllocError, Global};
use std::fs::{self, Files};
use std::io;

// The words of a call.
fn words_of(alloc: Global, line: &str) -> Result<Vec<String>, AllocError> {
    let mut words = Vec::new(alloc);
    words.push(String::from_str(alloc, "lucy_view")?)?;
    for word in line.split(' ') {
        words.push(String::from_str(alloc, word)?)?;
    }
    Ok(words)
}

// What a call reads.
fn input_of(rt: &(impl AllocGlobal + Files), file: Option<&str>) -> io::Result<MemSource> {
    let alloc = rt.alloc();
    let text = match file {
        Some(file) => fs::read(rt, file)?,
        None => Vec::new(alloc),
    };
    Ok(MemSource::new(text, 4_096, Vec::new(alloc)))
}

/// Shows a row.
pub(crate) fn show<F: Fn(u32, i64, i64) -> i64 + Sync>(
    rt: &(impl Print + AllocGlobal + Files),
    host: &Host<F>,
    line: &str,
) -> io::Result<()>
    requires { Serves F.pre F.post host.now }
{
    let alloc = rt.alloc();
    let mut out = sink(alloc, 65_536)?;
    let mut err = sink(alloc, 8_192)?;
    let (call, file) = match line.split_once(" < ") {
        Some((call, file)) => (call, Some(file)),
        None => (line, None),
    };
    let words = words_of(alloc, call)?;
    let mut input = input_of(rt, file)?;
    let status = look(
        alloc,
        &words,
        host,
        &mut RealShelf::new(rt),
        &mut input,
        &mut out,
        &mut err,
    );
    print_lines(rt, '>', out.bytes())?;
    print_lines(rt, '!', err.bytes())?;
    if status != 0 {
        println!(rt; "status {status}")?;
    }
    Ok(())
}
