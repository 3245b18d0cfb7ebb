//! The worked rows: each is run through the top call over a shelf, a source and sinks in memory, and what it leaves is
//! printed.
//!
//! The program's words name lists of rows, files in `data/`, whose README says how a row is written.
//!
//! A row is printed as `= NAME`, `status N`, `left N` with the number of bytes left in its source, each line of its
//! output behind `> ` and each line of its faults behind `! `. Behind `>|` or `!|` it is said that the last line has no
//! end. Of a row with a second call the output of the first isn't printed, and behind the rest stands what the second leaves. A line
//! of a list that isn't read is printed behind `? `, with its list and its number. Behind the lists stand runs whose workers come to a
//! gate, where actors are at home, and runs of free threads.
#![tactic(auto)]

ghost use Rattle.lucy_host.specs.Host.{Serves};

mod freed;
mod gate;
mod gated;
mod homes;
mod piece;
mod row;
mod take;
mod wanting;

use lucy_app::program_operators;
use lucy_host::Host;
use lucy_worker::OpenGate;
use row::{End, Row};
use std::io::{self, ErrorKind};
use std::thread::Threads;
use std::{env, fs, str};

// Prints each line behind the mark.
pub(crate) fn print_lines(rt: &impl Print, mark: char, bytes: &[u8]) -> io::Result<()> {
    let Ok(text) = str::from_utf8(bytes) else {
        println!(rt; "{mark}| not a text")?;
        return Ok(());
    };
    for line in text.lines() {
        println!(rt; "{mark} {line}")?;
    }
    if !text.is_empty() && !text.ends_with('\n') {
        println!(rt; "{mark}| no end")?;
    }
    Ok(())
}

// Prints what a call left, with this of its output.
fn print_end(rt: &impl Print, end: &End, output: &[u8]) -> io::Result<()> {
    println!(rt; "status {}", end.status)?;
    println!(rt; "left {}", end.input.left().len())?;
    print_lines(rt, '>', output)?;
    print_lines(rt, '!', end.err.bytes())
}

// Hands the lines to the row. The first of them has this number in the list.
fn take_lines(
    rt: &(impl Print + AllocGlobal),
    list: &str,
    first: usize,
    lines: &str,
    row: &mut Row,
) -> io::Result<()> {
    for (place, line) in lines.split('\n').enumerate() {
        if row.take(rt.alloc(), line).is_err() {
            println!(rt; "? {list} {}: {line}", first.saturating_add(place))?;
        }
    }
    Ok(())
}

// The row of these lines, of which the first has this number, below those that hold for each row.
fn row_of(
    rt: &(impl Print + AllocGlobal),
    list: &str,
    common: &str,
    first: usize,
    lines: &str,
) -> io::Result<Row> {
    let mut row = Row::new(rt.alloc());
    take_lines(rt, list, 1, common, &mut row)?;
    take_lines(rt, list, first, lines, &mut row)?;
    Ok(row)
}

// Runs the rows of a list. What stands above the first of them holds for each.
fn run_list<F: Fn(u32, i64, i64) -> i64 + Sync>(
    rt: &(impl Print + AllocGlobal + Threads + Sync),
    host: &Host<F>,
    list: &str,
    text: &str,
) -> io::Result<()>
    requires { Serves F.pre F.post host.now }
{
    let mut blocks = text.split("\n= ");
    let common = blocks.next().unwrap_or("");
    take_lines(rt, list, 1, common, &mut Row::new(rt.alloc()))?;
    let mut at = common.split('\n').count().saturating_add(1);
    for block in blocks {
        let (name, lines) = block.split_once('\n').unwrap_or((block, ""));
        let first = at.saturating_add(1);
        let row = row_of(rt, list, common, first, lines)?;
        let is_alone = row.second.is_empty();
        println!(rt; "= {name}")?;
        let end = row.run(rt, rt.alloc(), &OpenGate, host)?;
        if is_alone {
            print_end(rt, &end, end.out.bytes())?;
        } else {
            print_end(rt, &end, b"")?;
            let row = row_of(rt, list, common, first, lines)?;
            let second = row.behind(rt.alloc(), end.out.bytes())?;
            let last = second.run(rt, rt.alloc(), &OpenGate, host)?;
            print_end(rt, &last, last.out.bytes())?;
        }
        at = at.saturating_add(block.split('\n').count());
    }
    Ok(())
}

fn main(rt: HostRuntime) -> io::Result<()> {
    let alloc = rt.alloc();
    let (Ok(ops), Ok(kinds)) = (program_operators(alloc), program_operators(alloc)) else {
        return Err(ErrorKind::OutOfMemory.into());
    };
    let host = Host::new(ops, |op: u32, a: i64, b: i64| kinds.value(op, a, b));
    for list in env::args(&rt)?.skip(1) {
        match fs::read_to_string(&rt, list.as_str()) {
            Ok(text) => run_list(&rt, &host, list.as_str(), text.as_str())?,
            Err(_) => println!(rt; "? {list} 0: not read")?,
        }
    }
    gated::show(&rt, &host)?;
    homes::show(&rt)?;
    freed::show(&rt, &host)
}
