// Runs of free threads, and behind them calls with an engine that wants memory. Each is run over a shelf, a source and sinks in
// memory, and what it leaves is printed as that of a row, but for what is left in its source; and then what that engine was asked for.
ghost use Rattle.lucy_host.specs.Host.{Serves};

use crate::print_lines;
use crate::wanting::{Request, Wanting};
use lucy_app::run_with;
use lucy_freely::lucy_free;
use lucy_host::Host;
use lucy_text::{MemShelf, MemSink, MemSource};
use std::alloc::Global;
use std::io;
use std::sync::Wait;
use std::thread::Threads;

const SUM: &str = "let node sum x = o where rec o = x + (0 fby o)";

const SUM_INPUT: &str = "x 1\nx 2\nx 3\n";

const FAULTY_INPUT: &str = "x 1\nx 2\nx maybe\nx 4\n";

const TWICE: &str = "let node twice x = o where rec o = merge (10) x (buffer x)";

const TWICE_INPUT: &str = "x 5\nx 6\nx 7\n";

const PAIRS: &str = "let node pairs x = y where rec y = buffer (x when (10)) + buffer (x when (01))
let node two z = (p, q) where rec p = pairs at (10) (z when (10)) and q = pairs at (01) (z when (01))";

const PAIRS_INPUT: &str = "z 1\nz 2\nz 3\nz 4\nz 5\nz 6\nz 7\nz 8\n";

const FILTER: &str =
    "let node fir x = o where rec d1 = 0 fby x and d2 = 0 fby d1 and s = (x + 2 * d1 + d2) / 4 and y = s when (10) and o = merge (10) y (buffer y)";

const FILTER_INPUT: &str = "x 4\nx 8\nx 12\nx 16\nx 20\n";

const SEVEN: &str = "let node c () = o where rec o = 7";

// What a call is handed: its words, the file `p`, and its input.
#[derive(Clone, Copy)]
struct Row<'a> {
    words: &'a str,
    file: &'a str,
    input: &'a str,
}

// What a call is lent.
#[derive(Drop)]
struct Lent {
    words: Vec<String>,
    shelf: MemShelf,
    input: MemSource,
    out: MemSink,
    err: MemSink,
}

fn lend(alloc: Global, row: Row<'_>) -> io::Result<Lent> {
    let mut words = Vec::new(alloc);
    for word in row.words.split(' ') {
        words.push(String::from_str(alloc, word)?)?;
    }
    let mut files = Vec::new(alloc);
    let name = String::from_str(alloc, "p")?;
    files.push((name, row.file.as_bytes().to_vec(alloc)?))?;
    Ok(Lent {
        words,
        shelf: MemShelf::new(files, Vec::new(alloc)),
        input: MemSource::new(row.input.as_bytes().to_vec(alloc)?, 7, Vec::new(alloc)),
        out: MemSink::new(Vec::with_capacity(alloc, 4096)?, 7, Vec::new(alloc)),
        err: MemSink::new(Vec::with_capacity(alloc, 256)?, 7, Vec::new(alloc)),
    })
}

// Prints what a call left.
fn print_row(rt: &impl Print, row: Row<'_>, status: u8, lent: &Lent) -> io::Result<()> {
    println!(rt; "= {}", row.words)?;
    println!(rt; "status {status}")?;
    print_lines(rt, '>', lent.out.bytes())?;
    print_lines(rt, '!', lent.err.bytes())
}

// A call by free threads.
fn run_freely<F: Fn(u32, i64, i64) -> i64 + Sync>(
    rt: &(impl Print + AllocGlobal + Threads + Wait + Sync),
    host: &Host<F>,
    row: Row<'_>,
) -> io::Result<()>
    requires { Serves F.pre F.post host.now }
{
    let mut lent = lend(rt.alloc(), row)?;
    let status = lucy_free(
        rt,
        rt.alloc(),
        &lent.words,
        &mut lent.shelf,
        &mut lent.input,
        &mut lent.out,
        &mut lent.err,
        host,
    );
    print_row(rt, row, status, &lent)
}

// Prints what an engine was asked for.
fn print_request(rt: &impl Print, request: Option<Request>) -> io::Result<()> {
    match request {
        Some(Request { instants, workers }) => {
            println!(rt; "asked to play {instants} instants by {workers} workers")
        }
        None => println!(rt; "asked for nothing"),
    }
}

// A call with an engine that wants memory.
fn run_wanting<F: Fn(u32, i64, i64) -> i64 + Sync>(
    rt: &(impl Print + AllocGlobal),
    host: &Host<F>,
    row: Row<'_>,
) -> io::Result<()> {
    let mut lent = lend(rt.alloc(), row)?;
    let mut engine = Wanting { request: None };
    let status = run_with(
        rt.alloc(),
        &lent.words,
        &mut lent.shelf,
        &mut lent.input,
        &mut lent.out,
        &mut lent.err,
        &mut engine,
        host,
    );
    print_row(rt, row, status, &lent)?;
    print_request(rt, engine.request)
}

// Runs each program by so many workers.
fn run_programs<F: Fn(u32, i64, i64) -> i64 + Sync>(
    rt: &(impl Print + AllocGlobal + Threads + Wait + Sync),
    host: &Host<F>,
    words: &str,
) -> io::Result<()>
    requires { Serves F.pre F.post host.now }
{
    for (file, input) in [
        (SUM, SUM_INPUT),
        (TWICE, TWICE_INPUT),
        (PAIRS, PAIRS_INPUT),
        (FILTER, FILTER_INPUT),
    ] {
        run_freely(rt, host, Row { words, file, input })?;
    }
    Ok(())
}

/// Prints what comes of them.
pub(crate) fn show<F: Fn(u32, i64, i64) -> i64 + Sync>(
    rt: &(impl Print + AllocGlobal + Threads + Wait + Sync),
    host: &Host<F>,
) -> io::Result<()>
    requires { Serves F.pre F.post host.now }
{
    for words in [
        "run p --workers 1",
        "run p --workers 2",
        "run --workers 4 p",
        "run p --workers 64",
    ] {
        run_programs(rt, host, words)?;
    }
    for (words, file, input) in [
        ("order", SUM, SUM_INPUT),
        ("run p --block 4096", SUM, SUM_INPUT),
        ("kahn p", SUM, SUM_INPUT),
        ("run", SUM, SUM_INPUT),
        ("run q", SUM, SUM_INPUT),
        ("run p --instants 2", SUM, SUM_INPUT),
        ("run p", SEVEN, ""),
        ("run p --instants 3", SEVEN, ""),
        ("run p", SUM, FAULTY_INPUT),
    ] {
        run_freely(rt, host, Row { words, file, input })?;
    }
    println!(rt; "= an engine that wants memory")?;
    let (file, input) = (SUM, SUM_INPUT);
    for words in ["run p", "order"] {
        run_wanting(rt, host, Row { words, file, input })?;
    }
    Ok(())
}
