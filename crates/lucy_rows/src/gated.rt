// Runs by workers that come to a gate. Two wait for each other there each time, or four, and none looks for the others in vain: so `run`
// goes by workers on threads that are there at the same time, and by blocks, which no contract says. A worker comes exactly where it has
// an actor: of 64 workers five, and where there are no instants nobody comes, since there is no round.
//
// By hand: a round ends once no actor can move, so a block is one round, in which each worker comes once. An instant has ten
// operations, 410 instants have 4,100, and 40 blocks of these 40 rounds. Of blocks of one instant, or of 409, which have 4,090
// operations, the first 16 are rounds, and the later ones are too small for threads.
ghost use Rattle.lucy_host.specs.Host.{Serves};

use crate::gate::{Came, Together};
use crate::row::Row;
use lucy_host::Host;
use lucy_worker::Gate;
use std::io::{self, ErrorKind};
use std::thread::Threads;

const PROGRAM: &str = "file \"p\" \"let node sum x = o where rec o = x + (0 fby o)\"";

const INPUT: &str = "input \"x 1\\nx 2\\nx 3\\n\"";

const BY_TWO: &str = "words \"run\" \"p\" \"--workers\" \"2\"";

const BY_BLOCKS: &str = "words \"run\" \"p\" \"--workers\" \"2\" \"--block\" \"1\"";

const BY_LONG_BLOCKS: &str = "words \"run\" \"p\" \"--workers\" \"2\" \"--block\" \"410\"";

const BY_SHORTER_BLOCKS: &str = "words \"run\" \"p\" \"--workers\" \"2\" \"--block\" \"409\"";

const FORTY_LINES: &str = "input 40 * \"x 1\\n\"";

const LONG_INPUT: &str = "input 16400 * \"x 1\\n\"";

const SHORTER_INPUT: &str = "input 8180 * \"x 1\\n\"";

const LONG_ROOM: &str = "room 131072";

const BY_FOUR: &str = "words \"run\" \"p\" \"--workers\" \"4\" \"--block\" \"1\"";

const BY_THREE: &str = "words \"run\" \"p\" \"--workers\" \"3\"";

const BY_FIVE: &str = "words \"run\" \"p\" \"--workers\" \"5\"";

const BY_64: &str = "words \"run\" \"p\" \"--workers\" \"64\"";

const NO_INSTANTS: &str = "words \"run\" \"p\" \"--instants\" \"0\"";

/// The status of a run on these lines of a row, whose workers come to the gate.
pub(crate) fn run<
    R: AllocGlobal + Threads + Sync,
    F: Fn(u32, i64, i64) -> i64 + Sync,
    G: Gate + Sync,
>(rt: &R, host: &Host<F>, lines: &[&str], gate: &G) -> io::Result<u8>
    requires { Serves F.pre F.post host.now }
{
    let mut row = Row::new(rt.alloc());
    for line in lines {
        if row.take(rt.alloc(), line).is_err() {
            return Err(ErrorKind::InvalidData.into());
        }
    }
    Ok(row.run(rt, rt.alloc(), gate, host)?.status)
}

// So many workers that wait for each other: how often each of them comes, and whether one looks in vain.
fn show_together<F: Fn(u32, i64, i64) -> i64 + Sync>(
    rt: &(impl Print + AllocGlobal + Threads + Sync),
    host: &Host<F>,
    workers: u32,
    lines: &[&str],
) -> io::Result<()>
    requires { Serves F.pre F.post host.now }
{
    let gate = Together::new(workers);
    let status = run(rt, host, lines, &gate)?;
    println!(rt; "status {status}")?;
    gate.print(rt)
}

/// Prints what comes of them.
pub(crate) fn show<F: Fn(u32, i64, i64) -> i64 + Sync>(
    rt: &(impl Print + AllocGlobal + Threads + Sync),
    host: &Host<F>,
) -> io::Result<()>
    requires { Serves F.pre F.post host.now }
{
    println!(rt; "= workers that come to a gate")?;
    show_together(rt, host, 2, &[BY_TWO, PROGRAM, INPUT])?;
    show_together(rt, host, 2, &[BY_BLOCKS, PROGRAM, INPUT])?;
    show_together(
        rt,
        host,
        2,
        &[BY_LONG_BLOCKS, PROGRAM, LONG_INPUT, LONG_ROOM],
    )?;
    show_together(
        rt,
        host,
        2,
        &[BY_SHORTER_BLOCKS, PROGRAM, SHORTER_INPUT, LONG_ROOM],
    )?;
    show_together(rt, host, 2, &[BY_BLOCKS, PROGRAM, FORTY_LINES])?;
    show_together(rt, host, 4, &[BY_FOUR, PROGRAM, INPUT])?;
    for words in [BY_THREE, BY_FIVE, BY_64, NO_INSTANTS] {
        let gate = Came::new();
        let status = run(rt, host, &[words, PROGRAM, INPUT], &gate)?;
        print!(rt; "status {status}, workers")?;
        gate.print(rt)?;
    }
    Ok(())
}
