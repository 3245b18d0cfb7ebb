// Where actors are at home, which no contract says. An operator of the host is called while a worker is held back at its gate exactly
// where neither the operator's actor nor that of its operand is at home in that worker.
//
// By hand: of so many parameters the operand's is the last one, and behind them stand three names and the operator. So with `k`
// parameters before it the operand is actor k and the operator actor k + 4. Of four workers both are at home in worker k, and the
// operator waits for this worker alone.
use crate::gate::Held;
use crate::gated::run;
use lucy_app::program_operators;
use lucy_host::Host;
use std::io::{self, ErrorKind};
use std::sync::atomic::{AtomicU64, Ordering};
use std::thread::Threads;

const WORDS: &str = "words \"run\" \"p\" \"--workers\" \"4\"";

// The parameters, and an item for each.
const INPUTS: [(&str, &str); 4] = [
    ("(x)", "input \"x 1\\n\""),
    ("(a, x)", "input \"a 1\\nx 1\\n\""),
    ("(a, b, x)", "input \"a 1\\nb 1\\nx 1\\n\""),
    ("(a, b, c, x)", "input \"a 1\\nb 1\\nc 1\\nx 1\\n\""),
];

// Whether the operator of a program waits for this worker.
fn waits(
    rt: &(impl AllocGlobal + Threads + Sync),
    program: &str,
    input: &str,
    worker: u32,
) -> io::Result<bool> {
    let alloc = rt.alloc();
    let (Ok(ops), Ok(kinds)) = (program_operators(alloc), program_operators(alloc)) else {
        return Err(ErrorKind::OutOfMemory.into());
    };
    let called = AtomicU64::new(0);
    let host = Host::new(ops, |op: u32, a: i64, b: i64| {
        called.store(1, Ordering::SeqCst);
        kinds.value(op, a, b)
    });
    let gate = Held::new(worker, &called);
    match run(rt, &host, &[WORDS, program, input], &gate)? {
        0 => Ok(gate.is_late()),
        _ => Err(ErrorKind::InvalidData.into()),
    }
}

/// Prints them.
pub(crate) fn show(rt: &(impl Print + AllocGlobal + Threads + Sync)) -> io::Result<()> {
    println!(rt; "= workers that an operator waits for")?;
    for (params, input) in &INPUTS {
        let program = format!(in rt.alloc();
            "file \"p\" \"let node home {params} = o where rec o = p and p = q and q = host max (x, x)\""
        )?;
        print!(rt; "{params}:")?;
        for worker in 0..4u32 {
            if waits(rt, program.as_str(), input, worker)? {
                print!(rt; " {worker}")?;
            }
        }
        println!(rt;)?;
    }
    Ok(())
}
