// A row of a dump names a program and an input, and the instants that are given; `-` stands for none. Each line of the dump is printed
// behind `> `, and how the run ended where it isn't done.
ghost use Rattle.lucy_host.specs.Host.{Serves};
ghost use Rattle.lucy_program.specs.Inferring.{AreOptions};

use crate::show::{print_lines, sink};
use lucy_front::accept;
use lucy_host::Host;
use lucy_program::Options;
use lucy_run::Ending;
use lucy_text::MemSource;
use lucy_wave::wave;
use std::fs::{self, Files};
use std::io;

// How the clocks of a program are found.
const OPTIONS: Options = Options {
    scale: 1,
    lead: 1,
    written_only: false,
};

// The bytes of a file, or none.
fn bytes_of(rt: &(impl AllocGlobal + Files), name: &str) -> io::Result<Vec<u8>> {
    if name == "-" {
        return Ok(Vec::new(rt.alloc()));
    }
    fs::read(rt, format!(in rt.alloc(); "wave/{name}")?.as_str())
}

// Prints how a run ended, where it isn't done.
fn print_ending(rt: &impl Print, ending: Ending) -> io::Result<()> {
    match ending {
        Ending::Done => Ok(()),
        Ending::Input(_) => println!(rt; "a fault of the input"),
        Ending::Limit(_) => println!(rt; "a limit"),
        Ending::WriteFault => println!(rt; "a write fault"),
        Ending::OutOfMemory => println!(rt; "out of memory"),
    }
}

// Runs a program on an input.
fn run<F: Fn(u32, i64, i64) -> i64 + Sync>(
    rt: &(impl Print + AllocGlobal + Files),
    host: &Host<F>,
    program: &str,
    input: &str,
    instants: Option<u64>,
) -> io::Result<()>
    requires { Serves F.pre F.post host.now }
{
    let alloc = rt.alloc();
    let text = bytes_of(rt, program)?;
    let mut source = MemSource::new(bytes_of(rt, input)?, 4_096, Vec::new(alloc));
    let mut out = sink(alloc, 16_777_216)?;
    let Ok(accepted) = accept(alloc, &text, host.ops(), &OPTIONS) else {
        return println!(rt; "refused");
    };
    let instants = match instants {
        Some(instants) => Some(instants.min(1_048_576)),
        None if accepted.inputs.is_empty() => Some(0),
        None => None,
    };
    let ending = wave(alloc, accepted, host, instants, &mut source, &mut out);
    print_lines(rt, '>', out.bytes())?;
    print_ending(rt, ending)
}

/// Shows a row.
pub(crate) fn show<F: Fn(u32, i64, i64) -> i64 + Sync>(
    rt: &(impl Print + AllocGlobal + Files),
    host: &Host<F>,
    line: &str,
) -> io::Result<()>
    requires { Serves F.pre F.post host.now }
{
    let mut words = line.split(' ');
    match (words.next(), words.next(), words.next()) {
        (Some(program), Some(input), Some(instants)) => {
            run(rt, host, program, input, instants.parse().ok())
        }
        _ => println!(rt; "no row"),
    }
}
