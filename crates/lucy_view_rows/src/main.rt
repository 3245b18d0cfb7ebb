//! Rows of pictures. Its words name lists in `data/`, each line of which is a row. An empty line, and one that begins with `#`, is none.
//!
//! - A list in the folder `wave` has dumps of runs, as `waving.rt` says.
//! - A list in the folder `explain` has explanations, as `explaining.rt` says.
//! - Any other list has calls of `lucy_view`, as `looking.rt` says.
//!
//! A row is printed as `$ ROW`, and behind it what comes of it. The files that it names lie in the folder of its list. `stdout` has what the
//! definitions say of the rows.
#![tactic(auto)]

ghost use Rattle.lucy_host.specs.Host.{Serves};

mod explaining;
mod looking;
mod promised;
mod show;
mod waving;

use lucy_app::program_operators;
use lucy_host::Host;
use std::fs::Files;
use std::io::{self, ErrorKind};
use std::{env, fs};

// Shows the rows of a list.
fn show_list<F: Fn(u32, i64, i64) -> i64 + Sync>(
    rt: &(impl Print + AllocGlobal + Files),
    host: &Host<F>,
    list: &str,
) -> io::Result<()>
    requires { Serves F.pre F.post host.now }
{
    for line in fs::read_to_string(rt, list)?.lines() {
        if !line.is_empty() && !line.starts_with('#') {
            println!(rt; "$ {line}")?;
            match list.split_once('/') {
                Some(("wave", _)) => waving::show(rt, host, line)?,
                Some(("explain", _)) => explaining::show(rt, host.ops(), line)?,
                _ => looking::show(rt, host, line)?,
            }
        }
    }
    Ok(())
}

fn main(rt: HostRuntime) -> io::Result<()> {
    let alloc = rt.alloc();
    let (Ok(ops), Ok(kinds)) = (program_operators(alloc), program_operators(alloc)) else {
        return Err(ErrorKind::OutOfMemory.into());
    };
    let host = Host::new(ops, |op: u32, a: i64, b: i64| kinds.value(op, a, b));
    for list in env::args(&rt)?.skip(1) {
        show_list(&rt, &host, list.as_str())?;
    }
    Ok(())
}
