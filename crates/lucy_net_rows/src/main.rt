//! Rows of nets: programs are accepted, and what the public calls of the schedule, the plain interpreter, cores and runners answer of
//! them is printed.
//!
//! The lists stand in `data/`. A line `= NAME` of a list is printed, and any other is a row, as `row.rt` says; an empty line, and one
//! that begins with `#`, says nothing. `stdout` has what the rows print, by the language's papers or worked out by hand beside them.
#![tactic(auto)]

ghost use Rattle.lucy_host.specs.Host.{Serves};

mod by_hand;
mod complete;
mod cores;
mod echo;
mod echoed;
mod handed;
mod interpreted;
mod lists;
mod outputs;
mod page;
mod pair;
mod parity;
mod ready;
mod rounds;
mod row;
mod running;
mod schedules;

use lucy_host::{Host, HostKind, Ops};
use page::Page;
use row::Row;
use std::fs::{self, Files};
use std::io;
use std::thread::Threads;

const LISTS: [&str; 5] = ["schedules", "iterates", "cores", "workers", "limits"];

// Shows what a row answers.
fn show_row<R: AllocGlobal + Files + Threads + Sync, F: Fn(u32, i64, i64) -> i64 + Sync>(
    rt: &R,
    page: &mut Page,
    host: &Host<F>,
    line: &str,
)
    requires { Serves F.pre F.post host.now }
{
    let alloc = rt.alloc();
    let (kind, rest) = line.split_once('|').unwrap_or((line, ""));
    let mut row = Row {
        text: String::new(alloc),
        numbers: Vec::new(alloc),
        items: Vec::new(alloc),
    };
    let is_read = row.read(rt, rest).is_some();
    match kind {
        "echo" => echoed::show(rt, page, host),
        "iterates" if is_read => interpreted::show(page, alloc, host, &row),
        _ if is_read => running::show(rt, page, host, kind, &row),
        _ => page.put("no row\n"),
    };
}

// Shows the rows of a list.
fn show_list<R: AllocGlobal + Files + Threads + Sync, F: Fn(u32, i64, i64) -> i64 + Sync>(
    rt: &R,
    page: &mut Page,
    host: &Host<F>,
    list: &str,
)
    requires { Serves F.pre F.post host.now }
{
    match fs::read_to_string(rt, list) {
        Ok(text) => {
            for line in text.lines() {
                if line.starts_with('=') {
                    page.put(format_args!("{line}\n"));
                } else if !line.is_empty() && !line.starts_with('#') {
                    show_row(rt, page, host, line);
                }
            }
        }
        Err(_) => page.put("no list\n"),
    }
}

// Shows all rows, by a host whose operator is `max` alone.
fn show_all<R: AllocGlobal + Files + Threads + Sync>(rt: &R, page: &mut Page) {
    let mut kinds = Ops::new(rt.alloc());
    let added = kinds.add(rt.alloc(), "max", HostKind::Max);
    match kinds.copy(rt.alloc()) {
        Ok(ops) if added.is_ok() => {
            let host = Host::new(ops, |op: u32, a: i64, b: i64| kinds.value(op, a, b));
            for list in &LISTS {
                show_list(rt, page, &host, list);
            }
        }
        _ => page.put("no memory\n"),
    };
}

fn main(rt: HostRuntime) -> io::Result<()> {
    let mut page = Page::new(rt.alloc());
    show_all(&rt, &mut page);
    page.print(&rt)
}
