// A row of an explanation has the name of a program, behind `check` where all clocks have to be written. Each line that is told is
// printed behind `> `.
use crate::show::print_lines;
use lucy_explain::explain;
use lucy_host::Ops;
use lucy_program::Options;
use std::fs::{self, Files};
use std::io::{self, ErrorKind};

/// Shows a row.
pub(crate) fn show(
    rt: &(impl Print + AllocGlobal + Files),
    ops: &Ops,
    line: &str,
) -> io::Result<()> {
    let (name, written_only) = match line.strip_prefix("check ") {
        Some(name) => (name, true),
        None => (line, false),
    };
    let text = fs::read(rt, format!(in rt.alloc(); "explain/{name}")?.as_str())?;
    let options = Options {
        scale: 1,
        lead: 1,
        written_only,
    };
    match explain(rt.alloc(), &text, ops, &options) {
        Ok(told) => print_lines(rt, '>', &told.text),
        Err(_) => Err(ErrorKind::OutOfMemory.into()),
    }
}
