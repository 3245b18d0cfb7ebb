// Lines of values: one by itself, and more of them than go into one piece.
ghost use Rattle.std.specs.Prelude.{◌≡◌, IfOk, length};

use lucy_host::{DataType, Inputs};
use lucy_lines::{OutputError, OutputSpec, value_line, write_outputs};
use lucy_text::{MemSink, Text};
use lucy_word::Word;
use std::alloc::{AllocError, Global};
use std::{io, str};

/// A list of the value so many times, which is printed under a name of so many bytes, and the writes, by number, that fail.
#[derive(Clone, Copy)]
struct Case {
    name: usize,
    value: i64,
    count: u32,
    fails: u64,
}

// A name of so many bytes.
fn name_of(alloc: Global, length: usize) -> Result<Vec<u8>, AllocError> {
    vec![in alloc; b'n'; length]
}

// An output that has a line at each instant.
fn output(alloc: Global, name: &[u8]) -> Result<OutputSpec, AllocError> {
    let (Ok(name), Ok(word)) = (Text::new(alloc, name), Word::read(alloc, b"(1)")) else {
        return Err(AllocError);
    };
    let holds = DataType::Int;
    Ok(OutputSpec { name, holds, word })
}

// A list of the value so many times.
fn list_of(alloc: Global, value: i64, count: u32) -> Result<Inputs, AllocError>
    ensures { IfOk result (λ lists. length lists ≡ 1) }
{
    let mut lists = Inputs::new(alloc);
    lists.add_list(alloc)?;
    for _ in 0..count {
        lists.push(alloc, 0, value)?;
    }
    Ok(lists)
}

// A sink with room for 100,000 bytes, one of whose writes fails.
fn sink(alloc: Global, fails: u64) -> Result<MemSink, AllocError> {
    let room = Vec::with_capacity(alloc, 100_000)?;
    Ok(MemSink::new(room, 100_000, vec![in alloc; fails]?))
}

// What is answered, and the bytes that are written.
fn written(alloc: Global, case: Case) -> Result<(bool, MemSink), AllocError> {
    let outputs = vec![in alloc; output(alloc, &name_of(alloc, case.name)?)?]?;
    let lists = list_of(alloc, case.value, case.count)?;
    let mut sink = sink(alloc, case.fails)?;
    match write_outputs(alloc, &outputs, &lists, u64::from(case.count), &mut sink) {
        Ok(()) => Ok((true, sink)),
        Err(OutputError::Failed) => Ok((false, sink)),
        Err(OutputError::OutOfMemory) => Err(AllocError),
    }
}

// Whether the bytes are the lines of the case, or the first of them.
fn are_lines(alloc: Global, case: Case, bytes: &[u8]) -> Result<bool, AllocError> {
    let name = name_of(alloc, case.name)?;
    let text = format!(in alloc; " {}\n", case.value)?;
    let mut lines = Vec::new(alloc);
    for _ in 0..case.count {
        lines.extend_from_slice(&name)?;
        lines.extend_from_slice(text.as_bytes())?;
    }
    Ok(lines.starts_with(bytes))
}

fn show_case(rt: &(impl Print + AllocGlobal), case: Case) -> io::Result<()> {
    let Case { name, count, .. } = case;
    let Ok((is_done, sink)) = written(rt.alloc(), case) else {
        return println!(rt; "no memory");
    };
    let is_right = are_lines(rt.alloc(), case, sink.bytes())?;
    println!(rt;
        "{count} lines of a name of {name} bytes: done {is_done}, {} bytes, right {is_right}",
        sink.bytes().len()
    )
}

fn show_line(rt: &(impl Print + AllocGlobal), holds: DataType, value: i64) -> io::Result<()> {
    match value_line(rt.alloc(), b"o", holds, value) {
        Ok(line) => print!(rt; "{}", str::from_utf8(&line).unwrap_or("?")),
        Err(_) => println!(rt; "no memory"),
    }
}

/// Prints lines of values, and how many bytes go to a sink before a write of it fails.
pub(crate) fn show(rt: &(impl Print + AllocGlobal)) -> io::Result<()> {
    show_line(rt, DataType::Int, -12)?;
    show_line(rt, DataType::Int, i64::MIN)?;
    show_line(rt, DataType::Bool, 5)?;
    show_line(rt, DataType::Bool, 0)?;
    let cases = [(4, -123, 3_000, 9), (4, -123, 3_000, 2), (20_000, 5, 2, 9)];
    for (name, value, count, fails) in cases {
        show_case(
            rt,
            Case {
                name,
                value,
                count,
                fails,
            },
        )?;
    }
    Ok(())
}
