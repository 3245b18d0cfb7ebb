// What is left in memory, and how it is printed.
use lucy_text::MemSink;
use std::alloc::{AllocError, Global};
use std::{io, str};

/// A sink with room for so many bytes.
pub(crate) fn sink(alloc: Global, room: usize) -> Result<MemSink, AllocError> {
    Ok(MemSink::new(Vec::with_capacity(alloc, room)?, 4_096, Vec::new(alloc)))
}

/// Prints each line behind the mark.
pub(crate) fn print_lines(rt: &impl Print, mark: char, bytes: &[u8]) -> io::Result<()> {
    let Ok(text) = str::from_utf8(bytes) else {
        return println!(rt; "{mark} not a text");
    };
    for line in text.lines() {
        println!(rt; "{mark} {line}")?;
    }
    Ok(())
}
