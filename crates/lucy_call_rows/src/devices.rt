// The forms of sources, sinks and shelves over std's readers, writers and files.
use lucy_text::{
    Failed, RealShelf, RealSink, RealSource, Shelf, ShelfError, Sink, Source, SteadyShelf,
    write_all,
};
use std::alloc::{AllocError, Global};
use std::collections::VecDeque;
use std::fs::{self, Files};
use std::io::{self, ErrorKind, Read, Write};
use std::str;

// Of longer files the number of bytes is shown.
const MOST_SHOWN: usize = 64;

/// Gives bytes, then an error, then the end, and then bytes again.
#[derive(Drop)]
struct Revives {
    calls: u8,
}

impl Read for Revives {
    fn read(&mut self, buf: &mut [u8]) -> io::Result<usize> {
        self.calls = self.calls.saturating_add(1);
        match self.calls {
            2 => Err(ErrorKind::Other.into()),
            3 => Ok(0),
            _ => {
                buf.fill(b'r');
                Ok(buf.len())
            }
        }
    }
}

/// Takes a byte, then none, then fails.
#[derive(Drop)]
struct Tires {
    calls: u8,
}

impl Write for Tires {
    fn write(&mut self, buf: &[u8]) -> io::Result<usize> {
        self.calls = self.calls.saturating_add(1);
        match self.calls {
            1 => Ok(buf.len().min(1)),
            2 => Ok(0),
            _ => Err(ErrorKind::Other.into()),
        }
    }

    fn flush(&mut self) -> io::Result<()> {
        Ok(())
    }
}

// A source stays at its end, and a sink fails where nothing is taken.
fn show_streams(rt: &(impl Print + AllocGlobal)) -> io::Result<()> {
    let mut source = RealSource::new(Revives { calls: 0 });
    for _ in 0..4u32 {
        match source.read(&mut [0; 4]) {
            Ok(n) => print!(rt; "read {n}, ")?,
            Err(Failed) => print!(rt; "read failed, ")?,
        }
    }
    let mut sink = RealSink::new(Tires { calls: 0 });
    for _ in 0..3u32 {
        match sink.write(b"abc") {
            Ok(n) => print!(rt; "written {n}, ")?,
            Err(Failed) => print!(rt; "write failed, ")?,
        }
    }
    let mut taken = VecDeque::new(rt.alloc());
    let is_done = write_all(&mut RealSink::new(&mut taken), b"abc").is_ok();
    println!(rt; "all written {is_done}, {} bytes", taken.len())
}

fn show_file<S: Shelf>(
    rt: &(impl Print + AllocGlobal),
    shelf: &mut S,
    name: &str,
    limit: u64,
) -> io::Result<()> {
    match shelf.fetch(rt.alloc(), name, limit) {
        Ok(bytes) if bytes.len() > MOST_SHOWN => {
            println!(rt; "'{name}' {limit}: {} bytes", bytes.len())
        }
        Ok(bytes) => println!(rt;
            "'{name}' {limit}: {}",
            str::from_utf8(&bytes).unwrap_or("?")
        ),
        Err(ShelfError::TooLong) => println!(rt; "'{name}' {limit}: too long"),
        Err(ShelfError::Missing) => println!(rt; "'{name}' {limit}: missing"),
        Err(ShelfError::Failed) => println!(rt; "'{name}' {limit}: failed"),
        Err(ShelfError::OutOfMemory) => println!(rt; "no memory"),
    }
}

// A shelf of three files in memory, of which two have one name.
fn steady(alloc: Global) -> Result<SteadyShelf, AllocError> {
    let mut files = Vec::new(alloc);
    for (name, text) in [("a", "one"), ("b", ""), ("a", "another")] {
        let bytes = text.as_bytes().to_vec(alloc)?;
        files.push((String::from_str(alloc, name)?, bytes))?;
    }
    Ok(SteadyShelf::new(files))
}

/// Prints what streams and files of std give, and files in memory.
pub(crate) fn show<R: Print + AllocGlobal + Files>(rt: &R) -> io::Result<()> {
    show_streams(rt)?;
    let mut steady = steady(rt.alloc())?;
    for (name, limit) in [("a", 3), ("a", 2), ("b", 0), ("c", 9)] {
        show_file(rt, &mut steady, name, limit)?;
    }
    fs::write(rt, "file", "one")?;
    fs::write(rt, "file ", "another")?;
    fs::write(rt, "long", &vec![in rt.alloc(); b'l'; 70_000]?)?;
    let cases = [
        ("file", 3),
        ("file", 2),
        ("file ", 7),
        ("file ", 6),
        ("long", 70_000),
        ("long", 69_999),
        ("long", 65_535),
        ("long", 3),
        ("no file", 9),
        (".", 9),
    ];
    for (name, limit) in cases {
        show_file(rt, &mut RealShelf::new(rt), name, limit)?;
    }
    fs::remove_file(rt, "long")?;
    fs::remove_file(rt, "file ")?;
    fs::remove_file(rt, "file")
}
