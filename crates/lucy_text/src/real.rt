ghost use Rattle.std.specs.Prelude.{◌≡◌, ◌<◌, ◌≤◌, ◌↔◌, false, None, length, is_ok, if◌then◌else◌, IsTrue, IfOk, OnErr};
ghost use Rattle.std.specs.Io.KnownBytes.{ReadConsumes, WriteAppends};
ghost use Rattle.lucy_text.specs.Outside.{HasCause, one_more};

use crate::{Failed, Sink, Source};
use std::io::{Read, Write};

/// A source over a reader, which tells no bytes. Once it has met the end it leaves the reader alone.
#[derive(Drop)]
pub struct RealSource<R> {
    reader: R,
    faults: u64,
    ended: bool,
}

impl<R: Read> RealSource<R> {
    ghost use Rattle.lucy_text.specs.Real.{reader_of, has_ended, read_faults};

    /// A source that has not asked the reader yet.
    pub fn new(reader: R) -> RealSource<R>
        ensures reader { reader_of result ≡ reader }
        ensures faults { read_faults result ≡ 0 }
        ensures ended { has_ended result ≡ false }
    {
        RealSource {
            reader,
            faults: 0,
            ended: false,
        }
    }
}

impl<R: Read> Source for RealSource<R> {
    ghost use Rattle.lucy_text.specs.Real.{reader_of, has_ended, read_faults};

    ghost seen = { λ s. record { left = None; ended = has_ended s; faults = read_faults s; since_stop = None } };

    /// One call of the reader. Any error of it is a fault, an interrupted call too.
    fn read(&mut self, into: &mut [u8]) -> Result<usize, Failed>
        requires { 0 < length into.old }
        ensures within { IfOk result (λ n. n ≤ length into.old) }
        ensures bytes { has_ended self.old ≡ false →
            ReadConsumes (R.remaining (reader_of self.old)) (R.remaining (reader_of self.new)) result into.new }
        ensures once_ended { IsTrue (has_ended self.old) → (result ≡ Ok 0) × (self.new ≡ self.old) }
        ensures ends { IfOk result (λ n. IsTrue (has_ended self.new) ↔ (n ≡ 0)) }
        ensures err { OnErr result (has_ended self.new ≡ false) }
        ensures counts { read_faults self.new
            ≡ (if is_ok result then read_faults self.old else one_more (read_faults self.old)) }
        ensures cause { HasCause (read_faults self.old) (read_faults self.new) result }
    {
        if self.ended {
            return Ok(0);
        }
        match self.reader.read(into) {
            Ok(n) => {
                self.ended = n == 0;
                Ok(n)
            }
            Err(_) => {
                self.faults = self.faults.saturating_add(1);
                Err(Failed)
            }
        }
    }
}

/// A sink over a writer, which tells no bytes. A writer that takes nothing has failed.
#[derive(Drop)]
pub struct RealSink<W> {
    writer: W,
    faults: u64,
}

impl<W: Write> RealSink<W> {
    ghost use Rattle.lucy_text.specs.Real.{writer_of, write_faults};

    /// A sink that has handed the writer nothing yet.
    pub fn new(writer: W) -> RealSink<W>
        ensures writer { writer_of result ≡ writer }
        ensures faults { write_faults result ≡ 0 }
    {
        RealSink { writer, faults: 0 }
    }
}

impl<W: Write> Sink for RealSink<W> {
    ghost use Rattle.lucy_text.specs.Real.{writer_of, write_faults};

    ghost seen = { λ s. record { written = None; faults = write_faults s; since_stop = None } };

    /// One call of the writer. Any error of it is a fault, an interrupted call too. Nothing is
    /// flushed: take a writer that holds nothing back, as std's standard output and files are.
    fn write(&mut self, from: &[u8]) -> Result<usize, Failed>
        requires { 0 < length from.now }
        ensures some { IfOk result (λ n. 0 < n) }
        ensures within { IfOk result (λ n. n ≤ length from.now) }
        ensures bytes { WriteAppends (W.contents (writer_of self.old)) (W.contents (writer_of self.new)) result from.now }
        ensures counts { write_faults self.new
            ≡ (if is_ok result then write_faults self.old else one_more (write_faults self.old)) }
        ensures cause { HasCause (write_faults self.old) (write_faults self.new) result }
    {
        match self.writer.write(from) {
            Ok(n) if n > 0 => Ok(n),
            _ => {
                self.faults = self.faults.saturating_add(1);
                Err(Failed)
            }
        }
    }
}
