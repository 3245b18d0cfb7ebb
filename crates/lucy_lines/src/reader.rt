ghost use Rattle.std.specs.Prelude.{◌≡◌, ◌+◌, ◌<◌, ◌≤◌, ◌^◌, ◌↔◌, ℕ, Bool, List, [], ◌++◌, Some, Ok, true, false, length, IfOk, IfSome, OnOk, OnErr, IsTrue};
ghost use Rattle.lucy_text.specs.Outside.{HasEnded, HasCause, NoneFollows};
ghost use Rattle.lucy_lines.specs.Fronts.{most_bytes, run, front_of};
ghost use Rattle.lucy_lines.specs.Cuts.{Held, bytes_taken, with_more, past};
ghost use Rattle.lucy_lines.specs.Nexts.{Answer, Next};
ghost use Rattle.lucy_lines.specs.Reading.{ReaderState, new_reader, Took, Blames, KeepsGoing, most_taken, OfItem, IsDecided, IsLast};
ghost use Rattle.lucy_lines.specs.Steps.{step_at, Steps, LineSays, HeldAnswers, IsOneRead};

use crate::InputSpec;
use crate::buffer::{Buffer, READ};
use crate::front::{Front, front_at, most_bytes};
use crate::kind::{Kind, kind_of};
use lucy_text::{Failed, Source};
use std::alloc::{AllocError, Global};
use std::marker::Model;

/// What an input line gives.
#[derive(Clone, Copy)]
pub enum Line {
    /// A value of the stream of this number, which counts from 0. A truth is 1 or 0.
    Item { stream: u32, value: i64 },
    /// There is no further item.
    End,
}

/// Why an input ends before its end. Lines count from 1.
#[derive(Clone, Copy)]
pub enum TextFault {
    /// The line isn't a name and a value, or is longer than 4,096 bytes.
    BadLine(u64),
    /// The line's name is no input's.
    UnknownStream(u64),
    /// The line's value is none of its stream.
    BadValue(u64),
    /// A read failed.
    ReadFault,
    /// The line is judged past the 67,108,864 bytes that an input may have.
    TooLong,
}

// What the bytes that are held give next.
#[derive(Clone, Copy)]
enum Step {
    Blank,
    Item { stream: u32, value: i64 },
    Fault(TextFault),
    Open,
}

// What the line of the number, counted from 1, gives by what it says.
fn step_of(said: Kind, number: u64) -> Step
    ensures { result ≡ step_at number said }
{
    match said {
        Kind::Blank => Step::Blank,
        Kind::Item { stream, value } => Step::Item { stream, value },
        Kind::NotTwo => Step::Fault(TextFault::BadLine(number)),
        Kind::Unknown => Step::Fault(TextFault::UnknownStream(number)),
        Kind::NotValue => Step::Fault(TextFault::BadValue(number)),
    }
}

/// Reads the items of an input: lines of a name and a value, parted by spaces or tabs, which may also stand at either end. A
/// line ends with a line feed, or with a carriage return and a line feed; the last one may lack its end. Lines of blanks are
/// passed, and counted. A number is an optional `-` and digits, within 64 bits; a truth is `true` or `false`.
///
/// All its memory is taken when it is made.
#[derive(Drop)]
pub struct InputReader {
    inputs: Vec<InputSpec>,
    buffer: Buffer,
    lines: u64,
    used: u64,
    // How many bytes at the front are known to have no line feed among them, so that none is looked at again where a line
    // comes in small pieces.
    seen: usize,
    closed: bool,
    ended: bool,
}

impl Model for InputReader {
    ghost Value = { ReaderState };

    ghost view = { λ r. record {
      inputs = r.inputs.items;
      held = record { lines = r.lines; used = r.used; rest = r.buffer.held };
      closed = r.closed;
      ended = r.ended;
    } };

    ghost invariant = { λ r.
        (length r.inputs.items < 2 ^ 32) × (r.lines ≤ r.used) × (r.used + length r.buffer.held ≤ most_bytes + 1) × (r.seen ≤ run r.buffer.held) };
}

impl InputReader {
    /// A reader that has read nothing, of fewer than 2^32 inputs.
    pub fn new(alloc: Global, inputs: Vec<InputSpec>) -> Result<InputReader, AllocError>
        requires { length inputs.items < 2 ^ 32 }
        ensures { IfOk result (λ r. r ≡ new_reader inputs.items) }
    {
        let buffer = Buffer::new(alloc)?;
        Ok(InputReader {
            inputs,
            buffer,
            lines: 0,
            used: 0,
            seen: 0,
            closed: false,
            ended: false,
        })
    }

    /// Whether there is nothing more to ask for: the end or a fault was met.
    pub fn ended(&self) -> bool
        ensures { result ≡ self.now.ended }
    {
        self.ended
    }

    // Passes a line, and says what it gives.
    fn line(&mut self, content: usize, length: usize) -> Step
        requires line { front_of self.old.closed self.old.held.used self.old.held.rest ≡ Front.Line content length }
        ensures step { Steps self.old self.new result }
        ensures counted { bytes_taken self.new.held ≡ bytes_taken self.old.held }
    {
        let said = kind_of(&self.inputs, &self.buffer.rest()[..content]);
        self.buffer.pass(length);
        self.seen = 0;
        self.used += length as u64;
        self.lines += 1;
        step_of(said, self.lines)
    }

    // Judges the line at the front of what is held.
    fn step(&mut self) -> Step
        ensures step { Steps self.old self.new result }
        ensures counted { bytes_taken self.new.held ≡ bytes_taken self.old.held }
    {
        match front_at(self.closed, self.used, self.buffer.rest(), self.seen) {
            Front::Line { content, length } => self.line(content, length),
            Front::Long => Step::Fault(TextFault::BadLine(self.lines + 1)),
            Front::Past => Step::Fault(TextFault::TooLong),
            Front::Open => Step::Open,
        }
    }

    // The next answer that what is held decides.
    fn held_line(&mut self) -> Option<Result<Line, TextFault>>
        ensures answer { HeldAnswers self.old self.new.held result }
        ensures kept { self.new ≡ record self.old { held = self.new.held } }
        ensures counted { bytes_taken self.new.held ≡ bytes_taken self.old.held }
    {
        loop {
            match self.step() {
                Step::Blank => {}
                Step::Item { stream, value } => return Some(Ok(Line::Item { stream, value })),
                Step::Fault(fault) => return Some(Err(fault)),
                Step::Open if self.closed => return Some(Ok(Line::End)),
                Step::Open => return None,
            }
        }
    }

    // Takes bytes by one read.
    fn take<I: Source>(&mut self, source: &mut I) -> Result<(), Failed>
        requires { front_of false self.old.held.used self.old.held.rest ≡ Front.Open }
        ensures ok { IfOk result (λ _. (taken : List ℕ) × IsOneRead self.old self.new (I.seen source.old) (I.seen source.new) taken) }
        ensures err { OnErr result ((self.new ≡ self.old) × ((I.seen source.new).left ≡ (I.seen source.old).left)) }
        ensures goes_on { OnOk result (self.new.closed ≡ false → (I.seen source.old).since_stop ≡ Some 0 → (I.seen source.new).since_stop ≡ Some 0) }
        ensures none_follows { NoneFollows (I.seen source.old).since_stop (I.seen source.new).since_stop }
        ensures cause { HasCause (I.seen source.old).faults (I.seen source.new).faults result }
    {
        let held = self.buffer.rest().len();
        let left = most_bytes() + 1 - self.used - held as u64;
        let n = self.buffer.fill(source, left.min(READ as u64) as usize)?;
        self.seen = held;
        self.closed = n == 0;
        Ok(())
    }

    // The next answer, for which it reads as long as none is decided.
    fn read_line<I: Source>(&mut self, source: &mut I) -> Result<Line, TextFault>
        ensures answer { (taken : List ℕ) × Took self.old self.new (I.seen source.old) (I.seen source.new) result taken }
        ensures kept { self.new ≡ record self.old { held = self.new.held; closed = self.new.closed } }
        ensures unread { IsTrue self.old.closed → source.new ≡ source.old }
        ensures needed { (a : Answer) → Next self.old.inputs self.old.closed self.old.held a → IsDecided a → source.new ≡ source.old }
        ensures at_end { self.old.closed ≡ false → self.new.closed ≡ true → HasEnded (I.seen source.new) }
        ensures goes_on { self.new.closed ≡ false → KeepsGoing (I.seen source.old).since_stop (I.seen source.new).since_stop result }
        ensures none_follows { NoneFollows (I.seen source.old).since_stop (I.seen source.new).since_stop }
        ensures cause { Blames (I.seen source.old).faults (I.seen source.new).faults result }
        ensures count { (I.seen source.old).faults ≤ (I.seen source.new).faults }
    {
        loop {
            match self.held_line() {
                Some(answer) => return answer,
                None => match self.take(source) {
                    Ok(()) => {}
                    Err(Failed) => return Err(TextFault::ReadFault),
                },
            }
        }
    }

    /// The next item, or the end. It reads only where the bytes that it holds decide no line, 64 KiB at a time, and takes no
    /// memory. After the end or a fault the reader has ended, and is asked no more.
    ///
    /// Line n, counted from 1, is `BadLine(n)` where it has more than 4,096 bytes before its end, one field, or more than two;
    /// else `UnknownStream(n)` where its first field is no input's name, and else `BadValue(n)` where its second is no value of
    /// the input's type. `TooLong` stands in place of every other answer where the line is judged past the bytes that an input
    /// may have. `ReadFault` comes where a read failed before another line was decided.
    pub fn next_line<I: Source>(&mut self, source: &mut I) -> Result<Line, TextFault>
        requires { self.old.ended ≡ false }
        ensures answer { (taken : List ℕ) × Took self.old self.new (I.seen source.old) (I.seen source.new) result taken }
        ensures inputs { self.new.inputs ≡ self.old.inputs }
        ensures within { bytes_taken self.new.held ≤ most_taken result }
        ensures stream { OfItem (λ stream. stream < length self.old.inputs) result }
        ensures line { OfItem (λ _. self.old.held.used < self.new.held.used) result }
        ensures ended { IsTrue self.new.ended ↔ IsLast result }
        ensures unread { IsTrue self.old.closed → source.new ≡ source.old }
        ensures needed { (a : Answer) → Next self.old.inputs self.old.closed self.old.held a → IsDecided a → source.new ≡ source.old }
        ensures at_end { self.old.closed ≡ false → self.new.closed ≡ true → HasEnded (I.seen source.new) }
        ensures goes_on { self.new.closed ≡ false → KeepsGoing (I.seen source.old).since_stop (I.seen source.new).since_stop result }
        ensures none_follows { NoneFollows (I.seen source.old).since_stop (I.seen source.new).since_stop }
        ensures cause { Blames (I.seen source.old).faults (I.seen source.new).faults result }
        ensures count { (I.seen source.old).faults ≤ (I.seen source.new).faults }
    {
        let answer = self.read_line(source);
        self.ended = !matches!(answer, Ok(Line::Item { .. }));
        answer
    }
}
