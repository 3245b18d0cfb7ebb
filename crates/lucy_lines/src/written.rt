// Lines of values in print.
ghost use Rattle.std.specs.Prelude.{◌≡◌, ◌+◌, ◌≤◌, ◌↔◌, ◌++◌, [], length, vec_capacity, IfOk, IsTrue, if◌then◌else◌};
ghost use Rattle.lucy_lines.specs.Written.{LinesState, line_with, value_text, line_of};

use itoa::Buffer;
use lucy_host::DataType;
use std::alloc::{AllocError, Global};
use std::marker::Model;

// Puts a line behind the bytes, which have the room for it.
fn put_line(bytes: &mut Vec<u8>, name: &[u8], text: &[u8])
    requires { length bytes.old.items + (length name.now + (length text.now + 2)) ≤ vec_capacity bytes.old }
    ensures line { bytes.new.items ≡ bytes.old.items ++ line_with name.now text.now }
    ensures room { vec_capacity bytes.old ≤ vec_capacity bytes.new }
{
    bytes.extend_from_slice(name).unwrap();
    bytes.push(b' ').unwrap();
    bytes.extend_from_slice(text).unwrap();
    bytes.push(b'\n').unwrap();
}

// A truth in print.
fn truth(value: i64) -> &'static [u8]
    ensures text { result.now ≡ value_text DataType.Bool value }
    ensures short { length result.now ≤ 40 }
{
    if value == 0 { b"false" } else { b"true" }
}

// A line of its own.
fn line(alloc: Global, name: &[u8], text: &[u8]) -> Result<Vec<u8>, AllocError>
    requires { length text.now ≤ 40 }
    ensures { IfOk result (λ line. line.items ≡ line_with name.now text.now) }
{
    let mut line = Vec::with_capacity(alloc, name.len() + text.len() + 2)?;
    put_line(&mut line, name, text);
    Ok(line)
}

/// The line of a value: the name, a space, the value and a line feed. A truth is `false` where the value is 0, else `true`.
pub fn value_line(
    alloc: Global,
    name: &[u8],
    holds: DataType,
    value: i64,
) -> Result<Vec<u8>, AllocError>
    ensures { IfOk result (λ line. line.items ≡ line_of name.now holds value) }
{
    match holds {
        DataType::Int => line(alloc, name, Buffer::new().format(value).as_bytes()),
        DataType::Bool => line(alloc, name, truth(value)),
    }
}

/// Lines of values one behind the other, which can be written in one piece. Room for them is taken once. Contracts see the
/// bytes of the lines and for how many bytes there is room in all.
#[derive(Drop)]
pub struct ValueLines {
    bytes: Vec<u8>,
    room: usize,
}

impl Model for ValueLines {
    ghost Value = { LinesState };

    ghost view = { λ lines. record { bytes = lines.bytes.items; room = lines.room } };

    ghost invariant = { λ lines. (length lines.bytes.items ≤ lines.room) × (lines.room ≤ vec_capacity lines.bytes) };
}

impl ValueLines {
    /// No line yet, and room for so many bytes.
    pub fn new(alloc: Global, room: usize) -> Result<ValueLines, AllocError>
        ensures { IfOk result (λ lines. lines ≡ record { bytes = []; room = room }) }
    {
        Ok(ValueLines {
            bytes: Vec::with_capacity(alloc, room)?,
            room,
        })
    }

    // Puts a line behind the others where there is room for it, and says whether there is.
    fn push_line(&mut self, name: &[u8], text: &[u8]) -> bool
        requires { length text.now ≤ 40 }
        ensures fits { IsTrue result ↔ (length self.old.bytes + length (line_with name.now text.now) ≤ self.old.room) }
        ensures lines { self.new ≡ record self.old { bytes = if result then self.old.bytes ++ line_with name.now text.now else self.old.bytes } }
    {
        let fits = name.len() + text.len() + 2 <= self.room - self.bytes.len();
        if fits {
            put_line(&mut self.bytes, name, text);
        }
        fits
    }

    /// Puts the line of a value behind the others where there is room for it, and says whether there is. It takes no memory.
    pub fn push(&mut self, name: &[u8], holds: DataType, value: i64) -> bool
        ensures fits { IsTrue result ↔ (length self.old.bytes + length (line_of name.now holds value) ≤ self.old.room) }
        ensures lines { self.new ≡ record self.old { bytes = if result then self.old.bytes ++ line_of name.now holds value else self.old.bytes } }
    {
        match holds {
            DataType::Int => self.push_line(name, Buffer::new().format(value).as_bytes()),
            DataType::Bool => self.push_line(name, truth(value)),
        }
    }

    /// The lines.
    pub fn bytes(&self) -> &[u8]
        ensures { result.now ≡ self.now.bytes }
    {
        &self.bytes
    }

    /// Forgets the lines and keeps their room.
    pub fn clear(&mut self)
        ensures { self.new ≡ record self.old { bytes = [] } }
    {
        self.bytes.clear();
    }
}
