// The texts and the numbers of a line.
use std::alloc::{AllocError, AllocFailed, Global};
use std::num::ParseIntError;

/// Why a line isn't read: it is malformed, or memory ran out.
#[derive(Clone, Copy)]
pub(crate) struct Unread;

impl From<AllocError> for Unread {
    fn from(_: AllocError) -> Self {
        Unread
    }
}

impl<T: Drop> From<AllocFailed<T>> for Unread {
    fn from(_: AllocFailed<T>) -> Self {
        Unread
    }
}

impl From<ParseIntError> for Unread {
    fn from(_: ParseIntError) -> Self {
        Unread
    }
}

/// A text, and how often it stands there. It has parts, and the number of the repetition, from 1, stands between two of them.
#[derive(Drop)]
pub(crate) struct Piece {
    pub(crate) times: usize,
    parts: Vec<Vec<u8>>,
}

impl Piece {
    /// Appends the text as it stands in the repetition of this number.
    pub(crate) fn append(
        &self,
        alloc: Global,
        bytes: &mut Vec<u8>,
        number: usize,
    ) -> Result<(), AllocError> {
        let mut is_first = true;
        for part in &self.parts {
            if !is_first {
                bytes.extend_from_slice(format!(in alloc; "{number}")?.as_bytes())?;
            }
            bytes.extend_from_slice(part)?;
            is_first = false;
        }
        Ok(())
    }
}

// The byte of an escape, behind its backslash, and what stands behind it.
fn escape(text: &str) -> Option<(u8, &str)> {
    if let Some(rest) = text.strip_prefix('n') {
        return Some((b'\n', rest));
    }
    if let Some(rest) = text.strip_prefix('r') {
        return Some((b'\r', rest));
    }
    if let Some(rest) = text.strip_prefix('t') {
        return Some((b'\t', rest));
    }
    let (digits, rest) = text.strip_prefix('x')?.split_at_checked(2)?;
    Some((u8::from_str_radix(digits, 16).ok()?, rest))
}

// The bytes of a text in which no number stands.
fn bytes_of(alloc: Global, text: &str) -> Result<Vec<u8>, Unread> {
    let mut bytes = Vec::new(alloc);
    let mut parts = text.split('\\');
    bytes.extend_from_slice(parts.next().unwrap_or("").as_bytes())?;
    for part in parts {
        let Some((byte, rest)) = escape(part) else {
            return Err(Unread);
        };
        bytes.push(byte)?;
        bytes.extend_from_slice(rest.as_bytes())?;
    }
    Ok(bytes)
}

// The parts of a text, as it stands between its quotes.
fn parts_of(alloc: Global, text: &str) -> Result<Vec<Vec<u8>>, Unread> {
    let mut parts = Vec::new(alloc);
    for part in text.split("\\i") {
        parts.push(bytes_of(alloc, part)?)?;
    }
    Ok(parts)
}

// What stands before a text: nothing, or how often it stands there, as `N *`.
fn times_of(before: &str) -> Result<usize, Unread> {
    let before = before.trim();
    if before.is_empty() {
        return Ok(1);
    }
    match before.strip_suffix('*') {
        Some(number) => Ok(number.trim_end().parse()?),
        None => Err(Unread),
    }
}

/// The pieces of a line, each a text between quotes, or `N *` and such a text.
pub(crate) fn pieces(alloc: Global, line: &str) -> Result<Vec<Piece>, Unread> {
    let mut pieces = Vec::new(alloc);
    let line = line.trim_end();
    if line.is_empty() {
        return Ok(pieces);
    }
    let Some(line) = line.strip_suffix('"') else {
        return Err(Unread);
    };
    let mut before = None;
    for part in line.split('"') {
        match before {
            None => before = Some(times_of(part)?),
            Some(times) => {
                let parts = parts_of(alloc, part)?;
                pieces.push(Piece { times, parts })?;
                before = None;
            }
        }
    }
    match before {
        None => Ok(pieces),
        Some(_) => Err(Unread),
    }
}

/// Appends the pieces.
pub(crate) fn append(
    alloc: Global,
    bytes: &mut Vec<u8>,
    pieces: &[Piece],
) -> Result<(), AllocError> {
    for piece in pieces {
        for number in 0..piece.times {
            piece.append(alloc, bytes, number + 1)?;
        }
    }
    Ok(())
}

/// A number from 1.
pub(crate) fn positive(text: &str) -> Result<u64, Unread> {
    match text.parse()? {
        0 => Err(Unread),
        number => Ok(number),
    }
}

/// Numbers from 1, parted by single blanks.
pub(crate) fn positives(alloc: Global, text: &str) -> Result<Vec<u64>, Unread> {
    let mut numbers = Vec::new(alloc);
    for number in text.split(' ') {
        numbers.push(positive(number)?)?;
    }
    Ok(numbers)
}
