// What each line says of its row.
use crate::piece::{Piece, Unread, append, pieces, positive, positives};
use crate::row::{Open, Row};
use std::alloc::Global;

// The piece as a text, in the repetition of this number.
fn text_of(alloc: Global, piece: &Piece, number: usize) -> Result<String, Unread> {
    let mut bytes = Vec::new(alloc);
    piece.append(alloc, &mut bytes, number)?;
    match String::from_utf8(bytes) {
        Ok(text) => Ok(text),
        Err(_) => Err(Unread),
    }
}

// The pieces as one text.
fn joined(alloc: Global, pieces: &[Piece]) -> Result<Vec<u8>, Unread> {
    let mut bytes = Vec::new(alloc);
    append(alloc, &mut bytes, pieces)?;
    Ok(bytes)
}

// Each piece as a word.
fn words(alloc: Global, line: &str) -> Result<Vec<String>, Unread> {
    let mut words = Vec::new(alloc);
    for piece in &pieces(alloc, line)? {
        for number in 0..piece.times {
            words.push(text_of(alloc, piece, number + 1)?)?;
        }
    }
    Ok(words)
}

// Whether the program of this name has lookup tables.
fn has_tables(name: &str) -> Result<bool, Unread> {
    match name {
        "lucy" => Ok(false),
        "lucy_table" => Ok(true),
        _ => Err(Unread),
    }
}

impl Row {
    /// Takes in a line of a list.
    pub(crate) fn take(&mut self, alloc: Global, line: &str) -> Result<(), Unread> {
        if line.is_empty() || line.starts_with('#') {
            return Ok(());
        }
        match line.split_once(' ') {
            Some(("", more)) => self.go_on(alloc, more),
            Some((key, value)) => self.set(alloc, key, value),
            None => self.set(alloc, line, ""),
        }
    }

    // More of the text of the line above.
    fn go_on(&mut self, alloc: Global, line: &str) -> Result<(), Unread> {
        let pieces = pieces(alloc, line)?;
        match self.open {
            Open::Nothing => Err(Unread),
            Open::Input => Ok(append(alloc, &mut self.input, &pieces)?),
            Open::File => match self.files.last_mut() {
                Some((_, bytes)) => Ok(append(alloc, bytes, &pieces)?),
                None => Err(Unread),
            },
        }
    }

    fn set(&mut self, alloc: Global, key: &str, value: &str) -> Result<(), Unread> {
        self.open = Open::Nothing;
        match key {
            "program" => self.tables = has_tables(value)?,
            "words" => self.words = words(alloc, value)?,
            "then" => self.second = words(alloc, value)?,
            "file" => return self.file(alloc, value),
            "input" => {
                self.input = joined(alloc, &pieces(alloc, value)?)?;
                self.open = Open::Input;
            }
            "reads" => self.reads.most = positive(value)? as usize,
            "writes" => self.writes.most = positive(value)? as usize,
            "tells" => self.tells.most = positive(value)? as usize,
            "room" => self.room = value.parse()?,
            "fail" => return self.fail(alloc, value),
            _ => return Err(Unread),
        }
        Ok(())
    }

    // A file: its name, which stands once, and then its bytes.
    fn file(&mut self, alloc: Global, line: &str) -> Result<(), Unread> {
        let pieces = pieces(alloc, line)?;
        let Some((name, text)) = pieces.split_first() else {
            return Err(Unread);
        };
        if name.times != 1 {
            return Err(Unread);
        }
        self.files
            .push((text_of(alloc, name, 1)?, joined(alloc, text)?))?;
        self.open = Open::File;
        Ok(())
    }

    // Which calls fail.
    fn fail(&mut self, alloc: Global, line: &str) -> Result<(), Unread> {
        let Some((calls, numbers)) = line.split_once(' ') else {
            return Err(Unread);
        };
        let numbers = positives(alloc, numbers)?;
        match calls {
            "fetches" => self.fetches = numbers,
            "reads" => self.reads.fails = numbers,
            "writes" => self.writes.fails = numbers,
            "tells" => self.tells.fails = numbers,
            _ => return Err(Unread),
        }
        Ok(())
    }
}
