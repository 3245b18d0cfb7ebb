// What the rows say. It is put together in memory and printed at the end by one call, so that no row but that can fail.
use std::alloc::Global;
use std::fmt::Display;
use std::io::{self, ErrorKind};

// Longer lists are not printed whole.
const MOST_ITEMS: usize = 16;

/// What is printed.
#[derive(Drop)]
pub(crate) struct Page {
    text: String,
    // whether there was memory for all of it
    whole: bool,
}

impl Page {
    /// Nothing so far.
    pub(crate) fn new(alloc: Global) -> Page {
        Page {
            text: String::new(alloc),
            whole: true,
        }
    }

    /// Appends what is shown.
    pub(crate) fn put<T: Display + Drop>(&mut self, it: T) {
        if write!(self.text, "{it}").is_err() {
            self.whole = false;
        }
    }

    /// Appends numbers, each behind a blank.
    pub(crate) fn put_numbers<T: Display + Copy>(&mut self, list: &[T]) {
        for number in list {
            self.put(format_args!(" {number}"));
        }
    }

    /// Appends the rest of a line, which are numbers behind a colon; of many their count and the last one.
    pub(crate) fn put_list(&mut self, list: &[i64]) {
        self.put(":");
        match list.last() {
            Some(last) if list.len() > MOST_ITEMS => {
                self.put(format_args!(" {} items, the last one {last}", list.len()));
            }
            _ => self.put_numbers(list),
        }
        self.put("\n");
    }

    /// Prints what was put; an error, where memory ran out.
    pub(crate) fn print(&self, rt: &impl Print) -> io::Result<()> {
        if !self.whole {
            return Err(ErrorKind::OutOfMemory.into());
        }
        print!(rt; "{}", self.text)
    }
}
