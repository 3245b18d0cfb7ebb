// The columns of a chronogram: a cell for each instant, and a bar before each period.
ghost use Rattle.std.specs.Prelude.{◌≡◌, ◌++◌, ℕ, replicate, OnOk};
ghost use Rattle.std.specs.Fmt.{decimal};
ghost use Rattle.lucy_picture.specs.Lines as spec;
ghost use Rattle.lucy_picture.specs.Holding.{Extends};

use crate::print::pieces::{put, put_number};
use crate::turn::Turn;
use std::alloc::{AllocError, Global};

/// How the columns stand.
#[derive(Clone, Copy)]
pub(crate) struct Columns {
    /// When all that is shown comes again together.
    pub turn: Option<Turn>,
    /// How many instants are shown.
    pub shown: u64,
    /// How wide a cell is, in bytes.
    pub cell: usize,
    /// How wide the names before the cells are.
    pub margin: usize,
}

// Puts so many blanks last.
fn put_blanks(out: &mut Vec<u8>, count: usize) -> Result<(), AllocError>
    ensures { OnOk result (out.new.items ≡ out.old.items ++ replicate count 32) }
{
    'blanks: for _ in 0..count {
        out.push(b' ')?;
    }
    Ok(())
}

// The sign of a mark.
fn mark_text(mark: bool) -> &'static str
    ensures { result.now ≡ spec.mark_text mark }
{
    if mark { "*" } else { "." }
}

impl Columns {
    // Whether a bar stands before an instant: where a period begins, but not before the first instant.
    fn has_bar(&self, instant: u64) -> bool
        ensures { result ≡ spec.has_bar self.now.turn instant }
    {
        let Some(turn) = self.turn else {
            return false;
        };
        if instant < 2 {
            return false;
        }
        if instant <= turn.prefix {
            return false;
        }
        if turn.period == 0 {
            return false;
        }
        (instant - turn.prefix - 1) % turn.period == 0
    }

    // Puts the bar of an instant last.
    fn put_bar(&self, out: &mut Vec<u8>, instant: u64) -> Result<(), AllocError>
        ensures { OnOk result (out.new.items ≡ out.old.items ++ spec.bar self.now.turn instant) }
    {
        if self.has_bar(instant) {
            put(out, b"|")
        } else {
            Ok(())
        }
    }

    // Puts the cell of an instant last.
    fn put_cell(&self, out: &mut Vec<u8>, instant: u64, text: &[u8]) -> Result<(), AllocError>
        ensures { OnOk result (out.new.items ≡ out.old.items ++ spec.cell_text self.now.turn self.now.cell instant text.now) }
    {
        self.put_bar(out, instant)?;
        put_blanks(out, self.cell.saturating_sub(text.len()))?;
        put(out, text)
    }

    /// Puts a name last, behind an indent, and blanks up to the cells.
    pub(crate) fn put_name(
        &self,
        out: &mut Vec<u8>,
        indent: usize,
        name: &[u8],
    ) -> Result<(), AllocError>
        ensures { OnOk result (out.new.items ≡ out.old.items ++ spec.name_text self.now.margin indent name.now) }
    {
        put_blanks(out, indent)?;
        put(out, name)?;
        let room = self.margin.saturating_sub(indent);
        put_blanks(out, room.saturating_sub(name.len()))
    }

    /// Puts marks last, an `*` where an item is.
    pub(crate) fn put_marks(&self, out: &mut Vec<u8>, marks: &[bool]) -> Result<(), AllocError>
        ensures { OnOk result (out.new.items ≡ out.old.items ++ spec.marks_text self.now.turn self.now.cell marks.now) }
    {
        'each: for (i, mark) in marks.iter().enumerate() {
            self.put_cell(out, i as u64 + 1, mark_text(*mark).as_bytes())?;
        }
        Ok(())
    }

    // Puts the cell of a number last.
    fn put_number(
        &self,
        alloc: Global,
        instant: u64,
        number: u64,
        out: &mut Vec<u8>,
    ) -> Result<(), AllocError>
        ensures { OnOk result (out.new.items ≡ out.old.items ++ spec.cell_text self.now.turn self.now.cell instant (decimal number)) }
    {
        let text = format!(in alloc; "{number}")?;
        self.put_cell(out, instant, text.as_bytes())
    }

    /// Puts numbers last.
    pub(crate) fn put_numbers(
        &self,
        alloc: Global,
        out: &mut Vec<u8>,
        numbers: &[u64],
    ) -> Result<(), AllocError>
        ensures { OnOk result (out.new.items ≡ out.old.items ++ spec.numbers_text self.now.turn self.now.cell numbers.now) }
    {
        'each: for (i, number) in numbers.iter().enumerate() {
            self.put_number(alloc, i as u64 + 1, *number, out)?;
        }
        Ok(())
    }

    // Puts the number of every tenth instant last, from the first on, over the end of its cell at this column, behind a line that is
    // written up to another one; answers up to which it is written then.
    fn put_tick(
        &self,
        alloc: Global,
        instant: u64,
        column: usize,
        written: usize,
        out: &mut Vec<u8>,
    ) -> Result<usize, AllocError>
        ensures { OnOk result (Extends out.old.items out.new.items) }
    {
        if instant % 10 != 1 {
            return Ok(written);
        }
        let before = column.saturating_sub(1);
        put_blanks(out, before.saturating_sub(written))?;
        let begin = out.len();
        put_number(alloc, instant, out)?;
        Ok(before.saturating_add(out.len().saturating_sub(begin)))
    }

    /// Puts the numbers of every tenth instant last, from the first on, each over the end of its cell.
    pub(crate) fn put_ruler(&self, alloc: Global, out: &mut Vec<u8>) -> Result<(), AllocError>
        ensures { OnOk result (Extends out.old.items out.new.items) }
    {
        put_blanks(out, self.margin)?;
        let mut written = 0usize;
        let mut column = 0usize;
        'each: for i in 0..self.shown {
            column = column.saturating_add(usize::from(self.has_bar(i + 1)));
            column = column.saturating_add(self.cell);
            written = self.put_tick(alloc, i + 1, column, written, out)?;
        }
        put(out, b"\n")?;
        Ok(())
    }
}
