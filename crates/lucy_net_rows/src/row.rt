// A row is a line `KIND|FILE|NUMBERS|ITEMS`. The file in `data/` has the program, and the items are those of its one input; a program
// without inputs has none. Numbers and items are parted by blanks, `1..N` stands for those from 1 to N, and what stands at the end may
// be missing. The numbers are
//
// - of `iterates` the turns, of `picks` actors, of `chance` a seed, of `workers` how many there are,
// - and none of `schedule`, `static`, `picked` and `hand`.
//
// The line `echo` stands for the rows of `echoed.rt`.
use std::fs::{self, Files};

/// What stands behind the kind of a row, with the text of its program.
#[derive(Drop)]
pub(crate) struct Row {
    pub text: String,
    pub numbers: Vec<u32>,
    pub items: Vec<u32>,
}

// Appends numbers, as they stand in a part of a row.
fn put_numbers(numbers: &mut Vec<u32>, part: &str) -> Option<()> {
    if let Some(count) = part.strip_prefix("1..") {
        for before in 0..count.parse::<u32>().ok()? {
            numbers.push(before + 1).ok()?;
        }
        return Some(());
    }
    for word in part.split(' ') {
        if !word.is_empty() {
            numbers.push(word.parse().ok()?).ok()?;
        }
    }
    Some(())
}

impl Row {
    /// Reads what stands behind the kind into a row that says nothing. None, where it isn't so, or memory ran out.
    pub(crate) fn read(&mut self, rt: &(impl AllocGlobal + Files), rest: &str) -> Option<()> {
        let mut parts = rest.split('|');
        self.text = fs::read_to_string(rt, parts.next()?).ok()?;
        put_numbers(&mut self.numbers, parts.next().unwrap_or(""))?;
        put_numbers(&mut self.items, parts.next().unwrap_or(""))
    }
}
