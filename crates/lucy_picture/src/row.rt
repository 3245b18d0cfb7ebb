// The streams of a node.
ghost use Rattle.std.specs.Prelude.{◌≡◌, ◌<◌, ◌∷◌, ◌++◌, [], length, map, IfOk, OnOk};
ghost use Rattle.std.specs.List.{AllByRecursion};
ghost use Rattle.lucy_need.specs.Meeting.{assigned};
ghost use Rattle.lucy_picture.specs.Charts.{chart_row};

use crate::marks::Marks;
use crate::words::word_of;
use lucy_word::Word;
use std::alloc::{AllocError, Global};

/// A stream of a node: its place, from 1, and its marks.
#[derive(Drop)]
pub struct Row {
    pub place: u32,
    pub marks: Marks,
}

// One more row.
fn push(rows: &mut Vec<Row>, row: Row) -> Result<(), AllocError>
    ensures { OnOk result (rows.new.items ≡ rows.old.items ++ row ∷ []) }
{
    rows.push(row)?;
    Ok(())
}

// The row of a place.
fn row_at(alloc: Global, words: &[Word], place: u32, shown: u64) -> Result<Row, AllocError>
    requires { place < length words.now }
    ensures { IfOk result (λ row. row ≡ chart_row (assigned words.now) shown place) }
{
    let marks = Marks::new(alloc, word_of(words, place), shown)?;
    Ok(Row { place, marks })
}

/// The rows of these places, in order, at so many instants.
pub(crate) fn rows(
    alloc: Global,
    words: &[Word],
    places: &[u32],
    shown: u64,
) -> Result<Vec<Row>, AllocError>
    requires { AllByRecursion (λ p. p < length words.now) places.now }
    ensures { IfOk result (λ v. v.items ≡ map (chart_row (assigned words.now) shown) places.now) }
{
    let mut rows = Vec::new(alloc);
    'each: for i in 0..places.len() {
        push(&mut rows, row_at(alloc, words, places[i], shown)?)?;
    }
    Ok(rows)
}
