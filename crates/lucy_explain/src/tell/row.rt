// What an inequality of a shape says, by its position in the table: first those of the clocks in turn, and then those of the needs.
use crate::index::narrow;
use lucy_need::{Need, Needs, Term};
use lucy_shape::{ClockShape, Shape};

/// A position of a clock, from 1; the origin has clock and position 0, as the base has clock 0 and positions from 1.
#[derive(Clone, Copy)]
pub(crate) struct Point {
    pub clock: u32,
    pub position: u64,
}

/// What an inequality is for.
#[derive(Clone, Copy)]
pub(crate) enum Row {
    /// A position stands at instant 1 or later, or that of the base at its own instant.
    Start(u32),
    /// A position stands before the next one.
    Follow(u32),
    /// A clock's ones come again a period later.
    Turn(u32),
    /// An instance of a need, by the need's number from 0.
    Need(usize),
}

// How many positions a clock has.
fn positions(shape: &ClockShape) -> u64 {
    if shape.used {
        shape.lead.saturating_add(shape.ones)
    } else {
        0
    }
}

/// The position that a variable is.
pub(crate) fn point_of(shape: &Shape, variable: u32) -> Point {
    for (clock, shape) in shape.clocks.list().iter().enumerate() {
        let first = u64::from(shape.first);
        let behind = u64::from(variable).saturating_sub(first);
        if first > 0 && u64::from(variable) >= first && behind < positions(shape) {
            return Point {
                clock: narrow(clock),
                position: behind.saturating_add(1),
            };
        }
    }
    Point {
        clock: 0,
        position: 0,
    }
}

// The ones of a term until its clock and its word come again.
fn lead_of(shape: &ClockShape, term: &Term) -> u64 {
    let (prefix, _) = term.word.lengths();
    term.word.ones(shape.lead.max(prefix))
}

// How many instances a need between two terms has.
fn instances(clocks: &[ClockShape], first: &Term, second: &Term) -> u64 {
    let (Some(one), Some(two)) = (
        clocks.get(first.clock as usize),
        clocks.get(second.clock as usize),
    ) else {
        return 0;
    };
    let (ones, length) = first.word.rate();
    let turn = one
        .ones
        .saturating_mul(ones)
        .checked_div(length)
        .unwrap_or(0);
    lead_of(one, first)
        .max(lead_of(two, second))
        .saturating_add(turn)
}

// How many inequalities a need has.
fn rows_of_need(clocks: &[ClockShape], need: &Need) -> u64 {
    match need {
        Need::Equal(first, second) => instances(clocks, first, second).saturating_mul(2),
        Need::Adapt(first, second) => instances(clocks, first, second),
    }
}

// Which of a clock's inequalities comes behind so many others of it, or how many there are.
fn row_of_clock(clock: u32, shape: &ClockShape, behind: u64) -> Result<Row, u64> {
    let positions = positions(shape);
    let starts = if clock == 0 {
        positions.saturating_mul(2)
    } else {
        positions
    };
    let all = starts.saturating_add(positions);
    if behind < starts {
        Ok(Row::Start(clock))
    } else if behind.saturating_add(1) < all {
        Ok(Row::Follow(clock))
    } else if behind < all {
        Ok(Row::Turn(clock))
    } else {
        Err(all)
    }
}

// Which of the clocks' inequalities comes behind so many others, or how many come behind all of these.
fn row_of_clocks(clocks: &[ClockShape], behind: u64) -> Result<Row, u64> {
    let mut behind = behind;
    for (clock, shape) in clocks.iter().enumerate() {
        match row_of_clock(narrow(clock), shape, behind) {
            Ok(row) => return Ok(row),
            Err(rows) => behind = behind.saturating_sub(rows),
        }
    }
    Err(behind)
}

// Which of the needs' inequalities comes behind so many others of them.
fn row_of_needs(clocks: &[ClockShape], needs: &[Need], behind: u64) -> Option<Row> {
    let mut behind = behind;
    for (number, need) in needs.iter().enumerate() {
        let rows = rows_of_need(clocks, need);
        if behind < rows {
            return Some(Row::Need(number));
        }
        behind -= rows;
    }
    None
}

/// What the inequality at a position says, which counts from 0.
pub(crate) fn row_at(needs: &Needs, shape: &Shape, position: u32) -> Option<Row> {
    let clocks = shape.clocks.list();
    match row_of_clocks(clocks, u64::from(position)) {
        Ok(row) => Some(row),
        Err(behind) => row_of_needs(clocks, needs.list.list(), behind),
    }
}
