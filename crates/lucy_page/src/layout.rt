// Where the boxes of a net stand: in columns by layers, and in each column in rows, near the boxes that they read.
use lucy_diagram::{Diagram, layers_of};
use std::alloc::{AllocError, Global};

/// Where the box of a place stands: its column and its row, from 0.
#[derive(Clone, Copy)]
pub(crate) struct Spot {
    pub column: usize,
    pub row: u64,
}

/// A place, from 0, that is to stand in a column, near a row.
#[derive(Clone, Copy)]
struct Wish {
    place: usize,
    column: usize,
    row: u64,
}

// Where a place stands, or in the corner where none does.
pub(crate) fn spot_at(spots: &[Spot], place: usize) -> Spot {
    match spots.get(place) {
        Some(spot) => *spot,
        None => Spot { column: 0, row: 0 },
    }
}

// The places by their columns.
fn wishes(alloc: Global, layers: &[usize]) -> Result<Vec<Wish>, AllocError> {
    let mut wishes = Vec::new(alloc);
    for (place, layer) in layers.iter().enumerate() {
        wishes.push(Wish {
            place,
            column: *layer,
            row: 0,
        })?;
    }
    wishes.sort_by_key(|wish| wish.column)?;
    Ok(wishes)
}

// The first edge to each place, in order, as the edges stand in that order.
fn first_edges(alloc: Global, diagram: &Diagram) -> Result<Vec<usize>, AllocError> {
    let mut firsts = Vec::new(alloc);
    let mut next = 0usize;
    for place in &diagram.places {
        firsts.push(next)?;
        for _ in next..diagram.edges.len() {
            match diagram.edges.get(next) {
                Some(edge) if edge.to == place.place => next = next.saturating_add(1),
                _ => break,
            }
        }
    }
    Ok(firsts)
}

// The row that is the middle of those that a place reads.
fn row_near(diagram: &Diagram, spots: &[Spot], first: usize, place: usize) -> u64 {
    let mut sum = 0u64;
    let mut count = 0u64;
    for number in first..diagram.edges.len() {
        let Some(edge) = diagram.edges.get(number) else {
            break;
        };
        if edge.to as usize != place.saturating_add(1) {
            break;
        }
        if !edge.late {
            let from = spot_at(spots, edge.from.saturating_sub(1) as usize);
            sum = sum.saturating_add(from.row);
            count = count.saturating_add(1);
        }
    }
    if count == 0 { 0 } else { sum / count }
}

// How many of places in order stand in the column of the first.
fn run_of(wishes: &[Wish]) -> usize {
    let Some(first) = wishes.first() else {
        return 0;
    };
    match wishes.iter().position(|wish| wish.column != first.column) {
        Some(end) => end,
        None => wishes.len(),
    }
}

// The places of one column by the rows near which they are to stand.
fn near(
    alloc: Global,
    diagram: &Diagram,
    firsts: &[usize],
    spots: &[Spot],
    column: &[Wish],
) -> Result<Vec<Wish>, AllocError> {
    let mut near = Vec::new(alloc);
    for wish in column {
        let first = match firsts.get(wish.place) {
            Some(first) => *first,
            None => 0,
        };
        near.push(Wish {
            place: wish.place,
            column: wish.column,
            row: row_near(diagram, spots, first, wish.place),
        })?;
    }
    near.sort_by_key(|wish| wish.row)?;
    Ok(near)
}

// Sets places of one column down, each at its row or at the next one that is free.
fn set_down(column: &[Wish], spots: &mut [Spot]) {
    let mut free = 0u64;
    for wish in column {
        let row = wish.row.max(free);
        if wish.place < spots.len() {
            spots[wish.place] = Spot {
                column: wish.column,
                row,
            };
        }
        free = row.saturating_add(1);
    }
}

// A spot for each place, in the corner.
fn corners(alloc: Global, count: usize) -> Result<Vec<Spot>, AllocError> {
    let mut spots = Vec::new(alloc);
    for _ in 0..count {
        spots.push(Spot { column: 0, row: 0 })?;
    }
    Ok(spots)
}

// Sets places down, which are in the order of their columns.
fn set_all(
    alloc: Global,
    diagram: &Diagram,
    firsts: &[usize],
    wishes: &[Wish],
    spots: &mut [Spot],
) -> Result<(), AllocError> {
    let mut at = 0;
    for _ in 0..wishes.len() {
        if at >= wishes.len() {
            break;
        }
        let run = run_of(&wishes[at..]);
        let end = at.saturating_add(run).min(wishes.len());
        let column = near(alloc, diagram, firsts, spots, &wishes[at..end])?;
        set_down(&column, spots);
        at = end;
    }
    Ok(())
}

// Where those places stand, in order.
fn spots_by(alloc: Global, diagram: &Diagram, wishes: &[Wish]) -> Result<Vec<Spot>, AllocError> {
    let firsts = first_edges(alloc, diagram)?;
    let mut spots = corners(alloc, wishes.len())?;
    set_all(alloc, diagram, &firsts, wishes, &mut spots)?;
    Ok(spots)
}

/// Where the box of each place of a net stands, in order: in the column of its layer, and in a row of its own there.
pub(crate) fn spots(alloc: Global, diagram: &Diagram) -> Result<Vec<Spot>, AllocError> {
    let layers = layers_of(alloc, diagram)?;
    let wishes = wishes(alloc, &layers)?;
    Ok(spots_by(alloc, diagram, &wishes)?)
}
