// Looks for the places and the calls of a node in another one: what is found is tested afterwards. It is safe.
use crate::images::{Images, entry_at, site_at};
use lucy_place::{PlaceEntry, PlaceKind, PlacedNode};
use std::alloc::{AllocError, Global};

// So many numbers, 0 each, and one more.
fn zeros(alloc: Global, count: usize) -> Result<Vec<u32>, AllocError> {
    let mut list = vec![in alloc; 0; count]?;
    list.push(0)?;
    Ok(list)
}

// Keeps a number at a place of a list.
fn keep(list: &mut [u32], at: u32, number: u32) {
    if let Some(slot) = list.get_mut(at as usize) {
        *slot = number;
    }
}

// Whether a place has this name.
fn is_named(entry: &PlaceEntry, name: &[u8]) -> bool {
    match &entry.name {
        Some(other) => other.text.bytes() == name,
        None => false,
    }
}

/// The place of a name, of those behind others.
pub(crate) fn place_of(node: &PlacedNode, name: &[u8], behind: u32) -> Option<u32> {
    let count = u32::try_from(node.places.list().len()).unwrap_or(0);
    for place in behind..count {
        let place = place.saturating_add(1);
        if let Some(entry) = entry_at(node, place) {
            if is_named(entry, name) {
                return Some(place);
            }
        }
    }
    None
}

// Finds the streams, which stand in one order in both.
fn find_streams(node: &PlacedNode, frozen: &PlacedNode, images: &mut Images) {
    let mut behind = 0;
    for (i, entry) in node.places.list().iter().enumerate() {
        if let Some(name) = &entry.name {
            if let Some(found) = place_of(frozen, name.text.bytes(), behind) {
                let place = u32::try_from(i).unwrap_or(u32::MAX).saturating_add(1);
                keep(&mut images.places, place, found);
                behind = found;
            }
        }
    }
}

// Where the form stands that the frozen node reads at a place: behind a name that was given to it.
fn form_at(frozen: &PlacedNode, place: u32) -> u32 {
    match entry_at(frozen, place) {
        Some(entry) => match entry.kind {
            PlaceKind::Defined(right) => right,
            _ => place,
        },
        None => 0,
    }
}

// Finds an operand, which is a stream, and found already, or stands where the frozen node reads it.
fn find_operand(frozen: &PlacedNode, operand: u32, read: u32, images: &mut Images) {
    if images.place(operand) == 0 {
        keep(&mut images.places, operand, form_at(frozen, read));
    }
}

// Finds the arguments of a call, and the call.
fn find_call(both: (&PlacedNode, &PlacedNode), call: u32, other: u32, images: &mut Images) {
    if images.call(call) != 0 {
        return;
    }
    keep(&mut images.calls, call, other);
    if let (Some(site), Some(twin)) = (site_at(both.0, call), site_at(both.1, other)) {
        for (operand, read) in site.args.list().iter().zip(twin.args.list()) {
            find_operand(both.1, *operand, *read, images);
        }
    }
}

// Finds the operands of an operator, of a merge and the like.
fn find_operands(frozen: &PlacedNode, kind: &PlaceKind, twin: &PlaceKind, images: &mut Images) {
    for k in 0..3 {
        if let (Some(operand), Some(read)) = (kind.operand(k), twin.operand(k)) {
            find_operand(frozen, operand, read, images);
        }
    }
}

// Finds what a place reads, once the place is found.
fn find_reads(both: (&PlacedNode, &PlacedNode), place: u32, images: &mut Images) {
    let image = images.place(place);
    if let (Some(entry), Some(twin)) = (entry_at(both.0, place), entry_at(both.1, image)) {
        match (&entry.kind, &twin.kind) {
            (PlaceKind::Result(call, _), PlaceKind::Result(other, _)) => {
                find_call(both, *call, *other, images)
            }
            (kind, twin) => find_operands(both.1, kind, twin, images),
        }
    }
}

/// Where the places and the calls of a node stand in a node that may be the same one with its clocks written out.
pub(crate) fn images_of(
    alloc: Global,
    node: &PlacedNode,
    frozen: &PlacedNode,
) -> Result<Images, AllocError> {
    let mut images = Images {
        places: zeros(alloc, node.places.list().len())?,
        calls: zeros(alloc, node.calls.list().len())?,
    };
    find_streams(node, frozen, &mut images);
    let count = u32::try_from(node.places.list().len()).unwrap_or(0);
    for place in 0..count {
        find_reads((node, frozen), place.saturating_add(1), &mut images);
    }
    Ok(images)
}
