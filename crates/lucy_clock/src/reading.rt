// Which place reads another.
ghost use Rattle.std.specs.Prelude.{ℕ, ◌≡◌, ◌↔◌, ◌≤◌, ◌<◌, ◌^◌, max, None, length, slice_index, slice_set, IsTrue, IfOk, IfErr};
ghost use Rattle.lucy_place.specs.Reads.{AreReadOnce, operands_of};
ghost use Rattle.lucy_place.specs.WrittenNodes.{IsWritten};
ghost use Rattle.lucy_clock.specs.declared.error.ClockError.TheVariants as err;
ghost use Rattle.lucy_clock.specs.Reading.{IsAmong, Marks, ReadOnlyPlaces, AreReadersUpto, AsksFor, MarksLast, AreLasts, CanHandDown};

use crate::error::ClockError;
use lucy_place::{PlaceEntry, PlaceKind, PlacedNode};
use std::alloc::Global;

// Writes a place beside each of its operands.
fn mark(readers: &mut [u32], place: u32, operands: &[u32])
    requires { (q : ℕ) → IsAmong operands.now q → (1 ≤ q) × (q ≤ length readers.old) }
    ensures { Marks place operands.now readers.old readers.new }
{
    'each: for operand in operands {
        readers[*operand as usize - 1] = place;
    }
}

// Writes a place of a kind beside each of its operands.
fn mark_kind(readers: &mut [u32], place: u32, kind: &PlaceKind)
    requires { (q : ℕ) → IsAmong (operands_of kind.now) q → (1 ≤ q) × (q ≤ length readers.old) }
    ensures { Marks place (operands_of kind.now) readers.old readers.new }
{
    match kind {
        PlaceKind::Defined(right) => mark(readers, place, &[*right]),
        PlaceKind::Op(_, args) => mark(readers, place, args.list()),
        PlaceKind::Host(_, first, second) => mark(readers, place, &[*first, *second]),
        PlaceKind::Merge(_, one, zero) => mark(readers, place, &[*one, *zero]),
        PlaceKind::Fby(_, operand) => mark(readers, place, &[*operand]),
        PlaceKind::Param => mark(readers, place, &[]),
        PlaceKind::Lit(_) => mark(readers, place, &[]),
        PlaceKind::When(operand, _) => mark(readers, place, &[*operand]),
        PlaceKind::Buffer(_, operand) => mark(readers, place, &[*operand]),
        PlaceKind::Result(_, _) => mark(readers, place, &[]),
    }
}

// Writes each place beside each of its operands.
fn mark_all(readers: &mut [u32], node: &PlacedNode)
    requires few { length node.now.places < 2 ^ 32 }
    requires all { length readers.old ≡ length node.now.places }
    requires inside { ReadOnlyPlaces node.now }
    requires written { IsWritten node.now }
    requires once { AreReadOnce node.now }
    ensures all { length readers.new ≡ length node.now.places }
    ensures readers { AreReadersUpto node.now (length node.now.places) readers.new }
{
    let places = node.places.list();
    'each: for (i, entry) in places.iter().enumerate() {
        mark_kind(readers, i as u32 + 1, &entry.kind);
    }
}

/// For each place without a name the place that hands down its word.
pub(crate) fn readers(alloc: Global, node: &PlacedNode) -> Result<Vec<u32>, ClockError>
    requires few { length node.now.places < 2 ^ 32 }
    requires inside { ReadOnlyPlaces node.now }
    requires written { IsWritten node.now }
    requires once { AreReadOnce node.now }
    ensures all { IfOk result (λ v. length v.items ≡ length node.now.places) }
    ensures readers { IfOk result (λ v. AreReadersUpto node.now (length node.now.places) v.items) }
    ensures refused { IfErr result (λ e. e ≡ err.OutOfMemory) }
{
    let mut list = vec![in alloc; 0u32; node.places.list().len()]?;
    mark_all(&mut list, node);
    Ok(list)
}

/// Whether the word of a place of a kind is asked for: by itself, if it is a merge, or by the last place that is handed one down
/// by it, if there is one (else it is 0).
pub(crate) fn asks(kind: &PlaceKind, last: u32) -> bool
    ensures { IsTrue result ↔ AsksFor kind.now last }
{
    if last > 0 {
        return true;
    }
    match kind {
        PlaceKind::Merge(..) => true,
        _ => false,
    }
}

// The entry at a place is at least this number from now on.
fn raise(list: &mut [u32], place: usize, number: u32)
    requires { place < length list.old }
    ensures { list.new ≡ slice_set list.old place (max (slice_index list.old place) number) }
{
    if list[place] < number {
        list[place] = number;
    }
}

// Writes a place without a name whose word is asked for beside its reader, unless a later one stands there.
fn mark_last(lasts: &mut [u32], entry: &PlaceEntry, reader: u32, place: u32)
    requires place { (1 ≤ place) × (place ≤ length lasts.old) }
    requires reader { entry.now.name ≡ None → (1 ≤ reader) × (reader < place) }
    ensures { MarksLast entry.now reader place lasts.old lasts.new }
{
    if entry.name.is_some() {
        return;
    }
    if !asks(&entry.kind, lasts[place as usize - 1]) {
        return;
    }
    raise(lasts, reader as usize - 1, place);
}

// Writes each place without a name whose word is asked for beside its reader, from the last place to the first.
fn mark_lasts(lasts: &mut [u32], node: &PlacedNode, readers: &[u32])
    requires size { length lasts.old ≡ length node.now.places }
    requires handing { CanHandDown node.now readers.now }
    ensures size { length lasts.new ≡ length node.now.places }
    ensures lasts { AreLasts node.now lasts.new }
{
    let places = node.places.list();
    let count = places.len();
    'each: for i in 0..count {
        let last = count - i - 1;
        mark_last(lasts, &places[last], readers[last], last as u32 + 1);
    }
}

/// For each place the last place without a name that it hands down a word that is asked for, or 0.
pub(crate) fn lasts(
    alloc: Global,
    node: &PlacedNode,
    readers: &[u32],
) -> Result<Vec<u32>, ClockError>
    requires { CanHandDown node.now readers.now }
    ensures all { IfOk result (λ v. length v.items ≡ length node.now.places) }
    ensures lasts { IfOk result (λ v. AreLasts node.now v.items) }
    ensures refused { IfErr result (λ e. e ≡ err.OutOfMemory) }
{
    let mut list = vec![in alloc; 0u32; node.places.list().len()]?;
    mark_lasts(&mut list, node, readers);
    Ok(list)
}
