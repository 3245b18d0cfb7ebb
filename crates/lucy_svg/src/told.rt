// By which streams places are told.
ghost use Rattle.std.specs.Prelude.{◌≡◌, ◌+◌, ◌<◌, ◌∷◌, ◌++◌, [], Some, length, slice_get, IfOk, IfSome, OnOk};
ghost use Rattle.lucy_tree.specs.declared.span.Name.{Name as StreamName};
ghost use Rattle.lucy_place.specs.declared.entry.PlaceKind.TheVariants.{Defined};
ghost use Rattle.lucy_place.specs.declared.placed.PlacedNode.{PlacedNode as Node};
ghost use Rattle.lucy_place.specs.Standing.{at_one};
ghost use Rattle.lucy_program.specs.Names.{place_name};
ghost use Rattle.lucy_svg.specs.Names.{stream_of, told_by, AreTold};
ghost use Rattle.lucy_svg.specs.Telling.{Tells};

use lucy_picture::put_place;
use lucy_place::{PlaceEntry, PlaceKind, PlacedNode};
use std::alloc::{AllocError, Global};
use std::marker::Model;

/// By which stream each place of a node is told, in order, if there is one: a stream by itself, and a place without a name by the first
/// stream that is defined as it. Contracts see their list.
#[derive(Drop)]
pub struct Told {
    streams: Vec<Option<u32>>,
}

impl Model for Told {
    ghost use Rattle.std.specs.Prelude.{List, Option, ℕ};

    ghost Value = { List (Option ℕ) };

    ghost view = { λ told. told.streams.items };
}

// One more stream, or none.
fn push(streams: &mut Vec<Option<u32>>, stream: Option<u32>) -> Result<(), AllocError>
    ensures { OnOk result (streams.new.items ≡ streams.old.items ++ stream ∷ []) }
{
    streams.push(stream)?;
    Ok(())
}

// The entry of a place, by its number from 0.
fn entry_at(node: &PlacedNode, index: usize) -> &PlaceEntry
    requires { index < length node.now.places }
    ensures { slice_get node.now.places index ≡ Some result.now }
{
    let entries = node.places.list();
    &entries[index]
}

// The number of a place from 1, by that from 0.
fn number_of(index: usize) -> Option<u32>
    ensures { IfSome result (λ number. number ≡ index + 1) }
{
    match u32::try_from(index) {
        Ok(number) => number.checked_add(1),
        Err(_) => None,
    }
}

// The number of a place from 1, where it has a name.
fn own(entry: &PlaceEntry, index: usize) -> Option<u32>
    ensures { IfSome result (λ s. (s ≡ index + 1) × ((x : StreamName) × (entry.now.name ≡ Some x))) }
{
    match &entry.name {
        Some(_) => number_of(index),
        None => None,
    }
}

// The place that a stream is defined as.
fn right_of(entry: &PlaceEntry) -> Option<u32>
    ensures { IfSome result (λ p. (entry.now.kind ≡ Defined p) × ((x : StreamName) × (entry.now.name ≡ Some x))) }
{
    match &entry.name {
        None => None,
        Some(_) => match &entry.kind {
            PlaceKind::Defined(right) => Some(*right),
            _ => None,
        },
    }
}

// Tells a place by a stream, if it isn't told yet.
fn tell(streams: &mut Vec<Option<u32>>, place: u32, stream: u32)
    ensures { Tells streams.old.items streams.new.items place stream }
{
    let Some(before) = place.checked_sub(1) else {
        return;
    };
    let index = before as usize;
    if index >= streams.len() || streams[index].is_some() {
        return;
    }
    streams[index] = Some(stream);
}

// Tells the place that a stream is defined as by that stream.
fn tell_right(streams: &mut Vec<Option<u32>>, entry: &PlaceEntry, stream: u32)
    ensures { (n : Node) → at_one n.places stream ≡ Some entry.now → AreTold n streams.old.items → AreTold n streams.new.items }
{
    let Some(right) = right_of(entry) else {
        return;
    };
    tell(streams, right, stream);
}

// Tells the place that the stream of a number from 0 is defined as.
fn tell_at(streams: &mut Vec<Option<u32>>, entry: &PlaceEntry, index: usize)
    ensures { (n : Node) → slice_get n.places index ≡ Some entry.now → AreTold n streams.old.items → AreTold n streams.new.items }
{
    let Some(stream) = number_of(index) else {
        return;
    };
    tell_right(streams, entry, stream);
}

// Each place by itself, where it has a name.
fn own_streams(alloc: Global, node: &PlacedNode) -> Result<Vec<Option<u32>>, AllocError>
    ensures { IfOk result (λ v. AreTold node.now v.items) }
{
    let mut streams = Vec::new(alloc);
    'each: for i in 0..node.places.list().len() {
        push(&mut streams, own(entry_at(node, i), i))?;
    }
    Ok(streams)
}

// Those, and the places that streams are defined as.
fn all_streams(alloc: Global, node: &PlacedNode) -> Result<Vec<Option<u32>>, AllocError>
    ensures { IfOk result (λ v. AreTold node.now v.items) }
{
    let mut streams = own_streams(alloc, node)?;
    'each: for i in 0..node.places.list().len() {
        tell_at(&mut streams, entry_at(node, i), i);
    }
    Ok(streams)
}

impl Told {
    /// Those of a node.
    pub fn new(alloc: Global, node: &PlacedNode) -> Result<Told, AllocError>
        ensures { IfOk result (AreTold node.now) }
    {
        let streams = all_streams(alloc, node)?;
        Ok(Told { streams })
    }

    /// The stream by which a place is told, if there is one.
    pub fn of(&self, place: u32) -> Option<u32>
        ensures { result ≡ stream_of self.now place }
    {
        *self.streams.get(place.checked_sub(1)? as usize)?
    }

    /// The text by which a place of this node is told: the name of its stream, else `#` and its number.
    pub fn text(&self, alloc: Global, node: &PlacedNode, place: u32) -> Result<Vec<u8>, AllocError>
        ensures { IfOk result (λ v. v.items ≡ place_name node.now (told_by self.now place)) }
    {
        let mut text = Vec::new(alloc);
        put_place(alloc, node, self.of(place).unwrap_or(place), &mut text)?;
        Ok(text)
    }
}
