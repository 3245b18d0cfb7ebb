// The layers of a drawing, for pages that lay it out themselves.
ghost use Rattle.std.specs.Prelude.{ℕ, ◌≡◌, ◌-◌, ◌<◌, Some, length, map, slice_get, IfOk};
ghost use Rattle.lucy_diagram.specs.declared.buffer.DrawnBuffer.{DrawnBuffer as Buffer};
ghost use Rattle.lucy_diagram.specs.Layers.{IsLeft, spares_of, AreLayers, OneLayering};
ghost use Rattle.lucy_diagram.specs.Layering.{ArePassed};

mod ways;
mod work;

use crate::buffer::DrawnBuffer;
use crate::diagram::Diagram;
use std::alloc::{AllocError, Global};
use ways::{Way, chains_of, from_zero, ways_of};
use work::Work;

// The place of the buffer of a number from 0, as it counts from 0.
fn place_of(buffers: &[DrawnBuffer], number: usize) -> usize
    requires { number < length buffers.now }
    ensures { (b : Buffer) → slice_get buffers.now number ≡ Some b → result ≡ b.place - 1 }
{
    from_zero(buffers[number].place)
}

// The places of the buffers, and then all places.
fn spares_of(alloc: Global, diagram: &Diagram) -> Result<Vec<usize>, AllocError>
    ensures { IfOk result (λ v. v.items ≡ spares_of diagram.now) }
{
    let mut spares = Vec::new(alloc);
    'buffers: for i in 0..diagram.buffers.len() {
        spares.push(place_of(&diagram.buffers, i))?;
    }
    'places: for place in 0..diagram.places.len() {
        spares.push(place)?;
    }
    Ok(spares)
}

// The layers of places, where all are found.
fn all_of(alloc: Global, found: &[Option<usize>]) -> Result<Vec<usize>, AllocError>
    requires { (q : ℕ) → IsLeft found.now q → ⊥ }
    ensures { IfOk result (λ v. found.now ≡ map (λ k. Some k) v.items) }
{
    let mut layers = Vec::new(alloc);
    'each: for place in 0..found.len() {
        layers.push(layer_at(found, place))?;
    }
    Ok(layers)
}

// The layer of a place, or 0 where none is found.
fn layer_at(found: &[Option<usize>], place: usize) -> usize
    ensures { (k : ℕ) → slice_get found.now place ≡ Some (Some k) → result ≡ k }
{
    match found.get(place) {
        Some(layer) => layer.unwrap_or(0),
        None => 0,
    }
}

// The layers of so many places, one after another.
fn found_of(alloc: Global, ways: &[Way], spares: &[usize], count: usize) -> Result<Work, AllocError>
    ensures { IfOk result (λ work. ArePassed ways.now spares.now count (length spares.now) work) }
{
    let chains = chains_of(alloc, ways, count)?;
    let mut work = Work::new(alloc, ways, count)?;
    work.settle(ways, &chains)?;
    'each: for number in 0..spares.len() {
        work.take_spare(spares, number, ways, &chains)?;
    }
    Ok(work)
}

/// The layer of each place of a drawing, in order, from 0: the least that is greater than those of the places that it reads, but for what
/// is read across an `fby`. Where each place left stands behind another that is left, the first buffer left, or else the first place, stands
/// behind what is found alone. Results of a call stand no earlier than its first, and in its layer where that alone is read into.
pub fn layers_of(alloc: Global, diagram: &Diagram) -> Result<Vec<usize>, AllocError>
    ensures count { IfOk result (λ v. length v.items ≡ length diagram.now.places.items) }
    ensures layers { IfOk result (λ v. AreLayers diagram.now v.items) }
{
    let ways = ways_of(alloc, diagram)?;
    let spares = spares_of(alloc, diagram)?;
    let work = found_of(alloc, &ways, &spares, diagram.places.len())?;
    let layers = all_of(alloc, &work.found)?;
    Ok(layers)
}

/// A drawing has one list of layers, in whichever order they are found.
pub fn layers_are_determined()
    ensures { OneLayering }
{}
