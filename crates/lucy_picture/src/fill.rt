// How full the buffers of a node are.
ghost use Rattle.std.specs.Prelude.{List, ◌≡◌, ◌<◌, ◌+◌, ◌∷◌, ◌++◌, [], Some, length, map, IfOk, OnOk};
ghost use Rattle.lucy_place.specs.declared.placed.PlacedNode.{PlacedNode as Node};
ghost use Rattle.lucy_place.specs.Standing.{at_one};
ghost use Rattle.lucy_place.specs.Proper.{IsProperNode};
ghost use Rattle.lucy_need.specs.Meeting.{assigned};
ghost use Rattle.lucy_picture.specs.Charts.{waiting, instants, AreFills, IsFill};
ghost use Rattle.lucy_picture.specs.Drawn.{IsDrawn, IsFirstWith};

use crate::marks::Marks;
use crate::words::word_of;
use lucy_clock::{NodeClock, Numbers64};
use lucy_place::PlacedNode;
use lucy_program::first_operand;
use lucy_word::Word;
use std::alloc::{AllocError, Global};

/// A buffer of a node: its number, the place that it reads and its own place, each from 1, and its size in items; the marks of what is
/// written and of what is read; how many items wait at each instant, and the first instant at which as many wait as the size, where it
/// is shown.
#[derive(Drop)]
pub struct Fill {
    pub buffer: u64,
    pub operand: u32,
    pub place: u32,
    pub size: u64,
    pub written: Marks,
    pub read: Marks,
    pub waits: Numbers64,
    pub full: Option<u64>,
}

// One more number.
fn push(numbers: &mut Vec<u64>, number: u64) -> Result<(), AllocError>
    ensures { OnOk result (numbers.new.items ≡ numbers.old.items ++ number ∷ []) }
{
    numbers.push(number)?;
    Ok(())
}

// One more buffer.
fn push_fill(fills: &mut Vec<Fill>, fill: Fill) -> Result<(), AllocError>
    ensures { OnOk result (fills.new.items ≡ fills.old.items ++ fill ∷ []) }
{
    fills.push(fill)?;
    Ok(())
}

// How many items wait at an instant.
fn waiting_at(write: &Word, read: &Word, instant: u64) -> u64
    ensures { result ≡ waiting write.now read.now instant }
{
    write.ones(instant).saturating_sub(read.ones(instant))
}

// How many wait at each of the first instants.
fn waits(alloc: Global, write: &Word, read: &Word, shown: u64) -> Result<Vec<u64>, AllocError>
    ensures { IfOk result (λ v. v.items ≡ map (waiting write.now read.now) (instants shown)) }
{
    let mut waits = Vec::new(alloc);
    'each: for i in 0..shown {
        push(&mut waits, waiting_at(write, read, i + 1))?;
    }
    Ok(waits)
}

// The first instant, from 1, at which so many wait.
fn first_with(waits: &[u64], size: u64) -> Option<u64>
    ensures { IsFirstWith waits.now size result }
{
    'each: for (i, wait) in waits.iter().enumerate() {
        if *wait == size {
            return Some(i as u64 + 1);
        }
    }
    None
}

// The place of a buffer, by its number from 0.
fn place_of(buffers: &[u32], number: usize) -> u32
    requires { number < length buffers.now }
    ensures { at_one buffers.now (number + 1) ≡ Some result }
{
    buffers[number]
}

// Its size.
fn size_of(clock: &NodeClock, number: usize) -> u64
    requires { number < length clock.now.sizes }
    ensures { at_one clock.now.sizes (number + 1) ≡ Some result }
{
    let sizes = clock.sizes.list();
    sizes[number]
}

// The buffer of a number from 0.
fn fill_at(
    alloc: Global,
    node: &PlacedNode,
    clock: &NodeClock,
    number: usize,
    shown: u64,
) -> Result<Fill, AllocError>
    requires proper { (above : List Node) × IsProperNode above node.now }
    requires drawn { IsDrawn node.now clock.now }
    requires number { number < length node.now.buffers }
    ensures { IfOk result (IsFill node.now clock.now shown (number + 1)) }
{
    let words = clock.words.list();
    let buffers = node.buffers.list();
    let place = place_of(buffers, number);
    let operand = first_operand(node, place).unwrap_or(0);
    let size = size_of(clock, number);
    let write = word_of(words, operand);
    let read = word_of(words, place);
    let list = waits(alloc, write, read, shown)?;
    let full = first_with(&list, size);
    Ok(Fill {
        buffer: number as u64 + 1,
        operand,
        place,
        size,
        written: Marks::new(alloc, write, shown)?,
        read: Marks::new(alloc, read, shown)?,
        waits: Numbers64::new(list),
        full,
    })
}

/// The buffers of a node, in order, at so many instants.
pub(crate) fn fills(
    alloc: Global,
    node: &PlacedNode,
    clock: &NodeClock,
    shown: u64,
) -> Result<Vec<Fill>, AllocError>
    requires proper { (above : List Node) × IsProperNode above node.now }
    requires drawn { IsDrawn node.now clock.now }
    ensures { IfOk result (λ v. AreFills node.now clock.now shown v.items) }
{
    let mut fills = Vec::new(alloc);
    'each: for i in 0..node.buffers.list().len() {
        push_fill(&mut fills, fill_at(alloc, node, clock, i, shown)?)?;
    }
    Ok(fills)
}
