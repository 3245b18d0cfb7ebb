// Which places stand behind which.
ghost use Rattle.std.specs.Prelude.{ℕ, ◌≡◌, ◌+◌, ◌-◌, ◌<◌, ◌≤◌, ◌++◌, Some, length, flat_map, slice_get, slice_index, slice_set, IfOk, OnOk};
ghost use Rattle.lucy_diagram.specs.Layers.{gap, read_ways, result_way, result_ways, ways_of};
ghost use Rattle.lucy_diagram.specs.Layering.{AreChained};

use crate::call::{DrawnCall, drawn_at};
use crate::diagram::Diagram;
use crate::edge::{Edge, edge_at};
use std::alloc::{AllocError, Global};

/// That a place stands behind another: as one that reads it, or as another result of its call. Both count from 0.
#[derive(Clone, Copy)]
pub(crate) struct Way {
    pub from: usize,
    pub to: usize,
    pub is_read: bool,
}

/// The ways from each place, as a chain of numbers of ways, from 1: that of the last one from each place, and for each way that of the
/// one before it from the same place; 0 where there is none.
#[derive(Drop)]
pub(crate) struct Chains {
    pub last: Vec<usize>,
    pub before: Vec<usize>,
}

/// A number of a list, and 0 past its end.
pub(crate) fn at(list: &[usize], index: usize) -> usize
    ensures { result ≡ slice_index list.now index }
{
    match list.get(index) {
        Some(number) => *number,
        None => 0,
    }
}

/// Sets a number of a list, where there is this one.
pub(crate) fn set(list: &mut [usize], index: usize, number: usize)
    ensures { list.new ≡ slice_set list.old index number }
{
    if index < list.len() {
        list[index] = number;
    }
}

/// The way of a number from 0.
pub(crate) fn way_at(ways: &[Way], number: usize) -> &Way
    requires { number < length ways.now }
    ensures { slice_get ways.now number ≡ Some result.now }
{
    &ways[number]
}

/// How far a place stands behind another at least.
pub(crate) fn gap(way: &Way) -> usize
    ensures is { result ≡ gap way.now }
    ensures small { result ≤ 1 }
{
    if way.is_read { 1 } else { 0 }
}

/// The number of a place, from 1, as it counts from 0.
pub(crate) fn from_zero(place: u32) -> usize
    ensures { result ≡ place - 1 }
{
    place.saturating_sub(1) as usize
}

// Puts the way along an edge last, unless it is late.
fn put_read(edge: &Edge, ways: &mut Vec<Way>) -> Result<(), AllocError>
    ensures { OnOk result (ways.new.items ≡ ways.old.items ++ read_ways edge.now) }
{
    if edge.late {
        return Ok(());
    }
    ways.push(Way {
        from: from_zero(edge.from),
        to: from_zero(edge.to),
        is_read: true,
    })?;
    Ok(())
}

// Puts the ways along edges last.
fn put_reads(edges: &[Edge], ways: &mut Vec<Way>) -> Result<(), AllocError>
    ensures { OnOk result (ways.new.items ≡ ways.old.items ++ flat_map read_ways edges.now) }
{
    'each: for i in 0..edges.len() {
        put_read(edge_at(edges, i), ways)?;
    }
    Ok(())
}

// The way from the first result of a call to that of a number from 0.
fn result_way(call: &DrawnCall, number: u32) -> Way
    ensures { result ≡ result_way call.now number }
{
    let from = from_zero(call.first);
    Way {
        from,
        to: from + number as usize,
        is_read: false,
    }
}

// Puts the ways from the first result of a call to the others last.
fn put_results(call: &DrawnCall, ways: &mut Vec<Way>) -> Result<(), AllocError>
    ensures { OnOk result (ways.new.items ≡ ways.old.items ++ result_ways call.now) }
{
    'each: for number in 1..call.results {
        ways.push(result_way(call, number))?;
    }
    Ok(())
}

// Puts those of calls last.
fn put_calls(calls: &[DrawnCall], ways: &mut Vec<Way>) -> Result<(), AllocError>
    ensures { OnOk result (ways.new.items ≡ ways.old.items ++ flat_map result_ways calls.now) }
{
    'each: for i in 0..calls.len() {
        put_results(drawn_at(calls, i), ways)?;
    }
    Ok(())
}

/// The ways of a drawing.
pub(crate) fn ways_of(alloc: Global, diagram: &Diagram) -> Result<Vec<Way>, AllocError>
    ensures { IfOk result (λ v. v.items ≡ ways_of diagram.now) }
{
    let mut ways = Vec::new(alloc);
    put_reads(&diagram.edges, &mut ways)?;
    put_calls(&diagram.calls, &mut ways)?;
    Ok(ways)
}

/// The chains of ways between so many places.
pub(crate) fn chains_of(alloc: Global, ways: &[Way], count: usize) -> Result<Chains, AllocError>
    ensures chained { IfOk result (λ chains. AreChained ways.now (length ways.now) chains.last.items chains.before.items) }
    ensures count { IfOk result (λ chains. length chains.last.items ≡ count) }
{
    let mut last = vec![in alloc; 0usize; count]?;
    let mut before = Vec::new(alloc);
    'each: for i in 0..ways.len() {
        let from = way_at(ways, i).from;
        before.push(at(&last, from))?;
        set(&mut last, from, i + 1);
    }
    Ok(Chains { last, before })
}
