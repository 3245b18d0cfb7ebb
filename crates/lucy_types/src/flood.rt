// Spreads types from place to place.
ghost use Rattle.std.specs.Prelude.{◌≡◌, ◌+◌, ◌≤◌, ◌<◌, ◌^◌, ◌∷◌, ◌++◌, ◌⊎◌, [], Some, None, length, replicate, slice_set, IfOk, OnOk};
ghost use Rattle.lucy_types.specs.declared.flood.Reached.{Reached as Step};
ghost use Rattle.lucy_types.specs.Graphs.{IsGraph};
ghost use Rattle.lucy_types.specs.Flooding.{mark, reached, MayBegin, Comes, IsFixed, IsNew, IsFlood, IsClosed, IsReached, IsSettled, AreRecent, MayReach, HasGrown, Floods, Settles};

use crate::graph::Graph;
use crate::ty::Ty;
use std::alloc::{AllocError, Global};

/// A place that was reached, and where in the queue the place stands from which it was. The first of a class stands for
/// itself.
#[derive(Clone, Copy)]
pub(crate) struct Reached {
    pub place: u32,
    pub from: usize,
}

/// The places that were reached, in order, and the type of each place that was.
#[derive(Drop)]
pub(crate) struct Flood {
    pub queue: Vec<Reached>,
    pub marks: Vec<Option<Ty>>,
}

/// No place of so many is reached.
pub(crate) fn dry(alloc: Global, places: usize) -> Result<Flood, AllocError>
    requires { places < 2 ^ 32 }
    ensures queue { IfOk result (λ f. f.queue.items ≡ []) }
    ensures marks { IfOk result (λ f. f.marks.items ≡ replicate (places + 1) None) }
{
    let marks = vec![in alloc; None; places + 1]?;
    Ok(Flood {
        queue: Vec::new(alloc),
        marks,
    })
}

// Reaches a place.
fn reach(flood: &mut Flood, place: u32, from: usize, ty: Ty) -> Result<(), AllocError>
    requires { place < length flood.old.marks.items }
    ensures queue { OnOk result (flood.new.queue.items ≡ flood.old.queue.items ++ record { place = place; from = from } ∷ []) }
    ensures marks { OnOk result (flood.new.marks.items ≡ slice_set flood.old.marks.items place (Some ty)) }
{
    flood.queue.push(Reached { place, from })?;
    flood.marks[place as usize] = Some(ty);
    Ok(())
}

// Reaches a place, unless it was.
fn reach_unless(
    flood: &mut Flood,
    graph: &Graph,
    place: u32,
    from: usize,
    ty: Ty,
) -> Result<(), AllocError>
    requires flood { IsFlood graph.now flood.old }
    requires first { 1 ≤ place }
    requires last { place < length graph.now.near.items }
    requires comes { Comes graph.now flood.old place from ty }
    requires may { (mark flood.old place ≡ None) ⊎ (mark flood.old place ≡ Some ty) }
    ensures { OnOk result (HasGrown graph.now place ty flood.old flood.new) }
{
    if flood.marks[place as usize].is_none() {
        reach(flood, place, from, ty)?;
    }
    Ok(())
}

// Reaches the places beside the one that stands at `from` in the queue.
fn reach_near(flood: &mut Flood, graph: &Graph, from: usize, ty: Ty) -> Result<(), AllocError>
    requires graph { IsGraph graph.now }
    requires flood { IsFlood graph.now flood.old }
    requires from { from < length flood.old.queue.items }
    requires ty { (r : Step) → reached flood.old from ≡ Some r → mark flood.old r.place ≡ Some ty }
    requires may { (r : Step) → reached flood.old from ≡ Some r → MayReach graph.now flood.old r.place ty }
    ensures { OnOk result ((r : Step) → reached flood.old from ≡ Some r → Floods graph.now r.place ty flood.old flood.new) }
{
    let place = flood.queue[from].place;
    'each: for near in graph.near[place as usize].list() {
        reach_unless(flood, graph, *near, from, ty)?;
    }
    Ok(())
}

// Spreads a type from the places in the queue from `start` on.
fn spread(flood: &mut Flood, graph: &Graph, start: usize, ty: Ty) -> Result<(), AllocError>
    requires graph { IsGraph graph.now }
    requires flood { IsFlood graph.now flood.old }
    requires closed { IsClosed graph.now flood.old start }
    requires recent { AreRecent flood.old start ty }
    ensures { OnOk result (Settles graph.now ty flood.old flood.new) }
{
    let mut next = start;
    'each: while next < flood.queue.len() {
        reach_near(flood, graph, next, ty)?;
        next += 1;
    }
    Ok(())
}

/// Spreads a type from a place that was not reached.
pub(crate) fn flood_from(
    flood: &mut Flood,
    graph: &Graph,
    place: u32,
    ty: Ty,
) -> Result<(), AllocError>
    requires graph { IsGraph graph.now }
    requires settled { IsSettled graph.now flood.old }
    requires unmarked { mark flood.old place ≡ None }
    requires first { 1 ≤ place }
    requires last { place < length graph.now.near.items }
    requires begin { MayBegin graph.now place ty }
    requires fresh { IsNew flood.old ty }
    ensures settles { OnOk result (Settles graph.now ty flood.old flood.new) }
    ensures reached { OnOk result (mark flood.new place ≡ Some ty) }
{
    let start = flood.queue.len();
    reach_unless(flood, graph, place, start, ty)?;
    spread(flood, graph, start, ty)
}

/// Spreads a type that is no open class from a place, unless it was reached.
pub(crate) fn flood_unless(
    flood: &mut Flood,
    graph: &Graph,
    place: u32,
    ty: Ty,
) -> Result<(), AllocError>
    requires graph { IsGraph graph.now }
    requires settled { IsSettled graph.now flood.old }
    requires first { 1 ≤ place }
    requires last { place < length graph.now.near.items }
    requires begin { MayBegin graph.now place ty }
    requires fixed { IsFixed ty }
    ensures settles { OnOk result (Settles graph.now ty flood.old flood.new) }
    ensures reached { OnOk result (IsReached flood.new place) }
{
    if flood.marks[place as usize].is_none() {
        flood_from(flood, graph, place, ty)?;
    }
    Ok(())
}
