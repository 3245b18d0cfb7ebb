// The types that rules leave to places.
ghost use Rattle.std.specs.Prelude.{◌≡◌, ℕ, ◌+◌, ◌≤◌, ◌<◌, ◌^◌, ◌↔◌, Some, None, length, map, drop, IsTrue, MatchOption, IfOk, OnOk};
ghost use Rattle.std.specs.List.{Contains};
ghost use Rattle.lucy_types.specs.declared.ty.Ty.{Ty as PlaceTy};
ghost use Rattle.lucy_types.specs.declared.ty.Ty.TheVariants as ty;
ghost use Rattle.lucy_types.specs.declared.flood.Reached.{Reached as Step};
ghost use Rattle.lucy_types.specs.Graphs.{AllFit, HasTrue, IsGraph};
ghost use Rattle.lucy_types.specs.Flooding.{mark, reached, MayBegin, IsFixed, IsFlood, IsReached, IsSettled, IsTorn, FloodsForced, FloodsAll, HasFlooded, Tells};
ghost use Rattle.lucy_types.specs.Nodes.{Solves};

use crate::flood::{Flood, dry, flood_from, flood_unless};
use crate::graph::{Graph, graph_of};
use crate::path::path_to;
use crate::rule::Rule;
use crate::ty::Ty;
use std::alloc::{AllocError, Global};

/// The types of places, or a clash path.
#[derive(Drop)]
pub(crate) enum Solution {
    Types(Vec<Ty>),
    Clash(Vec<u32>),
}

// Spreads a type from each of the places that a rule makes so.
fn flood_forced(flood: &mut Flood, graph: &Graph, forced: &[bool], ty: Ty) -> Result<(), AllocError>
    requires graph { IsGraph graph.now }
    requires settled { IsSettled graph.now flood.old }
    requires few { length graph.now.near.items ≤ 2 ^ 32 }
    requires all { length forced.now ≡ length graph.now.near.items }
    requires first { (p : ℕ) → HasTrue forced.now p → 1 ≤ p }
    requires begin { (p : ℕ) → HasTrue forced.now p → MayBegin graph.now p ty }
    requires fixed { IsFixed ty }
    ensures { OnOk result (FloodsForced graph.now (HasTrue forced.now) ty flood.old flood.new) }
{
    'each: for (place, is) in forced.iter().enumerate() {
        if *is {
            flood_unless(flood, graph, place as u32, ty)?;
        }
    }
    Ok(())
}

// Opens a class at each place that was not reached, in order.
fn flood_open(flood: &mut Flood, graph: &Graph, places: u32) -> Result<(), AllocError>
    requires graph { IsGraph graph.now }
    requires settled { IsSettled graph.now flood.old }
    requires all { length graph.now.near.items ≡ places + 1 }
    requires fixed { (p : ℕ) (t : PlaceTy) → mark flood.old p ≡ Some t → IsFixed t }
    ensures { OnOk result (FloodsAll graph.now flood.old flood.new) }
{
    let mut classes = 0u32;
    'each: for place in 1..=places {
        if flood.marks[place as usize].is_none() {
            classes += 1;
            flood_from(flood, graph, place, Ty::Open(classes))?;
        }
    }
    Ok(())
}

// Reaches all places: from those that a rule makes int, then from those that one makes bool, and then the others.
fn flood_all(flood: &mut Flood, graph: &Graph, places: u32) -> Result<(), AllocError>
    requires graph { IsGraph graph.now }
    requires settled { IsSettled graph.now flood.old }
    requires all { length graph.now.near.items ≡ places + 1 }
    requires dry { (p : ℕ) → mark flood.old p ≡ None }
    ensures { OnOk result (HasFlooded graph.now flood.old flood.new) }
{
    flood_forced(flood, graph, &graph.ints, Ty::Int)?;
    flood_forced(flood, graph, &graph.bools, Ty::Bool)?;
    flood_open(flood, graph, places)
}

fn is_int(mark: Option<Ty>) -> bool
    ensures { IsTrue result ↔ (mark ≡ Some ty.Int) }
{
    match mark {
        Some(Ty::Int) => true,
        Some(Ty::Bool) => false,
        Some(Ty::Open(_)) => false,
        None => false,
    }
}

// Whether the place is int, though a rule makes it bool.
fn is_torn(graph: &Graph, flood: &Flood, place: u32) -> bool
    requires graph { IsGraph graph.now }
    requires flood { IsFlood graph.now flood.now }
    requires place { place < length graph.now.near.items }
    ensures { IsTrue result ↔ IsTorn graph.now flood.now place }
{
    graph.bools[place as usize] && is_int(flood.marks[place as usize])
}

// Where in the queue the first place stands that is int, though a rule makes it bool.
fn clash_in(graph: &Graph, flood: &Flood) -> Option<usize>
    requires graph { IsGraph graph.now }
    requires flood { IsFlood graph.now flood.now }
    ensures { MatchOption result ((p : ℕ) → IsTorn graph.now flood.now p → ⊥) (λ at. (at < length flood.now.queue.items) × ((r : Step) → reached flood.now at ≡ Some r → IsTorn graph.now flood.now r.place)) }
{
    'each: for (i, reached) in flood.queue.iter().enumerate() {
        if is_torn(graph, flood, reached.place) {
            return Some(i);
        }
    }
    None
}

// The types of the places from 1 on, all of which were reached.
fn reached_types(alloc: Global, flood: &Flood) -> Result<Vec<Ty>, AllocError>
    requires some { 1 ≤ length flood.now.marks.items }
    requires all { (p : ℕ) → 1 ≤ p → p < length flood.now.marks.items → IsReached flood.now p }
    ensures { IfOk result (λ v. map Some v.items ≡ drop 1 flood.now.marks.items) }
{
    let mut list = Vec::new(alloc);
    'each: for mark in &flood.marks[1..] {
        if let Some(ty) = *mark {
            list.push(ty)?;
        }
    }
    Ok(list)
}

// A clash path, where a place is torn, and else the types of the places, all of which were reached.
fn told(alloc: Global, graph: &Graph, flood: &Flood) -> Result<Solution, AllocError>
    requires graph { IsGraph graph.now }
    requires flood { IsFlood graph.now flood.now }
    requires some { 1 ≤ length flood.now.marks.items }
    requires all { (p : ℕ) → 1 ≤ p → p < length flood.now.marks.items → IsReached flood.now p }
    ensures { IfOk result (λ s. Tells graph.now flood.now s) }
{
    match clash_in(graph, flood) {
        Some(at) => Ok(Solution::Clash(path_to(alloc, graph, flood, at)?)),
        None => Ok(Solution::Types(reached_types(alloc, flood)?)),
    }
}

/// The types that these rules leave to so many places, or a clash path of them.
pub(crate) fn solve(alloc: Global, rules: &[Rule], places: u32) -> Result<Solution, AllocError>
    requires { AllFit (places + 1) rules.now }
    ensures { IfOk result (λ s. Solves (Contains rules.now) places s) }
{
    let graph = graph_of(alloc, rules, places as usize)?;
    let mut flood = dry(alloc, places as usize)?;
    flood_all(&mut flood, &graph, places)?;
    told(alloc, &graph, &flood)
}
