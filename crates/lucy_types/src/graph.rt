// The places of a node, joined by its rules.
ghost use Rattle.std.specs.Prelude.{◌≡◌, ◌+◌, ◌<◌, ◌^◌, ◌∷◌, ◌++◌, [], length, replicate, false, IfOk, OnOk};
ghost use Rattle.lucy_types.specs.Graphs.{AllFit, DrawsRule, IsRuleBelow, IsDrawn, IsEven, IsGraph, joined, room};

use crate::rule::Rule;
use lucy_host::DataType;
use std::alloc::{AllocError, Global};
use std::marker::Model;

/// The places that are alike with one by a rule. Contracts see their list.
#[derive(Drop)]
pub(crate) struct Near {
    list: Vec<u32>,
}

impl Model for Near {
    ghost use Rattle.std.specs.Prelude.{List, ℕ};

    ghost Value = { List ℕ };

    ghost view = { λ near. near.list.items };
}

impl Near {
    pub(crate) fn new(alloc: Global) -> Near
        ensures { result ≡ [] }
    {
        Near {
            list: Vec::new(alloc),
        }
    }

    pub(crate) fn list(&self) -> &[u32]
        ensures { result.now ≡ self.now }
    {
        &self.list
    }

    pub(crate) fn add(&mut self, place: u32) -> Result<(), AllocError>
        ensures { OnOk result (self.new ≡ self.old ++ place ∷ []) }
    {
        self.list.push(place)?;
        Ok(())
    }
}

/// For each place whether a rule makes it int, whether one makes it bool, and which places are alike with it by a rule.
/// Places count from 1, and nothing is at 0.
#[derive(Drop)]
pub(crate) struct Graph {
    pub ints: Vec<bool>,
    pub bools: Vec<bool>,
    pub near: Vec<Near>,
}

// The graph of so many places without rules.
fn bare(alloc: Global, places: usize) -> Result<Graph, AllocError>
    requires { places < 2 ^ 32 }
    ensures ints { IfOk result (λ g. g.ints.items ≡ replicate (places + 1) false) }
    ensures bools { IfOk result (λ g. g.bools.items ≡ replicate (places + 1) false) }
    ensures near { IfOk result (λ g. g.near.items ≡ replicate (places + 1) []) }
{
    let ints = vec![in alloc; false; places + 1]?;
    let bools = vec![in alloc; false; places + 1]?;
    let mut near = Vec::new(alloc);
    'each: while near.len() <= places {
        near.push(Near::new(alloc))?;
    }
    Ok(Graph { ints, bools, near })
}

// Joins two places.
fn join(near: &mut [Near], place: u32, other: u32) -> Result<(), AllocError>
    requires place { place < length near.old }
    requires other { other < length near.old }
    ensures { OnOk result (near.new ≡ joined near.old place other) }
{
    near[place as usize].add(other)?;
    near[other as usize].add(place)
}

// Draws a rule.
fn draw(graph: &mut Graph, rule: Rule) -> Result<(), AllocError>
    requires even { IsEven graph.old }
    requires fits { IsRuleBelow (room graph.old) rule }
    ensures { OnOk result (DrawsRule rule graph.old graph.new) }
{
    match rule {
        Rule::Is(place, DataType::Int) => graph.ints[place as usize] = true,
        Rule::Is(place, DataType::Bool) => graph.bools[place as usize] = true,
        Rule::Alike(place, other) => join(&mut graph.near, place, other)?,
    }
    Ok(())
}

/// The graph of so many places with these rules.
pub(crate) fn graph_of(alloc: Global, rules: &[Rule], places: usize) -> Result<Graph, AllocError>
    requires few { places < 2 ^ 32 }
    requires fit { AllFit (places + 1) rules.now }
    ensures room { IfOk result (λ g. room g ≡ places + 1) }
    ensures graph { IfOk result (λ g. IsGraph g) }
    ensures drawn { IfOk result (λ g. IsDrawn rules.now g) }
{
    let mut graph = bare(alloc, places)?;
    'each: for rule in rules {
        draw(&mut graph, *rule)?;
    }
    Ok(graph)
}
