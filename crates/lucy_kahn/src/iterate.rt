// What the lists of the next iterate read.
ghost use Rattle.std.specs.Prelude.{◌≡◌, ◌<◌, ℕ, List, Some, length};
ghost use Rattle.lucy_host.specs.declared.kind.HostKind.{HostKind};
ghost use Rattle.lucy_place.specs.declared.entry.PlaceKind.TheVariants as kind;
ghost use Rattle.lucy_kahn.specs.Spots.{node_at};
ghost use Rattle.lucy_kahn.specs.Instances.{AreInstances};
ghost use Rattle.lucy_kahn.specs.Turns.{StandsIn};
ghost use Rattle.lucy_kahn.specs.Views.{IsBefore, list_after};

use crate::instances::Instances;
use crate::streams::{Lists, lists_at};
use lucy_host::Inputs;
use lucy_place::{Placed, PlacedNode};

/// An iterate of a program, by its number: the lists of each instance. What is made of them besides is the program with its
/// instances, and an input for each parameter of main.
#[derive(Drop)]
pub(crate) struct Iterate<'a> {
    pub placed: &'a Placed,
    pub inputs: &'a Inputs,
    pub instances: &'a Instances,
    pub lists: &'a [Lists],
    pub number: u64,
}

// The node of an instance.
fn node_of<'a>(iterate: &Iterate<'a>, instance: usize) -> &'a PlacedNode
    requires known { (paths : ℕ → List ℕ) × AreInstances iterate.now.placed.now.nodes iterate.now.instances.now.list.items iterate.now.instances.now.inner.items paths }
    requires there { instance < length iterate.now.instances.now.list.items }
    ensures { (paths : ℕ → List ℕ) → AreInstances iterate.now.placed.now.nodes iterate.now.instances.now.list.items iterate.now.instances.now.inner.items paths →
        node_at iterate.now.placed.now.nodes (paths instance) ≡ Some result.now }
{
    iterate.placed.node(iterate.instances.list[instance].node)
}

/// The list that a parameter of an instance reads: its input in main, else that of the call's argument in the instance that
/// calls.
pub(crate) fn param<'a>(iterate: &Iterate<'a>, instance: usize, place: u32) -> &'a [i64]
    requires before { (kinds : List HostKind) × (paths : ℕ → List ℕ) × IsBefore kinds iterate.now paths }
    requires there { instance < length iterate.now.instances.now.list.items }
    requires stands { StandsIn iterate.now.placed.now.nodes iterate.now.instances.now.list.items instance place kind.Param }
    ensures { (kinds : List HostKind) (paths : ℕ → List ℕ) → IsBefore kinds iterate.now paths → result.now ≡ list_after kinds iterate.now (paths instance) place }
{
    match iterate.instances.list[instance].caller {
        None => iterate.inputs.list(place - 1),
        Some(caller) => {
            let outer = node_of(iterate, caller.instance);
            let site = &outer.calls.list()[caller.call as usize - 1];
            let argument = site.args.list()[place as usize - 1];
            lists_at(iterate.lists, caller.instance).at(argument)
        }
    }
}

/// The list that a result of a call reads: that of the result of the node that is called, in the instance that the call makes.
pub(crate) fn returned<'a>(
    iterate: &Iterate<'a>,
    instance: usize,
    place: u32,
    call: u32,
    number: u32,
) -> &'a [i64]
    requires before { (kinds : List HostKind) × (paths : ℕ → List ℕ) × IsBefore kinds iterate.now paths }
    requires there { instance < length iterate.now.instances.now.list.items }
    requires stands { StandsIn iterate.now.placed.now.nodes iterate.now.instances.now.list.items instance place (kind.Result call number) }
    ensures { (kinds : List HostKind) (paths : ℕ → List ℕ) → IsBefore kinds iterate.now paths → result.now ≡ list_after kinds iterate.now (paths instance) place }
{
    let called = iterate.instances.inner[instance] + (call as usize - 1);
    let callee = node_of(iterate, called);
    let place = callee.results.list()[number as usize];
    lists_at(iterate.lists, called).at(place)
}
