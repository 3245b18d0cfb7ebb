// What the callers of nodes need of their clocks.
ghost use Rattle.std.specs.Prelude.{ℕ, ◌≡◌, ◌+◌, ◌<◌, ◌≤◌, Some, length, map, take, slice_get, IfOk};
ghost use Rattle.std.specs.List.{AllByRecursion};
ghost use Rattle.lucy_place.specs.declared.placed.PlacedNode.{PlacedNode as Node};
ghost use Rattle.lucy_place.specs.Proper.{AreProper};
ghost use Rattle.lucy_need.specs.Meeting.{assigned};
ghost use Rattle.lucy_clock.specs.declared.node_clock.NodeClock.{NodeClock as Clock};
ghost use Rattle.lucy_clock.specs.Clocks.{AreSignatures, clocks_of};
ghost use Rattle.lucy_clock.specs.NodeClocks.{ports, signatures};

use crate::node_clock::NodeClock;
use crate::signature::{Signature, Words};
use lucy_place::{Placed, PlacedNode};
use lucy_word::Word;
use std::alloc::{AllocError, Global};

// Words as a list of one's own.
fn copies(alloc: Global, words: &[Word]) -> Result<Words, AllocError>
    ensures { IfOk result (λ v. v ≡ words.now) }
{
    let mut list = Vec::new(alloc);
    'each: for word in words {
        list.push(word.copy(alloc)?)?;
    }
    Ok(Words::new(list))
}

// The words of places as a list of one's own.
fn copies_at(alloc: Global, words: &[Word], places: &[u32]) -> Result<Words, AllocError>
    requires { AllByRecursion (λ place. place < length words.now) places.now }
    ensures { IfOk result (λ v. v ≡ map (assigned words.now) places.now) }
{
    let mut list = Vec::new(alloc);
    'each: for place in places {
        list.push(words[*place as usize].copy(alloc)?)?;
    }
    Ok(Words::new(list))
}

/// What the callers of a node need of its clocks.
pub fn ports(alloc: Global, node: &PlacedNode, clock: &NodeClock) -> Result<Signature, AllocError>
    requires params { node.now.params < length clock.now.words }
    requires results { AllByRecursion (λ place. place < length clock.now.words) node.now.results }
    ensures { IfOk result (λ s. s ≡ ports node.now clock.now) }
{
    let words = clock.words.list();
    Ok(Signature {
        params: copies(alloc, &words[1..node.params as usize + 1])?,
        results: copies_at(alloc, words, node.results.list())?,
    })
}

/// What a node needs of the clocks of the nodes above it, by number from 0, in their order.
pub fn signatures(
    alloc: Global,
    placed: &Placed,
    node: u32,
    clocks: &[NodeClock],
) -> Result<Vec<Signature>, AllocError>
    requires proper { AreProper placed.now.nodes }
    requires node { node ≤ length placed.now.nodes }
    requires clocks { node ≤ length clocks.now }
    requires words { (i : ℕ) (n : Node) (c : Clock) → slice_get placed.now.nodes i ≡ Some n → slice_get clocks.now i ≡ Some c → length c.words ≡ clocks_of n }
    ensures list { IfOk result (λ v. v.items ≡ signatures (take node placed.now.nodes) (take node clocks.now)) }
    ensures theirs { IfOk result (λ v. AreSignatures (take node placed.now.nodes) v.items) }
{
    let mut above = Vec::new(alloc);
    'each: for callee in 0..node {
        let clock = &clocks[callee as usize];
        above.push(ports(alloc, placed.node(callee), clock)?)?;
    }
    Ok(above)
}
