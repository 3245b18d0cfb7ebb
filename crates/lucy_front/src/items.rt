// The names of the actors of a program's flat net.
ghost use Rattle.std.specs.Prelude.{ℕ, List, ◌≡◌, ◌+◌, ◌-◌, ◌^◌, ◌<◌, ◌≤◌, Some, length, slice_get, slice_index, IfOk, OnOk};
ghost use Rattle.std.specs.List.{AllByRecursion};
ghost use Rattle.std.specs.List.Sorted.{IsNonDecreasing};
ghost use Rattle.lucy_place.specs.declared.placed.PlacedNode.{PlacedNode as Node};
ghost use Rattle.lucy_kahn.specs.Spots.{node_at, main_of};
ghost use Rattle.lucy_kahn.specs.Numbers.{begin_from};
ghost use Rattle.lucy_kahn.specs.Sizes.{AreCapped, size_of, all_places};
ghost use Rattle.lucy_front.specs.Items.{path_text, IsActorName, AreNamesOf};
ghost use Rattle.lucy_front.specs.Ends.{AreEndsTo, AreAllEnds};

use crate::clocking::push;
use lucy_clock::Numbers64;
use lucy_kahn::sizes;
use lucy_net::Item;
use lucy_place::Placed;
use lucy_program::{bytes, place_name};
use lucy_text::Text;
use std::alloc::{AllocError, Global};

// How far behind its begin each part of an instance of the node ends: its own places, and then the instance of each of its
// calls.
fn ends_of(alloc: Global, placed: &Placed, sizes: &[u64], node: u32) -> Result<Vec<u64>, AllocError>
    requires room { length placed.now.nodes ≤ length sizes.now }
    requires sizes { AreCapped (size_of placed.now.nodes) (length placed.now.nodes) sizes.now }
    requires node { node < length placed.now.nodes }
    ensures { (n : Node) → slice_get placed.now.nodes node ≡ Some n → IfOk result (λ v. AreEndsTo placed.now.nodes n (length n.calls) v.items) }
{
    let found = placed.node(node);
    let mut end = found.places.list().len() as u64;
    let mut ends = Vec::new(alloc);
    push(&mut ends, end)?;
    let sites = found.calls.list();
    'calls: for site in sites {
        end = end.saturating_add(sizes[site.node as usize]);
        push(&mut ends, end)?;
    }
    Ok(ends)
}

// Those of all nodes.
fn all_ends(alloc: Global, placed: &Placed) -> Result<Vec<Numbers64>, AllocError>
    ensures { IfOk result (λ v. AreAllEnds placed.now.nodes (length placed.now.nodes) v.items) }
{
    let sizes = sizes(placed);
    let mut all = Vec::new(alloc);
    'nodes: for node in 0..placed.nodes() {
        let ends = ends_of(alloc, placed, &sizes, node)?;
        push(&mut all, Numbers64::new(ends))?;
    }
    Ok(all)
}

// How many ends are no further behind the begin than a place is.
fn passed(ends: &[u64], behind: u64) -> usize
    requires { IsNonDecreasing ends.now }
    ensures most { result ≤ length ends.now }
    ensures before { (i : ℕ) → i < result → slice_index ends.now i ≤ behind }
    ensures from { (i : ℕ) → result ≤ i → i < length ends.now → behind < slice_index ends.now i }
{
    ends.partition_point(|end| *end <= behind)
}

// Puts the name of the actor that stands so far behind the begin of an instance of a node: `callN.` for each call on the way
// to the instance in which it is a place, and the name of the place.
fn put_name(
    alloc: Global,
    placed: &Placed,
    ends: &[Numbers64],
    node: u32,
    behind: u64,
    name: &mut Vec<u8>,
) -> Result<(), AllocError>
    requires ends { AreAllEnds placed.now.nodes (length placed.now.nodes) ends.now }
    requires node { node < length placed.now.nodes }
    requires there { behind < size_of placed.now.nodes node }
    requires few { size_of placed.now.nodes node < 2 ^ 32 }
    ensures { (path : List ℕ) → node_at placed.now.nodes path ≡ slice_get placed.now.nodes node → name.old.items ≡ path_text path →
        OnOk result (IsActorName placed.now.nodes (begin_from placed.now.nodes (main_of placed.now.nodes) path + behind) name.new.items) }
{
    let found = placed.node(node);
    let parts = ends[node as usize].list();
    let call = passed(parts, behind);
    if call == 0 {
        let place = place_name(alloc, found, behind as u32 + 1)?;
        return bytes(place.bytes(), name);
    }
    bytes(format!(in alloc; "call{call}.")?.as_bytes(), name)?;
    let site = &found.calls.list()[call - 1];
    put_name(
        alloc,
        placed,
        ends,
        site.node,
        behind - parts[call - 1],
        name,
    )
}

/// The names of the actors of items, one for each item. Main is the last node.
pub(crate) fn item_names(
    alloc: Global,
    placed: &Placed,
    main: u32,
    items: &[Item],
) -> Result<Vec<Text>, AllocError>
    requires main { main + 1 ≡ length placed.now.nodes }
    requires few { all_places placed.now.nodes < 2 ^ 32 }
    requires there { AllByRecursion (λ item. item.actor < all_places placed.now.nodes) items.now }
    ensures { IfOk result (λ v. AreNamesOf placed.now.nodes items.now v.items) }
{
    let ends = all_ends(alloc, placed)?;
    let mut names = Vec::new(alloc);
    'each: for i in 0..items.len() {
        let actor = u64::from(items[i].actor);
        let mut name = Vec::new(alloc);
        put_name(alloc, placed, &ends, main, actor, &mut name)?;
        let text = Text::new(alloc, &name)?;
        push(&mut names, text)?;
    }
    Ok(names)
}
