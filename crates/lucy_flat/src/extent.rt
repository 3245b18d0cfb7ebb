// How large the net of a program is, and which limit it passes first.
ghost use Rattle.std.specs.Prelude.{◌≡◌, ◌≤◌, Some, None, length, sum, sum_by};
ghost use Rattle.lucy_place.specs.declared.entry.CallSite.{CallSite as Site};
ghost use Rattle.lucy_word.specs.declared.limit.Limit.{Limit as Named};
ghost use Rattle.lucy_kahn.specs.Sizes.{capped, AreCapped, size_of, total_of};
ghost use Rattle.lucy_flat.specs.Counts.{read_count, own_rings, own_sizes, last_of, IsPassedBy, IsKeptBy, NetPasses, HasSmallNet};

use lucy_clock::NodeClock;
use lucy_kahn::add_calls;
use lucy_place::{CallSite, PlaceEntry, PlaceKind, Placed, PlacedNode};
use lucy_word::Limit;

// How many operands a place of the kind has; those of a parameter are its caller's.
fn operands(kind: &PlaceKind) -> u64
    ensures { result ≡ read_count kind.now }
{
    match kind {
        PlaceKind::Param | PlaceKind::Lit(_) => 0,
        PlaceKind::Op(_, args) => args.list().len() as u64,
        PlaceKind::Host(..) | PlaceKind::Merge(..) => 2,
        _ => 1,
    }
}

fn all_operands(places: &[PlaceEntry]) -> u64
    ensures { result ≡ capped (sum_by (λ entry. read_count entry.kind) places.now) }
{
    let mut all = 0u64;
    'each: for place in places {
        all = all.saturating_add(operands(&place.kind));
    }
    all
}

fn all_arguments(sites: &[CallSite]) -> u64
    ensures { result ≡ capped (sum_by (λ (site : Site). length site.args) sites.now) }
{
    let mut all = 0u64;
    'each: for site in sites {
        all = all.saturating_add(site.args.list().len() as u64);
    }
    all
}

fn all_sizes(sizes: &[u64]) -> u64
    ensures { result ≡ capped (sum sizes.now) }
{
    let mut all = 0u64;
    'each: for size in sizes {
        all = all.saturating_add(*size);
    }
    all
}

fn rings_in(node: &PlacedNode) -> u64
    ensures { result ≡ capped (own_rings 0 node.now) }
{
    all_operands(node.places.list()).saturating_add(all_arguments(node.calls.list()))
}

// How many rings the instance of main takes from, with those inside it.
fn rings(placed: &Placed) -> u64
    ensures { result ≡ capped (total_of own_rings placed.now.nodes (last_of placed.now.nodes)) }
{
    let mut counts = [0; 256];
    'each: for node in 0..placed.nodes() {
        counts[node as usize] = rings_in(placed.node(node));
    }
    add_calls(placed, &mut counts);
    counts[placed.nodes() as usize - 1]
}

// The sizes of its buffers together.
fn buffers(placed: &Placed, clocks: &[NodeClock]) -> u64
    requires { length clocks.now ≡ length placed.now.nodes }
    ensures { result ≡ capped (total_of (own_sizes clocks.now) placed.now.nodes (last_of placed.now.nodes)) }
{
    let mut counts = [0; 256];
    'each: for node in 0..placed.nodes() {
        counts[node as usize] = all_sizes(clocks[node as usize].sizes.list());
    }
    add_calls(placed, &mut counts);
    counts[placed.nodes() as usize - 1]
}

// The first of the limits that these numbers pass.
fn first_passed(actors: u64, rings: u64, slots: u64) -> Option<Limit>
    ensures passed { (limit : Named) → result ≡ Some limit → IsPassedBy actors rings slots limit }
    ensures kept { result ≡ None → IsKeptBy actors rings slots }
{
    if actors > Limit::Actors.number() {
        Some(Limit::Actors)
    } else if rings > Limit::Rings.number() {
        Some(Limit::Rings)
    } else if slots > Limit::Slots.number() {
        Some(Limit::Slots)
    } else {
        None
    }
}

/// The first limit that the net of a program passes, where the sizes of its nodes are known.
pub(crate) fn passed(placed: &Placed, clocks: &[NodeClock], sizes: &[u64]) -> Option<Limit>
    requires clocks { length clocks.now ≡ length placed.now.nodes }
    requires room { length placed.now.nodes ≤ length sizes.now }
    requires sizes { AreCapped (size_of placed.now.nodes) (length placed.now.nodes) sizes.now }
    ensures passed { (limit : Named) → result ≡ Some limit → NetPasses placed.now.nodes clocks.now limit }
    ensures kept { result ≡ None → HasSmallNet placed.now.nodes clocks.now }
{
    let main = placed.nodes() - 1;
    let results = placed.node(main).results.list().len() as u64;
    let actors = sizes[main as usize].saturating_add(results);
    let rings = rings(placed).saturating_add(results);
    let slots = rings.saturating_add(buffers(placed, clocks));
    first_passed(actors, rings, slots)
}
