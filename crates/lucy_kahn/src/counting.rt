// What the nodes of a program count with their calls written out.
ghost use Rattle.std.specs.Prelude.{ℕ, ◌≡◌, ◌+◌, ◌<◌, ◌≤◌, Some, length, slice_get, slice_index, sum_by};
ghost use Rattle.lucy_place.specs.declared.placed.PlacedNode.{PlacedNode as Node};
ghost use Rattle.lucy_kahn.specs.Below.{Below};
ghost use Rattle.lucy_kahn.specs.Sizes.{capped, AreCapped, total_of, size_of};

use lucy_place::{CallSite, Placed};

// What a node counts, by what it counts itself and what the nodes that it calls count.
fn with_calls(counts: &[u64], own: u64, sites: &[CallSite]) -> u64
    requires { Below (length counts.now) sites.now }
    ensures { result ≡ capped (own + sum_by (λ site. slice_index counts.now site.node) sites.now) }
{
    let mut all = own;
    'each: for site in sites {
        all = all.saturating_add(counts[site.node as usize]);
    }
    all
}

/// Adds to what each node counts itself what its calls count. What is greater than the greatest 64-bit number stands as that.
pub fn add_calls(placed: &Placed, counts: &mut [u64])
    requires { length placed.now.nodes ≤ length counts.old }
    ensures length { length counts.new ≡ length counts.old }
    ensures totals { (own : ℕ → Node → ℕ) → ((i : ℕ) (node : Node) → slice_get placed.now.nodes i ≡ Some node → slice_index counts.old i ≡ capped (own i node)) →
        AreCapped (total_of own placed.now.nodes) (length placed.now.nodes) counts.new }
{
    'each: for node in 0..placed.nodes() {
        let own = counts[node as usize];
        let all = with_calls(counts, own, placed.node(node).calls.list());
        counts[node as usize] = all;
    }
}

/// How many places the instance of each node has, with the instances inside it. What is greater than the greatest 64-bit
/// number stands as that.
pub fn sizes(placed: &Placed) -> [u64; 256]
    ensures { AreCapped (size_of placed.now.nodes) (length placed.now.nodes) result }
{
    let mut counts = [0; 256];
    'each: for node in 0..placed.nodes() {
        counts[node as usize] = placed.node(node).places.list().len() as u64;
    }
    add_calls(placed, &mut counts);
    counts
}
