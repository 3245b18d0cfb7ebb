// The interpreter.
ghost use Rattle.std.specs.Prelude.{◌≡◌, ◌≤◌, ◌<◌, ◌-◌, ◌^◌, ◌∷◌, ◌++◌, [], ◌⊎◌, ℕ, List, ℤ, Err, map, length, replicate, IfOk, OnOk, IfErr};
ghost use Rattle.lucy_word.specs.declared.limit.Limit.TheVariants as limit;
ghost use Rattle.lucy_host.specs.Host.{Serves, lent};
ghost use Rattle.lucy_host.specs.Operators.{kinds_of};
ghost use Rattle.lucy_host.specs.declared.kind.HostKind.{HostKind};
ghost use Rattle.lucy_place.specs.Standing.{most_places};
ghost use Rattle.lucy_place.specs.Proper.{HaveOperators};
ghost use Rattle.lucy_kahn.specs.Spots.{main_of, results_of};
ghost use Rattle.lucy_kahn.specs.Kahn as meaning;
ghost use Rattle.lucy_kahn.specs.declared.error.KahnError.TheVariants as error;
ghost use Rattle.lucy_kahn.specs.Instances.{AreInstances};
ghost use Rattle.lucy_kahn.specs.Turns.{AreThere, own_at, params_in, IsIterate, IsLongUpto};

use crate::error::KahnError;
use crate::instances::{Instances, all_instances};
use crate::iterate::Iterate;
use crate::streams::Lists;
use crate::turn::next;
use lucy_host::{Host, Inputs};
use lucy_place::{Placed, PlacedNode};
use std::alloc::Global;

// An empty list for each place of a node.
fn none_of(alloc: Global, node: &PlacedNode) -> Result<Lists, KahnError>
    ensures ok { IfOk result (λ lists. lists ≡ replicate (length node.now.places) []) }
    ensures refused { IfErr result (λ e. e ≡ error.OutOfMemory) }
{
    let mut lists = Lists::new(alloc);
    'each: for place in 0..node.places.list().len() {
        lists.put(Vec::new(alloc))?;
    }
    Ok(lists)
}

// The first iterate, which has no items at all.
fn first(alloc: Global, placed: &Placed, instances: &Instances) -> Result<Vec<Lists>, KahnError>
    requires { (paths : ℕ → List ℕ) × AreInstances placed.now.nodes instances.now.list.items instances.now.inner.items paths }
    ensures ok { (kinds : List HostKind) (inputs : List (List ℤ)) (paths : ℕ → List ℕ) → AreInstances placed.now.nodes instances.now.list.items instances.now.inner.items paths →
        IfOk result (λ lists. IsIterate kinds inputs placed.now.nodes instances.now.list.items 0 paths lists.items) }
    ensures refused { IfErr result (λ e. e ≡ error.OutOfMemory) }
{
    let mut lists = Vec::new(alloc);
    'each: for i in 0..instances.list.len() {
        lists.push(none_of(alloc, placed.node(instances.list[i].node))?)?;
    }
    Ok(lists)
}

// One more list, under the next number.
fn add(alloc: Global, given: &mut Inputs, number: u32, list: &[i64]) -> Result<(), KahnError>
    requires next { number ≡ length given.old }
    requires room { number < 2 ^ 32 - 1 }
    ensures ok { OnOk result (given.new ≡ given.old ++ list.now ∷ []) }
    ensures refused { IfErr result (λ e. e ≡ error.OutOfMemory) }
{
    given.add_list(alloc)?;
    'each: for item in list {
        given.push(alloc, number, *item)?;
    }
    Ok(())
}

// The lists of these places.
fn results(alloc: Global, own: &Lists, places: &[u32]) -> Result<Inputs, KahnError>
    requires there { AreThere own.now places.now }
    requires few { length places.now ≤ most_places }
    ensures ok { IfOk result (λ given. given ≡ map (own_at own.now) places.now) }
    ensures refused { IfErr result (λ e. e ≡ error.OutOfMemory) }
{
    let mut given = Inputs::new(alloc);
    'each: for (i, place) in places.iter().enumerate() {
        add(alloc, &mut given, i as u32, own.at(*place))?;
    }
    Ok(given)
}

/// The lists of main's results in the iterate K(turns) (Kahn 1974), from one input for each parameter of main. The operators of
/// the host that the program names are among those of this one. `Limit(KahnItems)`, where a list of an iterate up to that
/// one, in main or in a call, would have more than 65,536 items.
pub fn kahn<F: Fn(u32, i64, i64) -> i64 + Sync>(
    alloc: Global,
    placed: &Placed,
    host: &Host<F>,
    turns: u64,
    inputs: &Inputs,
) -> Result<Inputs, KahnError>
    requires serves { Serves F.pre F.post host.now }
    requires known { HaveOperators (length (lent host.now)) placed.now.nodes }
    requires inputs { params_in (main_of placed.now.nodes) ≡ length inputs.now }
    ensures ok { IfOk result (λ lists. lists ≡ map (meaning.kahn (kinds_of (lent host.now)) inputs.now placed.now.nodes turns) (results_of placed.now.nodes)) }
    ensures limit { IfErr result (λ e. (e ≡ error.OutOfMemory) ⊎ ((e ≡ error.Limit limit.KahnItems) × IsLongUpto (kinds_of (lent host.now)) inputs.now placed.now.nodes turns)) }
    ensures passed { IsLongUpto (kinds_of (lent host.now)) inputs.now placed.now.nodes turns → (result ≡ Err error.OutOfMemory) ⊎ (result ≡ Err (error.Limit limit.KahnItems)) }
{
    let main = placed.node(placed.nodes() - 1);
    let instances = all_instances(alloc, placed)?;
    let mut lists = first(alloc, placed, &instances)?;
    'turns: for number in 0..turns {
        let before = Iterate {
            placed,
            inputs,
            instances: &instances,
            lists: &lists,
            number,
        };
        lists = next(alloc, host, &before)?;
    }
    results(alloc, &lists[0], main.results.list())
}
