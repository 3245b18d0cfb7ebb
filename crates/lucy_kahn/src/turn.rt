// A turn: an iterate made from the one before.
ghost use Rattle.std.specs.Prelude.{◌≡◌, ◌<◌, ◌-◌, ◌^◌, ℕ, suc, List, length, IfOk, IfErr};
ghost use Rattle.lucy_host.specs.Host.{Serves, lent};
ghost use Rattle.lucy_host.specs.Operators.{kinds_of};
ghost use Rattle.lucy_place.specs.Proper.{HaveOperators};
ghost use Rattle.lucy_kahn.specs.Outcomes.{IsWholeList, Overflows};
ghost use Rattle.lucy_kahn.specs.Turns.{IsIterate, AreShort, StandsIn, RefusesIterate, lists_in};
ghost use Rattle.lucy_kahn.specs.Views.{IsBefore, list_after};

use crate::error::KahnError;
use crate::iterate::{Iterate, param, returned};
use crate::lists::copied;
use crate::own::own_list;
use crate::streams::{Lists, lists_at};
use lucy_host::Host;
use lucy_place::PlaceKind;
use std::alloc::Global;

// The list of a place of an instance in the next iterate.
fn list_of<F: Fn(u32, i64, i64) -> i64 + Sync>(
    alloc: Global,
    host: &Host<F>,
    before: &Iterate<'_>,
    instance: usize,
    place: u32,
    kind: &PlaceKind,
) -> Result<Vec<i64>, KahnError>
    requires serves { Serves F.pre F.post host.now }
    requires known { HaveOperators (length (lent host.now)) before.now.placed.now.nodes }
    requires number { before.now.number < 2 ^ 64 - 1 }
    requires before { (paths : ℕ → List ℕ) × IsBefore (kinds_of (lent host.now)) before.now paths }
    requires there { instance < length before.now.instances.now.list.items }
    requires stands { StandsIn before.now.placed.now.nodes before.now.instances.now.list.items instance place kind.now }
    ensures ok { (paths : ℕ → List ℕ) → IsBefore (kinds_of (lent host.now)) before.now paths → IfOk result (λ made. IsWholeList (list_after (kinds_of (lent host.now)) before.now (paths instance) place) made.items) }
    ensures limit { (paths : ℕ → List ℕ) → IsBefore (kinds_of (lent host.now)) before.now paths → IfErr result (Overflows (list_after (kinds_of (lent host.now)) before.now (paths instance) place)) }
{
    match kind {
        PlaceKind::Param => copied(alloc, param(before, instance, place)),
        PlaceKind::Result(call, number) => {
            copied(alloc, returned(before, instance, place, *call, *number))
        }
        _ => {
            let own = lists_at(before.lists, instance);
            own_list(alloc, host, before.number, own, kind)
        }
    }
}

// The lists of an instance in the next iterate.
fn lists_of<F: Fn(u32, i64, i64) -> i64 + Sync>(
    alloc: Global,
    host: &Host<F>,
    before: &Iterate<'_>,
    instance: usize,
) -> Result<Lists, KahnError>
    requires serves { Serves F.pre F.post host.now }
    requires known { HaveOperators (length (lent host.now)) before.now.placed.now.nodes }
    requires number { before.now.number < 2 ^ 64 - 1 }
    requires before { (paths : ℕ → List ℕ) × IsBefore (kinds_of (lent host.now)) before.now paths }
    requires there { instance < length before.now.instances.now.list.items }
    ensures ok { (paths : ℕ → List ℕ) → IsBefore (kinds_of (lent host.now)) before.now paths → IfOk result (λ lists. (lists ≡ lists_in (kinds_of (lent host.now)) before.now.inputs.now before.now.placed.now.nodes (suc before.now.number) (paths instance)) × AreShort lists) }
    ensures limit { IfErr result (RefusesIterate (kinds_of (lent host.now)) before.now.inputs.now before.now.placed.now.nodes (suc before.now.number)) }
{
    let node = before.placed.node(before.instances.list[instance].node);
    let mut lists = Lists::new(alloc);
    'each: for (i, entry) in node.places.list().iter().enumerate() {
        let list = list_of(alloc, host, before, instance, i as u32 + 1, &entry.kind)?;
        lists.put(list)?;
    }
    Ok(lists)
}

/// The lists of each instance in the next iterate.
pub(crate) fn next<F: Fn(u32, i64, i64) -> i64 + Sync>(
    alloc: Global,
    host: &Host<F>,
    before: &Iterate<'_>,
) -> Result<Vec<Lists>, KahnError>
    requires serves { Serves F.pre F.post host.now }
    requires known { HaveOperators (length (lent host.now)) before.now.placed.now.nodes }
    requires number { before.now.number < 2 ^ 64 - 1 }
    requires before { (paths : ℕ → List ℕ) × IsBefore (kinds_of (lent host.now)) before.now paths }
    ensures ok { (paths : ℕ → List ℕ) → IsBefore (kinds_of (lent host.now)) before.now paths → IfOk result (λ after. IsIterate (kinds_of (lent host.now)) before.now.inputs.now before.now.placed.now.nodes before.now.instances.now.list.items (suc before.now.number) paths after.items) }
    ensures limit { IfErr result (RefusesIterate (kinds_of (lent host.now)) before.now.inputs.now before.now.placed.now.nodes (suc before.now.number)) }
{
    let mut after = Vec::new(alloc);
    'each: for instance in 0..before.instances.list.len() {
        after.push(lists_of(alloc, host, before, instance)?)?;
    }
    Ok(after)
}
