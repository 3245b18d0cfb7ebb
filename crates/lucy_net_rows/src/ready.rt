// Cores of accepted programs.
ghost use Rattle.std.specs.Prelude.{◌≡◌, ◌≤◌, List, ℤ, length, IfOk};
ghost use Rattle.lucy_word.specs.Limits.{limit_number};
ghost use Rattle.lucy_word.specs.declared.limit.Limit.TheVariants as lim;
ghost use Rattle.lucy_place.specs.Proper.{HaveOperators};
ghost use Rattle.lucy_kahn.specs.Horizons.{Suffice};
ghost use Rattle.lucy_net.specs.Orders.{IsSound};
ghost use Rattle.lucy_net.specs.Schedules.{events_at};
ghost use Rattle.lucy_core.specs.Seen.{IsUnbegun};
ghost use Rattle.lucy_flat.specs.Flat.{IsFlat};
ghost use Rattle.lucy_flat.specs.Clocked.{AreClocked};
ghost use Rattle.lucy_results.specs.Streams.{param_words};
ghost use Rattle.lucy_net_rows.specs.Ready.{HasOneList};

use lucy_clock::NodeClock;
use lucy_core::Core;
use lucy_host::{Inputs, Ops};
use lucy_net::{Net, Schedule};
use lucy_place::Placed;
use lucy_results::{horizon, nets_can_be_run, param_words};
use lucy_word::Limit;
use std::alloc::{AllocError, Global};

/// One input, of these items.
pub(crate) fn one_input(alloc: Global, items: &[u32]) -> Result<Inputs, AllocError>
    ensures { IfOk result (HasOneList (length items.now)) }
{
    let mut inputs = Inputs::new(alloc);
    inputs.add_list(alloc)?;
    'items: for item in items {
        inputs.push(alloc, 0, i64::from(*item))?;
    }
    Ok(inputs)
}

/// How many actors a net has.
pub(crate) fn count_actors(net: &Net) -> u32
    requires { length net.now.actors ≤ limit_number lim.Actors }
    ensures { result ≡ length net.now.actors }
{
    net.actors.list().len() as u32
}

// For how many instants one input with so many items suffices: two, where main has none, and none, where it has several.
fn instants_of(placed: &Placed, clocks: &[NodeClock], items: u64) -> u64
    requires clocked { AreClocked placed.now.nodes clocks.now }
    ensures suffice { (inputs : List (List ℤ)) → HasOneList items inputs → Suffice (param_words placed.now.nodes clocks.now) inputs result }
    ensures early { result ≤ limit_number lim.Instants }
{
    let words = param_words(placed, clocks);
    match words.len() {
        0 => 2,
        1 => horizon(words, &[items], Limit::Instants.number()),
        _ => 0,
    }
}

/// A core of an accepted program's flat net, for as many instants as the items of its one input allow, or, where it has none, for two.
pub(crate) fn core_of(
    alloc: Global,
    placed: &Placed,
    clocks: &[NodeClock],
    net: Net,
    schedule: Schedule,
    ops: &Ops,
    items: &[u32],
) -> Result<Core, AllocError>
    requires clocked { AreClocked placed.now.nodes clocks.now }
    requires flat { IsFlat placed.now.nodes clocks.now net }
    requires sound { IsSound net (events_at schedule) }
    requires operators { HaveOperators (length ops.now) placed.now.nodes }
    ensures net { IfOk result (λ core. core.net ≡ net) }
    ensures operators { IfOk result (λ core. core.operators ≡ ops.now) }
    ensures unbegun { IfOk result IsUnbegun }
{
    // For the proof: this call tells that the nodes are proper.
    let _ = placed.nodes();
    nets_can_be_run();
    let instants = instants_of(placed, clocks, items.len() as u64);
    match one_input(alloc, items) {
        Ok(inputs) => Core::new(alloc, net, schedule, inputs, ops, instants),
        Err(_) => Err(AllocError),
    }
}
