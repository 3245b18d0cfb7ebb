// The streams of a run.
ghost use Rattle.std.specs.Prelude.{◌≡◌, ◌≤◌, ◌<◌, ◌+◌, ◌-◌, ◌^◌, ◌∷◌, ◌++◌, [], Some, None, length, map, IfOk, OnOk};
ghost use Rattle.lucy_word.specs.Limits.{limit_number};
ghost use Rattle.lucy_word.specs.declared.limit.Limit.TheVariants as limit;
ghost use Rattle.lucy_host.specs.Host.{Serves, lent};
ghost use Rattle.lucy_host.specs.Operators.{kinds_of};
ghost use Rattle.lucy_place.specs.Proper.{HaveOperators};
ghost use Rattle.lucy_kahn.specs.Spots.{main_of};
ghost use Rattle.lucy_kahn.specs.Horizons.{Suffice};
ghost use Rattle.lucy_kahn.specs.Turns.{params_in};
ghost use Rattle.lucy_net.specs.Orders.{IsSound};
ghost use Rattle.lucy_net.specs.Schedules.{events_at};
ghost use Rattle.lucy_core.specs.Seen.{CanMakeCore, IsOver};
ghost use Rattle.lucy_flat.specs.Clocked.{AreClocked};
ghost use Rattle.lucy_flat.specs.Flat.{IsFlat};
ghost use Rattle.lucy_results.specs.Streams.{param_words, main_stream, main_streams};
ghost use Rattle.lucy_wave.specs.Waves.{AreInside};
ghost use Rattle.lucy_wave.specs.Seen.{AreFed, IsGrown};

use crate::gathering::{inner_places, main_words};
use crate::watching::{Watched, watch};
use lucy_clock::NodeClock;
use lucy_core::Core;
use lucy_host::{Host, Inputs};
use lucy_net::{Net, Schedule};
use lucy_place::Placed;
use lucy_results::nets_can_be_run;
use std::alloc::{AllocError, Global};

/// What a run has: the items of main's inputs, the streams of its results, and, where they are known, those of its inner places.
#[derive(Drop)]
pub(crate) struct Played {
    pub lists: Inputs,
    pub streams: Inputs,
    pub inside: Option<Inputs>,
}

// One more list, under the next number.
fn add(alloc: Global, lists: &mut Inputs, number: u32, list: &[i64]) -> Result<(), AllocError>
    requires next { number ≡ length lists.old }
    requires room { number < 2 ^ 32 - 1 }
    ensures { OnOk result (lists.new ≡ lists.old ++ list.now ∷ []) }
{
    lists.add_list(alloc)?;
    'each: for item in list {
        lists.push(alloc, number, *item)?;
    }
    Ok(())
}

// What outputs of a finished core took, which are numbered from one on: the streams of these places of main, in order.
fn streams_of(
    alloc: Global,
    placed: &Placed,
    clocks: &[NodeClock],
    core: &Core,
    first: u32,
    places: &[u32],
) -> Result<Inputs, AllocError>
    requires fed { AreFed placed.now.nodes clocks.now core.now.net first places.now }
    requires grown { IsGrown placed.now.nodes core.now.net }
    requires over { IsOver core.now }
    requires few { first + length places.now < 2 ^ 32 - 1 }
    ensures { IfOk result (λ lists. lists ≡ map (main_stream (kinds_of core.now.operators) core.now.inputs placed.now.nodes clocks.now core.now.instants) places.now) }
{
    let mut lists = Inputs::new(alloc);
    'each: for i in 0..places.len() {
        add(alloc, &mut lists, i as u32, core.output(first + i as u32))?;
    }
    Ok(lists)
}

// A finished core of a net.
fn finished<F: Fn(u32, i64, i64) -> i64 + Sync>(
    alloc: Global,
    net: Net,
    schedule: Schedule,
    host: &Host<F>,
    lists: Inputs,
    instants: u64,
) -> Result<Core, AllocError>
    requires serves { Serves F.pre F.post host.now }
    requires fixed { CanMakeCore net schedule lists (lent host.now) instants }
    ensures over { IfOk result (λ core. IsOver core) }
    ensures net { IfOk result (λ core. core.net ≡ net) }
    ensures inputs { IfOk result (λ core. core.inputs ≡ lists) }
    ensures operators { IfOk result (λ core. core.operators ≡ lent host.now) }
    ensures instants { IfOk result (λ core. core.instants ≡ instants) }
{
    let mut core = Core::new(alloc, net, schedule, lists, host.ops(), instants)?;
    core.run_static(host);
    Ok(core)
}

// The lists that a core was given.
fn inputs_of(core: Core) -> Inputs
    ensures { result ≡ core.inputs }
{
    core.into_parts().inputs
}

// A run whose net puts out main's results alone.
fn play_results<F: Fn(u32, i64, i64) -> i64 + Sync>(
    alloc: Global,
    placed: &Placed,
    clocks: &[NodeClock],
    net: Net,
    schedule: Schedule,
    host: &Host<F>,
    lists: Inputs,
    instants: u64,
    results: &[u32],
) -> Result<Played, AllocError>
    requires serves { Serves F.pre F.post host.now }
    requires fixed { CanMakeCore net schedule lists (lent host.now) instants }
    requires grown { IsGrown placed.now.nodes net }
    requires fed { AreFed placed.now.nodes clocks.now net 0 results.now }
    requires few { length results.now < 2 ^ 31 }
    ensures lists { IfOk result (λ played. played.lists ≡ lists) }
    ensures streams { IfOk result (λ played. played.streams ≡ map (main_stream (kinds_of (lent host.now)) lists placed.now.nodes clocks.now instants) results.now) }
    ensures inside { IfOk result (λ played. played.inside ≡ None) }
{
    let core = finished(alloc, net, schedule, host, lists, instants)?;
    let found = streams_of(alloc, placed, clocks, &core, 0, results);
    let lists = inputs_of(core);
    Ok(Played {
        lists,
        streams: found?,
        inside: None,
    })
}

// The streams of main's results, and of these places, whose outputs stand behind those of the results.
fn all_streams(
    alloc: Global,
    placed: &Placed,
    clocks: &[NodeClock],
    core: &Core,
    results: &[u32],
    places: &[u32],
) -> Result<(Inputs, Inputs), AllocError>
    requires fed { AreFed placed.now.nodes clocks.now core.now.net 0 results.now }
    requires fed_too { AreFed placed.now.nodes clocks.now core.now.net (length results.now) places.now }
    requires grown { IsGrown placed.now.nodes core.now.net }
    requires over { IsOver core.now }
    requires few { length results.now < 2 ^ 31 }
    requires few_places { length places.now < 2 ^ 30 }
    ensures streams { IfOk result (λ found. found.0 ≡ map (main_stream (kinds_of core.now.operators) core.now.inputs placed.now.nodes clocks.now core.now.instants) results.now) }
    ensures inside { IfOk result (λ found. found.1 ≡ map (main_stream (kinds_of core.now.operators) core.now.inputs placed.now.nodes clocks.now core.now.instants) places.now) }
{
    let streams = streams_of(alloc, placed, clocks, core, 0, results)?;
    let inside = streams_of(alloc, placed, clocks, core, results.len() as u32, places)?;
    Ok((streams, inside))
}

// One whose net puts out these places too, behind the results.
fn play_all<F: Fn(u32, i64, i64) -> i64 + Sync>(
    alloc: Global,
    placed: &Placed,
    clocks: &[NodeClock],
    watched: Watched,
    host: &Host<F>,
    lists: Inputs,
    instants: u64,
    results: &[u32],
    places: &[u32],
) -> Result<Played, AllocError>
    requires serves { Serves F.pre F.post host.now }
    requires fixed { CanMakeCore watched.net watched.schedule lists (lent host.now) instants }
    requires grown { IsGrown placed.now.nodes watched.net }
    requires fed { AreFed placed.now.nodes clocks.now watched.net 0 results.now }
    requires fed_too { AreFed placed.now.nodes clocks.now watched.net (length results.now) places.now }
    requires few { length results.now < 2 ^ 31 }
    requires few_places { length places.now < 2 ^ 30 }
    ensures lists { IfOk result (λ played. played.lists ≡ lists) }
    ensures streams { IfOk result (λ played. played.streams ≡ map (main_stream (kinds_of (lent host.now)) lists placed.now.nodes clocks.now instants) results.now) }
    ensures inside { IfOk result (λ played. played.inside ≡ Some (map (main_stream (kinds_of (lent host.now)) lists placed.now.nodes clocks.now instants) places.now)) }
{
    let Watched { net, schedule } = watched;
    let core = finished(alloc, net, schedule, host, lists, instants)?;
    let found = all_streams(alloc, placed, clocks, &core, results, places);
    let lists = inputs_of(core);
    let (streams, inside) = found?;
    Ok(Played {
        lists,
        streams,
        inside: Some(inside),
    })
}

/// The streams of a program's results up to a horizon of at most 1,048,576 instants, and of its inner places where they are known, by
/// its flat net, with outputs more where it can have them, in the order of a schedule.
pub(crate) fn play<F: Fn(u32, i64, i64) -> i64 + Sync>(
    alloc: Global,
    placed: &Placed,
    clocks: &[NodeClock],
    net: Net,
    schedule: Schedule,
    host: &Host<F>,
    lists: Inputs,
    instants: u64,
) -> Result<Played, AllocError>
    requires clocked { AreClocked placed.now.nodes clocks.now }
    requires flat { IsFlat placed.now.nodes clocks.now net }
    requires sound { IsSound net (events_at schedule) }
    requires serves { Serves F.pre F.post host.now }
    requires known { HaveOperators (length (lent host.now)) placed.now.nodes }
    requires inputs { params_in (main_of placed.now.nodes) ≡ length lists }
    requires suffice { Suffice (param_words placed.now.nodes clocks.now) lists instants }
    requires early { instants ≤ limit_number limit.Instants }
    ensures lists { IfOk result (λ played. played.lists ≡ lists) }
    ensures streams { IfOk result (λ played. played.streams ≡ main_streams (kinds_of (lent host.now)) lists placed.now.nodes clocks.now instants) }
    ensures inside { IfOk result (λ played. AreInside (kinds_of (lent host.now)) lists placed.now.nodes clocks.now net instants played.inside) }
{
    nets_can_be_run();
    let main = placed.node(placed.nodes() - 1);
    let results = main.results.list();
    let places = inner_places(alloc, main)?;
    let words = main_words(placed, clocks);
    match watch(alloc, &net, words, results.len() as u32, &places)? {
        None => play_results(
            alloc, placed, clocks, net, schedule, host, lists, instants, results,
        ),
        Some(watched) => {
            drop(schedule);
            drop(net);
            play_all(
                alloc, placed, clocks, watched, host, lists, instants, results, &places,
            )
        }
    }
}
