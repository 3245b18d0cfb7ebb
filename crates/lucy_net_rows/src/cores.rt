// Cores of programs: how many events they do, and what their outputs take.
ghost use Rattle.std.specs.Prelude.{◌≡◌, length};
ghost use Rattle.lucy_host.specs.Host.{Serves, lent};
ghost use Rattle.lucy_host.specs.Operators.{kinds_of};
ghost use Rattle.lucy_core.specs.Seen.{IsUnbegun};
ghost use Rattle.lucy_flat.specs.Flat.{IsFlat};

use crate::outputs::has_result;
use crate::page::Page;
use lucy_clock::NodeClock;
use lucy_core::Core;
use lucy_host::Host;
use lucy_place::Placed;

// More events, or tries of them, than any run has.
const MOST: u64 = 1 << 30;

// More outputs than any row has.
const MOST_OUTPUTS: u32 = 64;

// Does events as `pick` names them, until there is none.
fn run_picked<F: Fn(u32, i64, i64) -> i64 + Sync>(core: &mut Core, host: &Host<F>)
    requires serves { Serves F.pre F.post host.now }
    requires kinds { kinds_of (lent host.now) ≡ kinds_of core.old.operators }
    ensures net { core.new.net ≡ core.old.net }
{
    'events: for _ in 0..MOST {
        match core.pick() {
            Some(actor) => core.step(host, actor),
            None => return,
        }
    }
}

// Does what is possible of events of actors by chance, of so many actors, until all is done. The numbers are those of a linear
// congruence (Knuth's MMIX) from a seed on.
fn run_random<F: Fn(u32, i64, i64) -> i64 + Sync>(
    core: &mut Core,
    host: &Host<F>,
    actors: u32,
    mut seed: u64,
)
    requires serves { Serves F.pre F.post host.now }
    requires kinds { kinds_of (lent host.now) ≡ kinds_of core.old.operators }
    ensures net { core.new.net ≡ core.old.net }
{
    'tries: for _ in 0..MOST {
        if core.finished() {
            return;
        }
        seed = seed
            .wrapping_mul(6364136223846793005)
            .wrapping_add(1442695040888963407);
        let actor = ((seed >> 33) as u32).checked_rem(actors).unwrap_or(0);
        if core.can(actor) {
            core.step(host, actor);
        }
    }
}

// How many operations these actors have done, so many from actor 0 on.
fn events_done(core: &Core, actors: u32) -> u64
    requires { actors ≡ length core.now.net.actors }
{
    let mut events = 0u64;
    for actor in 0..actors {
        events = events.saturating_add(core.done(actor));
    }
    events
}

// Does these picks, up to the first that isn't possible, and shows how many, what is done, and which actors can go on, of the first ten.
fn show_picks<F: Fn(u32, i64, i64) -> i64 + Sync>(
    page: &mut Page,
    host: &Host<F>,
    core: &mut Core,
    actors: u32,
    picks: &[u32],
)
    requires serves { Serves F.pre F.post host.now }
    requires kinds { kinds_of (lent host.now) ≡ kinds_of core.old.operators }
    requires actors { actors ≡ length core.old.net.actors }
    ensures net { core.new.net ≡ core.old.net }
{
    page.put("picks");
    page.put_numbers(picks);
    page.put(format_args!(": {} done\nby actor", core.run_picks(host, picks)));
    for actor in 0..actors {
        page.put(format_args!(" {}", core.done(actor)));
    }
    page.put(", can");
    for actor in 0..10 {
        if core.can(actor) {
            page.put(format_args!(" {actor}"));
        }
    }
    page.put("\n");
}

// Does the events of a kind of rows, and shows how many: in the schedule's order, as `pick` names them, by chance from a seed, or the
// picks of the row.
fn show_events<F: Fn(u32, i64, i64) -> i64 + Sync>(
    page: &mut Page,
    host: &Host<F>,
    kind: &str,
    numbers: &[u32],
    core: &mut Core,
    actors: u32,
)
    requires serves { Serves F.pre F.post host.now }
    requires kinds { kinds_of (lent host.now) ≡ kinds_of core.old.operators }
    requires unbegun { IsUnbegun core.old }
    requires actors { actors ≡ length core.old.net.actors }
    ensures net { core.new.net ≡ core.old.net }
{
    match kind {
        "static" => {
            core.run_static(host);
            page.put("in the schedule's order");
        }
        "picked" => {
            run_picked(core, host);
            page.put("as picked");
        }
        "chance" => {
            run_random(
                core,
                host,
                actors,
                u64::from(numbers.first().copied().unwrap_or(0)),
            );
            page.put("by chance");
        }
        "picks" => return show_picks(page, host, core, actors, numbers),
        _ => page.put("no such row"),
    }
    page.put(format_args!(": events {}\n", events_done(core, actors)));
}

/// Runs the core of a row, and shows how many events it did, and what the outputs took.
pub(crate) fn show<F: Fn(u32, i64, i64) -> i64 + Sync>(
    page: &mut Page,
    host: &Host<F>,
    kind: &str,
    numbers: &[u32],
    placed: &Placed,
    clocks: &[NodeClock],
    core: &mut Core,
    actors: u32,
)
    requires serves { Serves F.pre F.post host.now }
    requires kinds { kinds_of (lent host.now) ≡ kinds_of core.old.operators }
    requires unbegun { IsUnbegun core.old }
    requires flat { IsFlat placed.now.nodes clocks.now core.old.net }
    requires actors { actors ≡ length core.old.net.actors }
{
    // The contract alone speaks of the clocks.
    let _ = clocks.len();
    show_events(page, host, kind, numbers, core, actors);
    if !core.finished() {
        page.put("not finished\n");
    }
    for i in 0..MOST_OUTPUTS {
        if has_result(placed, i) {
            page.put(format_args!("output {i}"));
            page.put_list(core.output(i));
        }
    }
}
