// Rows of a running sum whose rounds are made by hand, by two workers. Each round is followed by a core: whether its events lead to the
// state behind the round, and whether each actor moved whose next event was possible before.
ghost use Rattle.std.specs.Prelude.{◌≡◌, length};
ghost use Rattle.lucy_host.specs.Host.{Serves, lent};
ghost use Rattle.lucy_host.specs.Operators.{kinds_of};

use crate::by_hand::ByHand;
use crate::page::Page;
use lucy_core::{Core, CoreParts};
use lucy_host::Host;
use std::alloc::Global;

// More rounds than any row has, and more events in one.
const MOST_ROUNDS: u32 = 1 << 10;

const MOST_PASSES: u32 = 1 << 10;

// Does each event of the core that is possible and that its actor did by hand, and then those that are possible behind these.
fn follow<F: Fn(u32, i64, i64) -> i64 + Sync>(
    core: &mut Core,
    host: &Host<F>,
    hand: &ByHand,
    actors: u32,
)
    requires serves { Serves F.pre F.post host.now }
    requires kinds { kinds_of (lent host.now) ≡ kinds_of core.old.operators }
    requires actors { actors ≡ length core.old.net.actors }
    ensures net { core.new.net ≡ core.old.net }
    ensures operators { core.new.operators ≡ core.old.operators }
{
    'passes: for _ in 0..MOST_PASSES {
        'actors: for actor in 0..actors {
            if core.done(actor) < hand.done_by(actor) && core.can(actor) {
                core.step(host, actor);
            }
        }
    }
}

// Whether each actor has done as many operations in the core as by hand.
fn is_reached(core: &Core, hand: &ByHand, actors: u32) -> bool
    requires { actors ≡ length core.now.net.actors }
{
    for actor in 0..actors {
        if core.done(actor) != hand.done_by(actor) {
            return false;
        }
    }
    true
}

// Whether an actor whose next event is possible in the core has not gone on by hand.
fn is_left_out(core: &Core, hand: &ByHand, actors: u32) -> bool
    requires { actors ≡ length core.now.net.actors }
{
    for actor in 0..actors {
        if core.can(actor) && hand.done_by(actor) <= core.done(actor) {
            return true;
        }
    }
    false
}

// Shows rounds until all is done, and what is put out. Behind each the core stands where the actors do.
fn show_rounds<F: Fn(u32, i64, i64) -> i64 + Sync>(
    page: &mut Page,
    host: &Host<F>,
    core: &mut Core,
    hand: &mut ByHand,
    actors: u32,
)
    requires serves { Serves F.pre F.post host.now }
    requires kinds { kinds_of (lent host.now) ≡ kinds_of core.old.operators }
    requires actors { actors ≡ length core.old.net.actors }
{
    'rounds: for before in 0..MOST_ROUNDS {
        if hand.done() {
            break;
        }
        let (even, odd) = hand.round(host);
        let left_out = is_left_out(core, hand, actors);
        follow(core, host, hand, actors);
        let reached = is_reached(core, hand, actors);
        page.put(format_args!(
            "round {}: moves {even} and {odd}, reached {reached}, left out {left_out}\n",
            before + 1
        ));
    }
    page.put(format_args!("done {}, by a core {}\n", hand.done(), core.finished()));
    hand.show_output(page);
}

/// Makes the rounds of the net of a core by hand, and shows them.
pub(crate) fn show<F: Fn(u32, i64, i64) -> i64 + Sync>(
    page: &mut Page,
    alloc: Global,
    host: &Host<F>,
    core: Core,
    actors: u32,
)
    requires serves { Serves F.pre F.post host.now }
    requires kinds { kinds_of (lent host.now) ≡ kinds_of core.operators }
    requires actors { actors ≡ length core.net.actors }
{
    let CoreParts {
        net,
        schedule,
        inputs,
        ops,
        instants,
    } = core.into_parts();
    let mut hand = ByHand::new(alloc, &net, inputs.get(0), instants);
    let mut core = Core::new(alloc, net, schedule, inputs, &ops, instants);
    match (&mut hand, &mut core) {
        (Ok(hand), Ok(core)) => show_rounds(page, host, core, hand, actors),
        _ => page.put("no memory\n"),
    };
}
