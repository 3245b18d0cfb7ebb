// An input whose items are put out.
ghost use Rattle.std.specs.Prelude.{◌≡◌, ◌+◌, ◌<◌, ◌≤◌, [], ◌∷◌, false, true, length, IfOk, OnOk};
ghost use Rattle.lucy_word.specs.Limits.{limit_number};
ghost use Rattle.lucy_word.specs.declared.limit.Limit.TheVariants as lim;
ghost use Rattle.lucy_net_rows.specs.Echo.{giver, taker, ring, echo, IsEchoReady, IsEcho};
ghost use Rattle.lucy_core.specs.Seen.{IsOver};

use crate::lists::push;
use crate::ready::one_input;
use lucy_core::Core;
use lucy_host::Ops;
use lucy_net::{Actor, ActorKind, Actors, Net, Numbers, RingSpec, Rings, schedule_of};
use lucy_runner::Runner;
use lucy_word::Word;
use std::alloc::{AllocError, Global};

// No number, or the number 0.
fn numbers(alloc: Global, zero: bool) -> Result<Numbers, AllocError>
    ensures none { zero ≡ false → IfOk result (λ n. n ≡ []) }
    ensures one { zero ≡ true → IfOk result (λ n. n ≡ 0 ∷ []) }
{
    let mut list = Vec::new(alloc);
    if zero {
        list.push(0)?;
    }
    Ok(Numbers::new(list))
}

// The actor that gives to ring 0, or the one that takes from it.
fn actor(alloc: Global, word: &Word, is_input: bool) -> Result<Actor, AllocError>
    ensures input { is_input ≡ true → IfOk result (λ a. a ≡ giver word.now) }
    ensures output { is_input ≡ false → IfOk result (λ a. a ≡ taker word.now) }
{
    let takes = numbers(alloc, !is_input)?;
    let gives = numbers(alloc, is_input)?;
    let firing = word.copy(alloc)?;
    let kind = if is_input {
        ActorKind::Input(0)
    } else {
        ActorKind::Output(0)
    };
    Ok(Actor {
        kind,
        firing,
        takes,
        gives,
    })
}

// The ring between them.
fn between(alloc: Global, word: &Word) -> Result<RingSpec, AllocError>
    ensures { IfOk result (λ spec. spec ≡ ring word.now) }
{
    let write = word.copy(alloc)?;
    let read = word.copy(alloc)?;
    Ok(RingSpec {
        from: 0,
        to: 1,
        write,
        read,
        size: 0,
    })
}

// Puts both actors and the ring into empty lists.
fn fill(
    alloc: Global,
    word: &Word,
    actors: &mut Vec<Actor>,
    rings: &mut Vec<RingSpec>,
) -> Result<(), AllocError>
    requires empty { (actors.old.items ≡ []) × (rings.old.items ≡ []) }
    ensures actors { OnOk result (actors.new.items ≡ giver word.now ∷ taker word.now ∷ []) }
    ensures rings { OnOk result (rings.new.items ≡ ring word.now ∷ []) }
{
    push(actors, actor(alloc, word, true)?)?;
    push(actors, actor(alloc, word, false)?)?;
    push(rings, between(alloc, word)?)
}

fn net(alloc: Global, word: &Word) -> Result<Net, AllocError>
    ensures { IfOk result (λ net. net ≡ echo word.now) }
{
    let mut actors = Vec::new(alloc);
    let mut rings = Vec::new(alloc);
    match fill(alloc, word, &mut actors, &mut rings) {
        Ok(()) => Ok(Net {
            actors: Actors::new(actors),
            rings: Rings::new(rings),
        }),
        Err(_) => Err(AllocError),
    }
}

// A core of the net, for as many instants as there are items.
fn core(alloc: Global, ops: &Ops, word: &Word, items: &[u32]) -> Result<Core, AllocError>
    requires { length items.now ≤ limit_number lim.Instants }
    ensures { IfOk result (IsEchoReady word.now ops.now (length items.now)) }
{
    let inputs = one_input(alloc, items)?;
    let net = net(alloc, word)?;
    match schedule_of(alloc, &net) {
        Ok(schedule) => {
            let instants = items.len() as u64;
            Core::new(alloc, net, schedule, inputs, ops, instants)
        }
        Err(_) => Err(AllocError),
    }
}

/// A runner of the net by so many workers, from 1 to 64, for as many instants as there are items. The input is in worker 0, the
/// output in worker 1, where there is one.
pub(crate) fn runner(
    alloc: Global,
    ops: &Ops,
    word: &Word,
    items: &[u32],
    workers: u32,
) -> Result<Runner, AllocError>
    requires few { length items.now ≤ limit_number lim.Instants }
    requires workers { (1 ≤ workers) × (workers ≤ 64) }
    ensures echo { IfOk result (λ runner. IsEcho ops.now runner.seen) }
    ensures instants { IfOk result (λ runner. runner.seen.instants ≡ length items.now) }
{
    let core = core(alloc, ops, word, items)?;
    let second = if workers > 1 { 1 } else { 0 };
    Runner::new(alloc, core, workers, &[0, second])
}

/// One item and one instant more, where all before is done.
pub(crate) fn grow(
    alloc: Global,
    runner: &mut Runner,
    ops: &Ops,
    item: u32,
    instants: u64,
) -> Result<(), AllocError>
    requires echo { IsEcho ops.now runner.old.seen }
    requires over { IsOver runner.old.seen }
    requires at { runner.old.seen.instants ≡ instants }
    requires few { instants < limit_number lim.Instants }
    ensures echo { IfOk result (λ _. IsEcho ops.now runner.new.seen) }
    ensures instants { IfOk result (λ _. runner.new.seen.instants ≡ instants + 1) }
{
    // The contract alone speaks of the operators.
    let _ = ops.count();
    let inputs = one_input(alloc, &[item])?;
    runner.more(alloc, &inputs, instants + 1)
}
