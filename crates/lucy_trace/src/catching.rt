// Leading a core to where each actor has done so many operations.
ghost use Rattle.std.specs.Prelude.{ℕ, ◌≡◌, ◌+◌, ◌<◌, ◌≤◌, ◌++◌, ◌∷◌, [], length, vec_capacity, IsTrue, IsFalse, IfOk, IfSome, OnOk, OnErr};
ghost use Rattle.lucy_host.specs.Host.{Serves, lent};
ghost use Rattle.lucy_host.specs.Operators.{kinds_of};
ghost use Rattle.lucy_core.specs.Seen.{CanStep, CanRun, CanGoOn, HasDoneAtMost, after_picks, done_of, stepped};
ghost use Rattle.lucy_trace.specs.Catching.{IsAhead};
ghost use Rattle.lucy_trace.specs.Steps.{HasBeenLed, HasRoomForEvents, all_of};

use lucy_core::Core;
use lucy_host::Host;
use std::alloc::{AllocError, Global};

// How many operations the actors have left until each has done its number. None where no memory has room for so many.
fn left_until(core: &Core, counts: &[u64]) -> Option<usize>
    requires count { length counts.now ≡ length core.now.net.actors }
    requires most { HasDoneAtMost core.now counts.now }
    ensures { IfSome result (λ left. left + all_of core.now core.now.done ≡ all_of core.now counts.now) }
{
    core.runs_go_on();
    let mut left = 0usize;
    for (actor, count) in counts.iter().enumerate() {
        let more = *count - core.done(actor as u32);
        left = left.checked_add(more as usize)?;
    }
    Some(left)
}

// No event yet, and room for those until each actor has done its number.
fn room_until(alloc: Global, core: &Core, counts: &[u64]) -> Result<Vec<u32>, AllocError>
    requires count { length counts.now ≡ length core.now.net.actors }
    requires most { HasDoneAtMost core.now counts.now }
    ensures none { IfOk result (λ picks. picks.items ≡ []) }
    ensures room { IfOk result (λ picks. HasRoomForEvents counts.now core.now 0 (vec_capacity picks)) }
{
    match left_until(core, counts) {
        Some(left) => Ok(Vec::with_capacity(alloc, left)?),
        None => Err(AllocError),
    }
}

// Does the actor's next operation where it has done fewer than so many, and can.
fn step_to<F: Fn(u32, i64, i64) -> i64 + Sync>(
    core: &mut Core,
    host: &Host<F>,
    actor: u32,
    count: u64,
    picks: &mut Vec<u32>,
) -> bool
    requires serves { Serves F.pre F.post host.now }
    requires kinds { kinds_of (lent host.now) ≡ kinds_of core.old.operators }
    requires there { actor < length core.old.net.actors }
    requires room { done_of core.old.done actor < count → length picks.old.items < vec_capacity picks.old }
    ensures fewer { IsTrue result → done_of core.old.done actor < count }
    ensures can { IsTrue result → CanStep core.old actor }
    ensures moved { IsTrue result → (core.new ≡ stepped core.old actor) × (picks.new.items ≡ picks.old.items ++ actor ∷ []) }
    ensures stayed { IsFalse result → (core.new ≡ core.old) × (picks.new ≡ picks.old) }
    ensures stopped { IsFalse result → done_of core.old.done actor < count → CanStep core.old actor → ⊥ }
    ensures room { vec_capacity picks.old ≤ vec_capacity picks.new }
{
    if core.done(actor) >= count || !core.can(actor) {
        return false;
    }
    core.step(host, actor);
    picks.push(actor).unwrap();
    true
}

// Does the actor's operations until it has done its number, or can't go on.
fn go_on<F: Fn(u32, i64, i64) -> i64 + Sync>(
    core: &mut Core,
    host: &Host<F>,
    actor: u32,
    counts: &[u64],
    picks: &mut Vec<u32>,
)
    requires serves { Serves F.pre F.post host.now }
    requires kinds { kinds_of (lent host.now) ≡ kinds_of core.old.operators }
    requires count { length counts.now ≡ length core.old.net.actors }
    requires there { actor < length counts.now }
    requires most { HasDoneAtMost core.old counts.now }
    requires room { HasRoomForEvents counts.now core.old (length picks.old.items) (vec_capacity picks.old) }
    ensures on { HasBeenLed counts.now core.old core.new picks.old.items picks.new.items }
    ensures room { vec_capacity picks.old ≤ vec_capacity picks.new }
    ensures stopped { length picks.new.items ≡ length picks.old.items →
        done_of core.old.done actor < done_of counts.now actor → CanStep core.old actor → ⊥ }
{
    core.runs_go_on();
    let count = counts[actor as usize];
    'steps: while step_to(core, host, actor, count, picks) {}
}

// Lets each actor go on, from the first to the last or, if `back`, from the last to the first.
fn pass<F: Fn(u32, i64, i64) -> i64 + Sync>(
    core: &mut Core,
    host: &Host<F>,
    counts: &[u64],
    picks: &mut Vec<u32>,
    back: bool,
)
    requires serves { Serves F.pre F.post host.now }
    requires kinds { kinds_of (lent host.now) ≡ kinds_of core.old.operators }
    requires count { length counts.now ≡ length core.old.net.actors }
    requires most { HasDoneAtMost core.old counts.now }
    requires room { HasRoomForEvents counts.now core.old (length picks.old.items) (vec_capacity picks.old) }
    ensures on { HasBeenLed counts.now core.old core.new picks.old.items picks.new.items }
    ensures room { vec_capacity picks.old ≤ vec_capacity picks.new }
    ensures stopped { length picks.new.items ≡ length picks.old.items → CanGoOn core.old counts.now → ⊥ }
{
    core.runs_go_on();
    let count = counts.len();
    for k in 0..count {
        let actor = if back { count - 1 - k } else { k };
        go_on(core, host, actor as u32, counts, picks);
    }
}

// Lets the actors go on until each has done its number.
fn go_there<F: Fn(u32, i64, i64) -> i64 + Sync>(
    core: &mut Core,
    host: &Host<F>,
    counts: &[u64],
    picks: &mut Vec<u32>,
)
    requires serves { Serves F.pre F.post host.now }
    requires kinds { kinds_of (lent host.now) ≡ kinds_of core.old.operators }
    requires count { length counts.now ≡ length core.old.net.actors }
    requires ahead { IsAhead core.old counts.now }
    requires room { HasRoomForEvents counts.now core.old (length picks.old.items) (vec_capacity picks.old) }
    ensures on { HasBeenLed counts.now core.old core.new picks.old.items picks.new.items }
    ensures there { core.new ≡ record core.old { done = counts.now } }
{
    core.runs_go_on();
    let mut back = false;
    let mut moved = true;
    while moved {
        let before = picks.len();
        pass(core, host, counts, picks, back);
        moved = picks.len() > before;
        back = !back;
    }
}

/// Leads the core to where each actor has done its number of operations, and answers the events by which it was led. A run leads
/// there. Its memory is taken before the first event, and a refusal leaves the core as it was.
pub fn catch_up<F: Fn(u32, i64, i64) -> i64 + Sync>(
    alloc: Global,
    core: &mut Core,
    done: &[u64],
    host: &Host<F>,
) -> Result<Vec<u32>, AllocError>
    requires serves { Serves F.pre F.post host.now }
    requires kinds { kinds_of (lent host.now) ≡ kinds_of core.old.operators }
    requires count { length done.now ≡ length core.old.net.actors }
    requires ahead { IsAhead core.old done.now }
    ensures run { IfOk result (λ picks. CanRun core.old picks.items × (core.new ≡ after_picks core.old picks.items)) }
    ensures there { OnOk result (core.new ≡ record core.old { done = done.now }) }
    ensures refused { OnErr result (core.new ≡ core.old) }
{
    core.runs_go_on();
    let mut picks = room_until(alloc, core, done)?;
    go_there(core, host, done, &mut picks);
    Ok(picks)
}
