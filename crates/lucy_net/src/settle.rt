// The firings of one instant, played by counts: an actor that finds a ring empty lets the ring's giver go on first.
ghost use Rattle.std.specs.Prelude.{ℕ, ◌≡◌, ◌+◌, ◌<◌, ◌≤◌, ◌^◌, [], length, slice_index, IfOk};
ghost use Rattle.lucy_net.specs.Proper.{IsProper};
ghost use Rattle.lucy_net.specs.Instants.{slot};
ghost use Rattle.lucy_net.specs.Play.{IsPlayedSoFar};
ghost use Rattle.lucy_net.specs.Waiting.{actor_at, IsResumed, IsPutToWait};
ghost use Rattle.lucy_net.specs.Settling.{IsFiringLeft};

use crate::advance::{Event, advance};
use crate::net::Net;
use std::alloc::AllocError;

/// The actor waits for an item of the ring.
#[derive(Clone, Copy)]
pub(crate) struct Wait {
    pub actor: u32,
    pub ring: u32,
}

// Who goes on after a give: the one that waited for it, or else the giver.
fn resume(waits: &mut Vec<Wait>, depth: &mut [u32], now: usize, ring: u32) -> usize
    requires { (k : ℕ) → k < length waits.old.items → actor_at waits.old.items now k < length depth.old }
    ensures { IsResumed waits.old.items waits.new.items depth.old depth.new now ring result }
{
    match waits.last() {
        Some(wait) if wait.ring == ring => {
            let next = wait.actor as usize;
            waits.pop();
            depth[next] = 0;
            next
        }
        _ => now,
    }
}

// The actor waits for an item of the ring, as the last of those that wait, and is marked by how many they are now.
fn put_wait(
    waits: &mut Vec<Wait>,
    depth: &mut [u32],
    actor: u32,
    ring: u32,
) -> Result<(), AllocError>
    requires actor { actor < length depth.old }
    requires few { length waits.old.items + 1 < 2 ^ 32 }
    ensures { IfOk result (λ _. IsPutToWait waits.old.items waits.new.items depth.old depth.new actor ring) }
{
    waits.push(Wait { actor, ring })?;
    depth[actor as usize] = waits.len() as u32;
    Ok(())
}

/// Plays the firing of one actor to its end, and before each take that finds nothing the ring's giver up to its give. Before it none
/// waits, and so at its end; else the result is the place among those that wait from which on each waits for an item that the next
/// one gives, and the last one for one of the first.
///
/// `steps` are the operations that the actors have done in the instant, `held` the rings' items, and `order` the events so
/// far. `depth` is 0 for each actor and is so again at the end.
pub(crate) fn settle(
    net: &Net,
    before: u64,
    first: u32,
    steps: &mut [u32],
    held: &mut [u64],
    depth: &mut [u32],
    order: &mut Vec<u32>,
    waits: &mut Vec<Wait>,
) -> Result<Option<usize>, AllocError>
    requires proper { IsProper net.now }
    requires early { before < 2 ^ 32 }
    requires first { first < length net.now.actors }
    requires played { IsPlayedSoFar net.now before order.old.items steps.old held.old }
    requires depths { length depth.old ≡ length net.now.actors }
    requires unmarked { (a : ℕ) → slice_index depth.old a ≡ 0 }
    requires busy { 0 < length (slot net.now before first) }
    requires none { waits.old.items ≡ [] }
    ensures left { IfOk result (IsFiringLeft net.now before first order.new.items steps.new held.new depth.new waits.new.items) }
    ensures grown { IfOk result (λ _. (a : ℕ) → slice_index steps.old a ≤ slice_index steps.new a) }
{
    let actors = net.actors.list();
    let rings = net.rings.list();
    let mut now = first as usize;
    'events: loop {
        match advance(&actors[now], before, &mut steps[now], held) {
            Event::Over => return Ok(None),
            Event::Took => order.push(now as u32)?,
            Event::Gave(ring) => {
                order.push(now as u32)?;
                now = resume(waits, depth, now, ring);
            }
            Event::Waits(ring) => {
                put_wait(waits, depth, now as u32, ring)?;
                now = rings[ring as usize].from as usize;
                if depth[now] > 0 {
                    return Ok(Some((depth[now] - 1) as usize));
                }
            }
        }
    }
}
