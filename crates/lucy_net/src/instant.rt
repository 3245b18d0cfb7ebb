// One instant: the firings of all actors that fire in it.
ghost use Rattle.std.specs.Prelude.{ℕ, ◌≡◌, ◌<◌, ◌≤◌, ◌^◌, List, [], All, length, slice_index, IfOk};
ghost use Rattle.lucy_net.specs.Proper.{numbers_where, IsProper};
ghost use Rattle.lucy_net.specs.Instants.{slot, is_busy};
ghost use Rattle.lucy_net.specs.Play.{IsPlayedSoFar, CanBeginInstant};
ghost use Rattle.lucy_net.specs.Settling.{AreFiringsLeft, IsInstantLeft};

use crate::net::Net;
use crate::settle::{Wait, settle};
use std::alloc::AllocError;

// Plays the firings of these actors, one after another, up to one in which actors come to wait for each other: those that wait from
// the place on that is the result.
fn settle_all(
    net: &Net,
    before: u64,
    firing: &[u32],
    steps: &mut [u32],
    held: &mut [u64],
    depth: &mut [u32],
    order: &mut Vec<u32>,
    waits: &mut Vec<Wait>,
) -> Result<Option<usize>, AllocError>
    requires proper { IsProper net.now }
    requires early { before < 2 ^ 32 }
    requires firing { All (λ a. 0 < length (slot net.now before a)) firing.now }
    requires played { IsPlayedSoFar net.now before order.old.items steps.old held.old }
    requires depths { length depth.old ≡ length net.now.actors }
    requires unmarked { (a : ℕ) → slice_index depth.old a ≡ 0 }
    requires none { waits.old.items ≡ [] }
    ensures { IfOk result (AreFiringsLeft net.now before firing.now order.new.items steps.new held.new depth.new waits.new.items) }
{
    for actor in firing {
        let settled = settle(net, before, *actor, steps, held, depth, order, waits)?;
        if let Some(place) = settled {
            return Ok(Some(place));
        }
    }
    Ok(None)
}

// Lets these actors have done nothing.
fn clear(firing: &[u32], steps: &mut [u32])
    requires { All (λ a. a < length steps.old) firing.now }
    ensures cleared { All (λ a. slice_index steps.new a ≡ 0) firing.now }
    ensures kept { (a : ℕ) → slice_index steps.old a ≡ 0 → slice_index steps.new a ≡ 0 }
{
    for actor in firing {
        steps[*actor as usize] = 0;
    }
}

/// Plays an instant in which these actors fire: gives the order of its events, or the place among the actors that wait from which on
/// they wait for each other.
///
/// `steps` and `depth` are 0 for each actor before it, and none waits; it is so again where there is no such place. `held` are the
/// rings' items.
pub(crate) fn play_instant(
    net: &Net,
    before: u64,
    firing: &[u32],
    steps: &mut [u32],
    held: &mut [u64],
    depth: &mut [u32],
    order: &mut Vec<u32>,
    waits: &mut Vec<Wait>,
) -> Result<Option<usize>, AllocError>
    requires proper { IsProper net.now }
    requires early { before < 2 ^ 32 }
    requires firing { firing.now ≡ numbers_where (is_busy net.now before) (length net.now.actors) }
    requires ready { CanBeginInstant net.now before steps.old held.old depth.old }
    requires fresh { order.old.items ≡ [] }
    requires none { waits.old.items ≡ [] }
    ensures { IfOk result (IsInstantLeft net.now before order.new.items steps.new held.new depth.new waits.new.items) }
{
    let settled = settle_all(net, before, firing, steps, held, depth, order, waits)?;
    if let Some(place) = settled {
        return Ok(Some(place));
    }
    clear(firing, steps);
    Ok(None)
}
