// A ring of two slots, whose ends are in two threads.
ghost use Rattle.std.specs.Prelude.{◌≡◌, []};

use lucy_ring::{Giver, Taker, meet, ring};
use std::io;
use std::sync::Wait;
use std::thread::{self, Threads};

// Gives the numbers from 0 on, each as soon as there is a slot.
fn give_all<R: Wait>(rt: &R, mut giver: Giver, count: u32) -> Giver
    requires fresh { giver.given ≡ [] }
    ensures ring { result.ring ≡ giver.ring }
{
    let mut next = 0u32;
    for _ in rt.forever() {
        if next >= count {
            break;
        }
        if giver.give(i64::from(next)).is_ok() {
            next += 1;
        }
    }
    giver
}

// Takes so many numbers, and says whether they came in order from 0 on.
fn take_all<R: Wait>(rt: &R, mut taker: Taker, count: u32) -> (Taker, bool)
    requires fresh { taker.taken ≡ [] }
    ensures ring { result.0.ring ≡ taker.ring }
{
    let mut next = 0u32;
    let mut in_order = true;
    for _ in rt.forever() {
        if next >= count {
            break;
        }
        if let Some(item) = taker.take() {
            in_order = in_order && item == i64::from(next);
            next += 1;
        }
    }
    (taker, in_order)
}

/// Sends a thousand numbers from one thread to another, and prints whether they came in order and left the ring empty.
pub(crate) fn show<R: Print + AllocGlobal + Threads + Wait + Sync>(rt: &R) -> io::Result<()> {
    let Ok((giver, taker)) = ring(rt.alloc(), 2) else {
        return println!(rt; "no memory");
    };
    let (mut giver, (mut taker, in_order)) = thread::join(
        rt,
        move || -> Giver
            requires { giver.given ≡ [] }
            ensures { result.ring ≡ giver.ring }
        { give_all(rt, giver, 1_000) },
        move || -> (Taker, bool)
            requires { taker.taken ≡ [] }
            ensures { result.0.ring ≡ taker.ring }
        { take_all(rt, taker, 1_000) },
    );
    meet(&mut giver, &mut taker);
    let is_empty = taker.take().is_none() && giver.give(7).is_ok();
    println!(rt; "two threads: in order {in_order}, empty {is_empty}")
}
