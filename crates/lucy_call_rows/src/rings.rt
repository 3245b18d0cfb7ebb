// A ring of two slots, whose ends are in one thread.
ghost use Rattle.std.specs.Prelude.{◌≡◌, ◌+◌, ◌≤◌, length};

use lucy_ring::{Giver, Taker, meet, ring};
use std::io;

// Gives the number, and prints whether it went in.
fn give(rt: &impl Print, giver: &mut Giver, item: i64) -> io::Result<()>
    requires few { length giver.old.given ≤ 64 }
    ensures ring { giver.new.ring ≡ giver.old.ring }
    ensures given { length giver.new.given ≤ length giver.old.given + 1 }
{
    match giver.give(item) {
        Ok(()) => print!(rt; " in"),
        Err(item) => print!(rt; " back {item}"),
    }
}

// Takes a number, and prints it.
fn take(rt: &impl Print, taker: &mut Taker) -> io::Result<()>
    requires few { length taker.old.taken ≤ 64 }
    ensures ring { taker.new.ring ≡ taker.old.ring }
    ensures taken { length taker.new.taken ≤ length taker.old.taken + 1 }
{
    match taker.take() {
        Some(item) => print!(rt; " out {item}"),
        None => print!(rt; " none"),
    }
}

/// Does what the line says of a ring, at most 64 steps, and prints what comes of each: `meet`, `take`, or a number that is given.
pub(crate) fn show(rt: &(impl Print + AllocGlobal), line: &str) -> io::Result<()> {
    let Ok((mut giver, mut taker)) = ring(rt.alloc(), 2) else {
        return println!(rt; "no memory");
    };
    print!(rt; "{line}:")?;
    let mut words = line.split(' ');
    for _ in 0..64u32 {
        match words.next() {
            None => break,
            Some("meet") => meet(&mut giver, &mut taker),
            Some("take") => take(rt, &mut taker)?,
            Some(number) => give(rt, &mut giver, number.parse().unwrap_or(0))?,
        }
    }
    println!(rt;)
}
