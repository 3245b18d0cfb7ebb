// How long items wait in a buffer, and when it is fullest.
ghost use Rattle.std.specs.Prelude.{◌≡◌, ◌≤◌, length, IfOk, IfSome};
ghost use Rattle.lucy_picture.specs.Charts.{waiting, IsFirstFull};
ghost use Rattle.lucy_explain.specs.Waits.{Waits, AreWaits};

use lucy_word::Word;
use std::alloc::{AllocError, Global};

// How long an item waits, by its number from 1, where its instants have 64 bits and it is read no earlier than it is written.
fn wait_of(write: &Word, read: &Word, item: u64) -> Option<u64>
    ensures { IfSome result (Waits write.now read.now item) }
{
    let Some(written) = write.index(item) else {
        return None;
    };
    let Some(reached) = read.index(item) else {
        return None;
    };
    if reached < written {
        return None;
    }
    Some(reached - written)
}

/// How many instants each of the first items of a buffer waits that is written and read on these words, in order: so many of them, or those
/// before the first one whose instants have more than 64 bits, or that is read before it is written.
pub fn waits_of(
    alloc: Global,
    write: &Word,
    read: &Word,
    items: u64,
) -> Result<Vec<u64>, AllocError>
    ensures waits { IfOk result (λ v. AreWaits write.now read.now v.items) }
    ensures few { IfOk result (λ v. length v.items ≤ items) }
{
    let mut waits = Vec::new(alloc);
    'each: for i in 0..items {
        let Some(wait) = wait_of(write, read, i + 1) else {
            return Ok(waits);
        };
        waits.push(wait)?;
    }
    Ok(waits)
}

// How many items wait at an instant.
fn waiting_at(write: &Word, read: &Word, instant: u64) -> u64
    ensures { result ≡ waiting write.now read.now instant }
{
    write.ones(instant).saturating_sub(read.ones(instant))
}

/// The first instant, up to a last one, at which as many items wait as a size above 0; none, where more would wait before it.
pub(crate) fn first_full(write: &Word, read: &Word, size: u64, last: u64) -> Option<u64>
    ensures { IfSome result (IsFirstFull write.now read.now size) }
{
    if size == 0 {
        return None;
    }
    'each: for i in 0..last {
        let waiting = waiting_at(write, read, i + 1);
        if waiting == size {
            return Some(i + 1);
        }
        if waiting > size {
            return None;
        }
    }
    None
}
