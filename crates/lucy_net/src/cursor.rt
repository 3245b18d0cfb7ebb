// Where an actor is in the word that it reads.
ghost use Rattle.std.specs.Prelude.{ℕ, ◌+◌, ◌<◌, ◌≤◌, ◌^◌};
ghost use Rattle.lucy_net.specs.Plans.{form_of};
ghost use Rattle.lucy_net.specs.Cursors.{Reads, IsCursor, HasCursor};

use crate::kind::ActorKind;
use lucy_word::{Word, words_are_stored};

// The bit at the cursor of a sampling or a merge.
#[inline(always)]
pub(crate) fn bit_under(kind: &ActorKind, cursor: u64) -> bool
    requires { (fired : ℕ) × HasCursor (form_of kind.now) fired cursor }
    ensures { (fired : ℕ) → HasCursor (form_of kind.now) fired cursor → Reads (form_of kind.now) fired result }
{
    match kind {
        ActorKind::When(word) => word.bit(cursor),
        ActorKind::Merge(word) => word.bit(cursor),
        _ => false,
    }
}

// One bit on.
#[inline(always)]
pub(crate) fn next_bit(word: &Word, cursor: u64) -> u64
    requires { (fired : ℕ) × IsCursor word.now fired cursor }
    ensures { (fired : ℕ) → IsCursor word.now fired cursor → IsCursor word.now (fired + 1) result }
{
    let (prefix, period) = word.lengths();
    if cursor < prefix + period {
        cursor + 1
    } else {
        prefix + 1
    }
}

// The cursor before the first firing.
pub(crate) fn first_cursor(kind: &ActorKind) -> u64
    ensures { HasCursor (form_of kind.now) 0 result }
{
    match kind {
        ActorKind::When(word) => start_of(word),
        ActorKind::Merge(word) => start_of(word),
        _ => 1,
    }
}

// The first bit of a word, which has one.
fn start_of(word: &Word) -> u64
    ensures { IsCursor word.now 0 result }
{
    words_are_stored(word);
    1
}
