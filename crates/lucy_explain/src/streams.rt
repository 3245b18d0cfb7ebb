// Which clocks of a node are one stream's.
ghost use Rattle.std.specs.Prelude.{ℕ, List, ◌≡◌, ◌↔◌, ◌<◌, ◌+◌, Some, length, slice_index, slice_get, IfOk, IsTrue, MatchOption};
ghost use Rattle.std.specs.List.{range_with_len};
ghost use Rattle.lucy_word.specs.Always.{always as ticking};
ghost use Rattle.lucy_need.specs.Meeting.{alone};
ghost use Rattle.lucy_need.specs.declared.need.Need.{Need as Wanted};
ghost use Rattle.lucy_need.specs.declared.need.Need.TheVariants.{Equal};
ghost use Rattle.lucy_explain.specs.Streams.{Ties, AreStreams};
ghost use Rattle.lucy_explain.specs.Joining.{renamed, AreStreamsOf};

use lucy_need::{Need, Needs, Term, always};
use lucy_word::Word;
use std::alloc::{AllocError, Global};

// Whether a term is a clock alone.
fn is_alone(term: &Term, always: &Word) -> bool
    requires { always.now ≡ ticking }
    ensures { IsTrue result ↔ (term.now.word ≡ ticking) }
{
    term.word.same(always)
}

// The clocks that a need ties, where it ties two.
fn tied_clocks(need: &Need, always: &Word) -> Option<(u32, u32)>
    requires { always.now ≡ ticking }
    ensures { MatchOption result ((c d : ℕ) → Ties need.now c d → ⊥) (λ pair. need.now ≡ Equal (alone pair.0) (alone pair.1)) }
{
    match need {
        Need::Equal(first, second) => {
            if is_alone(first, always) && is_alone(second, always) {
                Some((first.clock, second.clock))
            } else {
                None
            }
        }
        Need::Adapt(_, _) => None,
    }
}

// Puts one number in place of another.
fn rename(streams: &mut [u32], old: u32, new: u32)
    ensures { (k : ℕ) → k < length streams.old → slice_index streams.new k ≡ renamed old new (slice_index streams.old k) }
{
    'each: for stream in streams.iter_mut() {
        if *stream == old {
            *stream = new;
        }
    }
}

// The numbers of two clocks, the second one's first, where both are there and differ.
fn apart(streams: &[u32], one: u32, two: u32) -> Option<(u32, u32)>
    ensures { MatchOption result
        (one < length streams.now → two < length streams.now → slice_index streams.now one ≡ slice_index streams.now two)
        (λ pair. (one < length streams.now) × (two < length streams.now) × (pair.0 ≡ slice_index streams.now two) × (pair.1 ≡ slice_index streams.now one)) }
{
    let (one, two) = (one as usize, two as usize);
    if one >= streams.len() || two >= streams.len() || streams[one] == streams[two] {
        return None;
    }
    Some((streams[two], streams[one]))
}

// Joins two clocks that are tied by a need that comes next.
fn join(streams: &mut [u32], one: u32, two: u32)
    ensures { (needs : List Wanted) (clocks upto : ℕ) (need : Wanted) → AreStreamsOf needs clocks upto streams.old → slice_get needs upto ≡ Some need →
        need ≡ Equal (alone one) (alone two) → AreStreamsOf needs clocks (upto + 1) streams.new }
{
    match apart(streams, one, two) {
        Some((old, new)) => rename(streams, old, new),
        None => (),
    }
}

// Joins the clocks that are tied by a need that comes next.
fn join_need(streams: &mut [u32], always: &Word, need: &Need)
    requires { always.now ≡ ticking }
    ensures { (needs : List Wanted) (clocks upto : ℕ) → AreStreamsOf needs clocks upto streams.old → slice_get needs upto ≡ Some need.now →
        AreStreamsOf needs clocks (upto + 1) streams.new }
{
    match tied_clocks(need, always) {
        Some((one, two)) => join(streams, one, two),
        None => (),
    }
}

// Each clock by itself.
fn numbered(alloc: Global, clocks: u32) -> Result<Vec<u32>, AllocError>
    ensures { IfOk result (λ v. v.items ≡ range_with_len 0 clocks) }
{
    let mut list = Vec::new(alloc);
    'each: for clock in 0..clocks {
        list.push(clock)?;
    }
    Ok(list)
}

/// For each clock of needs the number of a clock with which it is one stream's, the same for clocks that needs tie.
pub(crate) fn clock_streams(alloc: Global, needs: &Needs) -> Result<Vec<u32>, AllocError>
    ensures { IfOk result (λ v. AreStreams needs.now.list needs.now.clocks v.items) }
{
    let mut streams = numbered(alloc, needs.clocks)?;
    let always = always(alloc)?;
    'each: for need in needs.list.list() {
        join_need(&mut streams, &always, need);
    }
    drop(always);
    Ok(streams)
}
