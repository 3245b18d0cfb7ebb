// Actors and rings out of drafts.
ghost use Rattle.std.specs.Prelude.{ℕ, List, ◌≡◌, ◌⊎◌, ◌+◌, ◌<◌, ◌≤◌, ◌^◌, Some, length, slice_get, OnOk, IfOk, IfErr};
ghost use Rattle.std.specs.List.{range_with_len};
ghost use Rattle.lucy_word.specs.Shortest.{IsShortest};
ghost use Rattle.lucy_word.specs.Stored.{IsStored};
ghost use Rattle.lucy_word.specs.declared.limit.Limit.TheVariants as lim;
ghost use Rattle.lucy_net.specs.declared.net.RingSpec.{RingSpec as Ring};
ghost use Rattle.lucy_flat.specs.declared.error.FlatError.TheVariants as err;
ghost use Rattle.lucy_flat.specs.declared.draft.Draft.{Draft as One};
ghost use Rattle.lucy_flat.specs.Assembly.{reads_count, all_reads, IsReadOn, ReadsTooLong, IsReadThere, HasKind, AreReadyDrafts, IsRingOf, AreRingsOf, AreHeld, IsRingHeld, AreRingsHeld, IsAssembled, IsReadTooLong, IsNetPast, AreGiven, IsDraftActor, AreActorsOf, IsFiring, IsSampling};

use crate::draft::Draft;
use crate::error::FlatError;
use crate::held::{Held, hold, is_past};
use crate::words::{sampled, test_sampled};
use lucy_net::{Actor, ActorKind, Actors, Net, Numbers, RingSpec, Rings};
use lucy_word::{Limit, Word, turned, words_are_stored};
use std::alloc::{AllocError, Global};

// The word on which an actor takes an operand: a sampling when it is written, a merge where its word says so.
fn read_word(alloc: Global, taker: &Draft, operand: usize, write: &Word) -> Result<Word, FlatError>
    requires kind { HasKind taker.now.kind (reads_count taker.now) }
    requires short { IsShortest taker.now.word }
    requires short_write { IsShortest write.now }
    ensures ok { IfOk result (IsReadOn taker.now.kind operand taker.now.word write.now) }
    ensures shortest { IfOk result IsShortest }
    ensures fits { IfOk result (λ w. ReadsTooLong taker.now.kind operand taker.now.word → ⊥) }
    ensures refused { IfErr result (λ e. (e ≡ err.OutOfMemory) ⊎ ((e ≡ err.Limit lim.Word) × ReadsTooLong taker.now.kind operand taker.now.word)) }
{
    match &taker.kind {
        ActorKind::When(_) => Ok(write.copy(alloc)?),
        ActorKind::Merge(word) if operand == 0 => sampled(alloc, &taker.word, word),
        ActorKind::Merge(word) => {
            let other = turned(alloc, word)?;
            sampled(alloc, &taker.word, &other)
        }
        _ => Ok(taker.word.copy(alloc)?),
    }
}

// Tests that the word on which an actor takes an operand isn't too long; it isn't made.
fn test_read(taker: &Draft, operand: usize, write: &Word) -> Result<(), FlatError>
    requires { HasKind taker.now.kind (reads_count taker.now) }
    ensures ok { OnOk result (IsReadThere taker.now.kind operand taker.now.word write.now) }
    ensures stored { IsStored write.now }
    ensures refused { IfErr result (λ e. (e ≡ err.Limit lim.Word) × ReadsTooLong taker.now.kind operand taker.now.word) }
{
    words_are_stored(&taker.word);
    words_are_stored(write);
    match &taker.kind {
        ActorKind::Merge(word) => {
            words_are_stored(word);
            test_sampled(&taker.word, word)
        }
        _ => Ok(()),
    }
}

fn ring_of(
    alloc: Global,
    drafts: &[Draft],
    to: usize,
    operand: usize,
) -> Result<RingSpec, FlatError>
    requires ready { AreReadyDrafts drafts.now }
    requires to { to < length drafts.now }
    requires operand { (draft : One) → slice_get drafts.now to ≡ Some draft → operand < reads_count draft }
    ensures ok { (draft : One) (from : ℕ) → slice_get drafts.now to ≡ Some draft → slice_get draft.reads.items operand ≡ Some from → IfOk result (IsRingOf drafts.now to operand from draft) }
    ensures refused { IfErr result (λ e. (e ≡ err.OutOfMemory) ⊎ ((e ≡ err.Limit lim.Word) × IsReadTooLong drafts.now)) }
{
    let taker = &drafts[to];
    let from = taker.reads[operand];
    let write = drafts[from as usize].word.copy(alloc)?;
    let read = read_word(alloc, taker, operand, &write)?;
    Ok(RingSpec {
        from,
        to: to as u32,
        write,
        read,
        size: taker.size,
    })
}

// Holds the ring of an operand. Past Bits it is let go of unmade: that its words aren't too long is all that counts.
fn hold_ring(
    alloc: Global,
    drafts: &[Draft],
    to: usize,
    operand: usize,
    held: &mut Held,
) -> Result<(), FlatError>
    requires ready { AreReadyDrafts drafts.now }
    requires to { to < length drafts.now }
    requires operand { (draft : One) → slice_get drafts.now to ≡ Some draft → operand < reads_count draft }
    ensures ok { (rings : List Ring) → AreHeld rings held.old → OnOk result (IsRingHeld drafts.now to operand rings held.new) }
    ensures refused { IfErr result (λ e. (e ≡ err.OutOfMemory) ⊎ ((e ≡ err.Limit lim.Word) × IsReadTooLong drafts.now)) }
{
    if is_past(held) {
        let taker = &drafts[to];
        let from = taker.reads[operand];
        return test_read(taker, operand, &drafts[from as usize].word);
    }
    let next = ring_of(alloc, drafts, to, operand)?;
    hold(held, next)
}

// Holds the rings of an actor's operands.
fn hold_rings(alloc: Global, drafts: &[Draft], to: usize, held: &mut Held) -> Result<(), FlatError>
    requires ready { AreReadyDrafts drafts.now }
    requires to { to < length drafts.now }
    requires before { AreRingsHeld drafts.now to held.old }
    ensures ok { OnOk result (AreRingsHeld drafts.now (to + 1) held.new) }
    ensures refused { IfErr result (λ e. (e ≡ err.OutOfMemory) ⊎ ((e ≡ err.Limit lim.Word) × IsReadTooLong drafts.now)) }
{
    let taker = &drafts[to];
    words_are_stored(&taker.word);
    let count = taker.reads.len();
    'each: for operand in 0..count {
        hold_ring(alloc, drafts, to, operand, held)?;
    }
    Ok(())
}

fn all_rings(alloc: Global, drafts: &[Draft]) -> Result<Held, FlatError>
    requires ready { AreReadyDrafts drafts.now }
    ensures ok { IfOk result (AreRingsHeld drafts.now (length drafts.now)) }
    ensures refused { IfErr result (λ e. (e ≡ err.OutOfMemory) ⊎ ((e ≡ err.Limit lim.Word) × IsReadTooLong drafts.now)) }
{
    let mut held = Held {
        rings: Vec::new(alloc),
        bits: 0,
    };
    let count = drafts.len();
    'each: for to in 0..count {
        hold_rings(alloc, drafts, to, &mut held)?;
    }
    Ok(held)
}

// Gives each ring to the draft from which it comes.
fn hand_out(drafts: &mut Vec<Draft>, rings: &[RingSpec]) -> Result<(), FlatError>
    requires ready { AreReadyDrafts drafts.old.items }
    requires rings { AreRingsOf drafts.old.items (length drafts.old.items) rings.now }
    ensures ok { OnOk result (AreGiven drafts.old.items rings.now (length rings.now) drafts.new.items) }
    ensures refused { IfErr result (λ e. e ≡ err.OutOfMemory) }
{
    let count = rings.len();
    'each: for r in 0..count {
        drafts[rings[r].from as usize].gives.push(r as u32)?;
    }
    Ok(())
}

// So many numbers from the first on.
fn numbers(alloc: Global, first: u32, count: usize) -> Result<Vec<u32>, FlatError>
    requires { first + count < 2 ^ 32 }
    ensures ok { IfOk result (λ v. v.items ≡ range_with_len first count) }
    ensures refused { IfErr result (λ e. e ≡ err.OutOfMemory) }
{
    let mut numbers = Vec::new(alloc);
    'each: for i in 0..count {
        numbers.push(first + i as u32)?;
    }
    Ok(numbers)
}

// A sampling fires where its operand is written.
fn firing(
    alloc: Global,
    kind: &ActorKind,
    word: Word,
    first: u32,
    rings: &[RingSpec],
) -> Result<Word, AllocError>
    requires { IsSampling kind.now → first < length rings.now }
    ensures { IfOk result (IsFiring kind.now word (slice_get rings.now first)) }
{
    match kind {
        ActorKind::When(_) => rings[first as usize].write.copy(alloc),
        _ => Ok(word),
    }
}

// The actor of a draft, whose rings begin with this one.
fn finished(alloc: Global, draft: Draft, first: u32, rings: &[RingSpec]) -> Result<Actor, FlatError>
    requires kind { HasKind draft.kind (reads_count draft) }
    requires within { first + reads_count draft ≤ length rings.now }
    requires few { length rings.now < 2 ^ 32 }
    ensures ok { IfOk result (IsDraftActor rings.now first draft) }
    ensures refused { IfErr result (λ e. e ≡ err.OutOfMemory) }
{
    let Draft {
        kind,
        word,
        reads,
        gives,
        ..
    } = draft;
    let takes = numbers(alloc, first, reads.len())?;
    let firing = firing(alloc, &kind, word, first, rings)?;
    Ok(Actor {
        kind,
        firing,
        takes: Numbers::new(takes),
        gives: Numbers::new(gives),
    })
}

// The actors of drafts.
fn actors(alloc: Global, drafts: Vec<Draft>, rings: &[RingSpec]) -> Result<Vec<Actor>, FlatError>
    requires kinds { (a : ℕ) (draft : One) → slice_get drafts.items a ≡ Some draft → HasKind draft.kind (reads_count draft) }
    requires all { all_reads drafts.items ≡ length rings.now }
    requires few { length rings.now < 2 ^ 32 }
    ensures ok { IfOk result (λ v. AreActorsOf rings.now drafts.items v.items) }
    ensures refused { IfErr result (λ e. e ≡ err.OutOfMemory) }
{
    let mut actors = Vec::new(alloc);
    let mut first = 0u32;
    'each: for draft in drafts {
        let count = draft.reads.len() as u32;
        let next = finished(alloc, draft, first, rings)?;
        actors.push(next)?;
        first += count;
    }
    Ok(actors)
}

// The net of drafts with their rings.
fn joined(alloc: Global, mut drafts: Vec<Draft>, rings: Vec<RingSpec>) -> Result<Net, FlatError>
    requires ready { AreReadyDrafts drafts.items }
    requires rings { AreRingsOf drafts.items (length drafts.items) rings.items }
    ensures ok { IfOk result (IsAssembled drafts.items) }
    ensures refused { IfErr result (λ e. e ≡ err.OutOfMemory) }
{
    hand_out(&mut drafts, &rings)?;
    let actors = actors(alloc, drafts, &rings)?;
    Ok(Net {
        actors: Actors::new(actors),
        rings: Rings::new(rings),
    })
}

/// The net of drafts: a ring for each operand, in order. `Limit(Bits)` comes where the words of the rings have together more bits
/// than are allowed, and no word is too long; no more of these words are kept than are allowed.
pub(crate) fn assemble(alloc: Global, drafts: Vec<Draft>) -> Result<Net, FlatError>
    requires { AreReadyDrafts drafts.items }
    ensures ok { IfOk result (IsAssembled drafts.items) }
    ensures fits { IfOk result (λ net. IsReadTooLong drafts.items → ⊥) }
    ensures refused { IfErr result (λ e. (e ≡ err.OutOfMemory) ⊎ ((e ≡ err.Limit lim.Word) × IsReadTooLong drafts.items) ⊎ ((e ≡ err.Limit lim.Bits) × IsNetPast drafts.items)) }
{
    let Held { rings, bits } = all_rings(alloc, &drafts)?;
    if bits > Limit::Bits.number() {
        return Err(FlatError::Limit(Limit::Bits));
    }
    joined(alloc, drafts, rings)
}
