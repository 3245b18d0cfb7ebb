// The words that a written node hands down to its places.
ghost use Rattle.std.specs.Prelude.{ℕ, List, ◌≡◌, ◌⊎◌, ◌+◌, ◌≤◌, ◌<◌, length, IfOk, IfErr, OnOk};
ghost use Rattle.lucy_word.specs.Bits.{Bits};
ghost use Rattle.lucy_word.specs.Stored.{IsStored};
ghost use Rattle.lucy_word.specs.declared.limit.Limit.TheVariants as lim;
ghost use Rattle.lucy_place.specs.Proper.{Reads, IsUnnamed};
ghost use Rattle.lucy_place.specs.declared.placed.PlacedNode.{PlacedNode as Node};
ghost use Rattle.lucy_need.specs.Meeting.{assigned};
ghost use Rattle.lucy_clock.specs.declared.error.ClockError.TheVariants as err;
ghost use Rattle.lucy_clock.specs.HandedDown.{Hands, IsWordTooLong};
ghost use Rattle.lucy_clock.specs.Reading.{CanHandDown, IsAskedFor, AreLasts, AreHandedSoFar, AreFirstWords, AreKept, AreKeptSoFar, AreContinued, HasStoredWord, IsNextWord, IsTooLongBefore, NextHandsTooLong};

use crate::bits::bit_count;
use crate::error::ClockError;
use crate::handing::{handed, test_handed};
use crate::reading::{asks, lasts};
use lucy_need::always;
use lucy_place::{PlaceKind, PlacedNode};
use lucy_word::{Limit, Word, words_are_stored};
use std::alloc::Global;

// The word that the reader of a place without a name hands down to it.
fn handed_word(
    alloc: Global,
    node: &PlacedNode,
    readers: &[u32],
    words: &[Word],
    place: u32,
) -> Result<Word, ClockError>
    requires unnamed { IsUnnamed node.now place }
    requires count { length words.now ≡ place }
    requires handing { CanHandDown node.now readers.now }
    ensures ok { IfOk result (λ w. (p k : ℕ) (reads : Reads node.now p k place) → Hands reads.entry.kind k (assigned words.now p) w) }
    ensures stored { IfOk result IsStored }
    ensures refused { IfErr result (λ e. (e ≡ err.OutOfMemory) ⊎ ((e ≡ err.Limit lim.Word) × IsTooLongBefore node.now place (assigned words.now))) }
{
    let places = node.places.list();
    let reader = readers[place as usize - 1] as usize;
    handed(alloc, &places[reader - 1].kind, &words[reader], place)
}

// The word of a place behind those before it: its written one, or that which its reader hands down.
fn next_word(
    alloc: Global,
    node: &PlacedNode,
    readers: &[u32],
    words: &[Word],
    place: u32,
) -> Result<Word, ClockError>
    requires place { (1 ≤ place) × (place ≤ length node.now.places) }
    requires count { length words.now ≡ place }
    requires handing { CanHandDown node.now readers.now }
    ensures ok { IfOk result (IsNextWord node.now place (assigned words.now)) }
    ensures refused { IfErr result (λ e. (e ≡ err.OutOfMemory) ⊎ ((e ≡ err.Limit lim.Word) × IsTooLongBefore node.now place (assigned words.now))) }
{
    let entry = &node.places.list()[place as usize - 1];
    match &entry.word {
        Some(word) => Ok(word.copy(alloc)?),
        None => handed_word(alloc, node, readers, words, place),
    }
}

// Tests that what a place hands down, with its own word, isn't too long.
fn test_place(node: &PlacedNode, place: u32, own: &Word) -> Result<(), ClockError>
    requires { (1 ≤ place) × (place ≤ length node.now.places) }
    ensures ok { OnOk result (NextHandsTooLong node.now place own.now → ⊥) }
    ensures refused { IfErr result (λ e. (e ≡ err.Limit lim.Word) × NextHandsTooLong node.now place own.now) }
{
    test_handed(&node.places.list()[place as usize - 1].kind, own)
}

/// The words of the base and of the places in turn, until they have together more bits than are allowed.
pub(crate) fn first_words(
    alloc: Global,
    node: &PlacedNode,
    readers: &[u32],
) -> Result<Vec<Word>, ClockError>
    requires { CanHandDown node.now readers.now }
    ensures ok { IfOk result (λ v. AreFirstWords node.now v.items) }
    ensures refused { IfErr result (λ e. (e ≡ err.OutOfMemory) ⊎ ((e ≡ err.Limit lim.Word) × IsWordTooLong node.now)) }
{
    let mut words = Vec::new(alloc);
    words.push(always(alloc)?)?;
    let mut bits = 1u64;
    let count = node.places.list().len();
    'each: for i in 0..count {
        if bits > Limit::Bits.number() {
            return Ok(words);
        }
        let word = next_word(alloc, node, readers, &words, i as u32 + 1)?;
        test_place(node, i as u32 + 1, &word)?;
        bits += bit_count(&word);
        words.push(word)?;
    }
    Ok(words)
}

// Lets go of the word of a clock that is asked for by no place behind the first ones: (1) stands for it.
fn let_go(
    alloc: Global,
    words: &mut Vec<Word>,
    lasts: &[u32],
    clock: usize,
    upto: usize,
) -> Result<(), ClockError>
    requires { length words.old.items ≤ length lasts.now + 1 }
    ensures ok { (n : Node) → AreLasts n lasts.now → OnOk result (AreKept n lasts.now upto words.old.items words.new.items) }
    ensures refused { IfErr result (λ e. e ≡ err.OutOfMemory) }
{
    if 1 <= clock && clock < words.len() && lasts[clock - 1] as usize <= upto {
        words[clock] = always(alloc)?;
    }
    Ok(())
}

// Tests what the next place hands down, and keeps its word while a place further on asks for it.
fn test_next(
    alloc: Global,
    node: &PlacedNode,
    readers: &[u32],
    lasts: &[u32],
    words: &mut Vec<Word>,
    i: u32,
) -> Result<(), ClockError>
    requires within { i < length node.now.places }
    requires handing { CanHandDown node.now readers.now }
    requires size { length lasts.now ≡ length node.now.places }
    requires lasts { AreLasts node.now lasts.now }
    requires kept { (least : ℕ) × AreKeptSoFar node.now lasts.now i least words.old.items }
    requires asked { IsAskedFor node.now lasts.now (i + 1) }
    ensures ok { (least : ℕ) → AreKeptSoFar node.now lasts.now i least words.old.items → OnOk result (AreKeptSoFar node.now lasts.now (i + 1) least words.new.items) }
    ensures refused { IfErr result (λ e. (e ≡ err.OutOfMemory) ⊎ ((e ≡ err.Limit lim.Word) × IsWordTooLong node.now)) }
{
    let word = next_word(alloc, node, readers, words, i + 1)?;
    test_place(node, i + 1, &word)?;
    words.push(word)?;
    let place = i as usize + 1;
    let_go(alloc, words, lasts, place, place)?;
    let_go(alloc, words, lasts, readers[i as usize] as usize, place)?;
    Ok(())
}

// The word on which a merge stands is a word in memory.
fn word_is_stored(kind: &PlaceKind)
    ensures { HasStoredWord kind.now }
{
    match kind {
        PlaceKind::Merge(word, _, _) => words_are_stored(word),
        _ => {}
    }
}

// A place has a word, also where it isn't made: its written one, or that which its reader hands down.
fn has_word(node: &PlacedNode, readers: &[u32], i: u32)
    requires within { i < length node.now.places }
    requires handing { CanHandDown node.now readers.now }
    ensures { (words : List Bits) → AreHandedSoFar node.now i words → (next : Bits) × IsNextWord node.now (i + 1) (assigned words) next }
{
    let places = node.places.list();
    let entry = &places[i as usize];
    match &entry.word {
        Some(word) => words_are_stored(word),
        None => {
            let reader = readers[i as usize] as usize;
            word_is_stored(&places[reader - 1].kind)
        }
    }
}

// Goes past the next place, whose word nothing asks for: it isn't made, and (1) stands for it.
fn pass_next(
    alloc: Global,
    node: &PlacedNode,
    readers: &[u32],
    lasts: &[u32],
    words: &mut Vec<Word>,
    i: u32,
) -> Result<(), ClockError>
    requires within { i < length node.now.places }
    requires handing { CanHandDown node.now readers.now }
    requires lasts { AreLasts node.now lasts.now }
    requires unasked { IsAskedFor node.now lasts.now (i + 1) → ⊥ }
    ensures ok { (least : ℕ) → AreKeptSoFar node.now lasts.now i least words.old.items → OnOk result (AreKeptSoFar node.now lasts.now (i + 1) least words.new.items) }
    ensures refused { IfErr result (λ e. e ≡ err.OutOfMemory) }
{
    has_word(node, readers, i);
    words.push(always(alloc)?)?;
    Ok(())
}

// Tests what the next place hands down, if it is asked for.
fn test_asked(
    alloc: Global,
    node: &PlacedNode,
    readers: &[u32],
    lasts: &[u32],
    words: &mut Vec<Word>,
    i: u32,
) -> Result<(), ClockError>
    requires within { i < length node.now.places }
    requires handing { CanHandDown node.now readers.now }
    requires size { length lasts.now ≡ length node.now.places }
    requires lasts { AreLasts node.now lasts.now }
    requires kept { (least : ℕ) × AreKeptSoFar node.now lasts.now i least words.old.items }
    ensures ok { (least : ℕ) → AreKeptSoFar node.now lasts.now i least words.old.items → OnOk result (AreKeptSoFar node.now lasts.now (i + 1) least words.new.items) }
    ensures refused { IfErr result (λ e. (e ≡ err.OutOfMemory) ⊎ ((e ≡ err.Limit lim.Word) × IsWordTooLong node.now)) }
{
    let entry = &node.places.list()[i as usize];
    if asks(&entry.kind, lasts[i as usize]) {
        return test_next(alloc, node, readers, lasts, words, i);
    }
    pass_next(alloc, node, readers, lasts, words, i)
}

/// Tests what the places behind the first ones hand down, of which no more words are made than merges ask for, nor kept for longer.
pub(crate) fn test_others(
    alloc: Global,
    node: &PlacedNode,
    readers: &[u32],
    first: Vec<Word>,
) -> Result<(), ClockError>
    requires handing { CanHandDown node.now readers.now }
    requires first { AreFirstWords node.now first.items }
    ensures ok { OnOk result (AreContinued node.now first.items) }
    ensures refused { IfErr result (λ e. (e ≡ err.OutOfMemory) ⊎ ((e ≡ err.Limit lim.Word) × IsWordTooLong node.now)) }
{
    let lasts = lasts(alloc, node, readers)?;
    let mut words = first;
    let count = node.places.list().len();
    'each: for i in words.len() - 1..count {
        test_asked(alloc, node, readers, &lasts, &mut words, i as u32)?;
    }
    Ok(())
}
