// The words of a written node.
ghost use Rattle.std.specs.Prelude.{ℕ, List, ◌≡◌, ◌⊎◌, ◌++◌, ◌∷◌, [], ◌+◌, ◌*◌, ◌≤◌, ◌<◌, ◌^◌, Some, length, slice_get, OnOk, IfOk, IfErr};
ghost use Rattle.std.specs.List.{AllByRecursion};
ghost use Rattle.lucy_word.specs.Bits.{most_bits};
ghost use Rattle.lucy_word.specs.Limits.{limit_number};
ghost use Rattle.lucy_word.specs.Stored.{IsStored};
ghost use Rattle.lucy_word.specs.declared.limit.Limit.TheVariants as lim;
ghost use Rattle.lucy_place.specs.declared.placed.PlacedNode.{PlacedNode as Node};
ghost use Rattle.lucy_place.specs.WrittenNodes.{IsWritten};
ghost use Rattle.lucy_clock.specs.Clocks.{clocks_of};
ghost use Rattle.lucy_clock.specs.HandedDown.{AreWordsOf, IsWordTooLong, RefusesWords};
ghost use Rattle.lucy_need.specs.Meeting.{word_bits};
ghost use Rattle.lucy_clock.specs.Reading.{CanHandDown, AreFirstWords, HaveBases, base_words};

use crate::bits::bit_count;
use crate::error::ClockError;
use crate::reading::readers;
use crate::words::{first_words, test_others};
use lucy_place::{CallSite, Placed, PlacedNode};
use lucy_word::{Limit, Word, words_are_stored};
use std::alloc::{AllocError, Global};

// The word of a call's base.
fn base_of(site: &CallSite) -> &Word
    requires { HaveBases (site.now ∷ []) }
    ensures is { site.now.at ≡ Some result.now }
    ensures stored { IsStored result.now }
{
    match &site.at {
        Some(word) => {
            words_are_stored(word);
            word
        }
        None => unreachable!(),
    }
}

// Puts the words of the calls' bases behind others.
fn put_bases(alloc: Global, words: &mut Vec<Word>, sites: &[CallSite]) -> Result<(), AllocError>
    requires { HaveBases sites.now }
    ensures { OnOk result (words.new.items ≡ words.old.items ++ base_words sites.now) }
{
    'each: for site in sites {
        words.push(base_of(site).copy(alloc)?)?;
    }
    Ok(())
}

// How many bits the words have together.
fn bits(words: &[Word]) -> u64
    requires { length words.now < 2 ^ 32 }
    ensures is { result ≡ word_bits words.now }
    ensures few { result ≤ most_bits * length words.now }
{
    let mut bits = 0u64;
    'each: for word in words {
        bits += bit_count(word);
    }
    bits
}

// How many bits the words of the calls' bases have together.
fn base_bits(sites: &[CallSite]) -> u64
    requires bases { HaveBases sites.now }
    requires few { length sites.now < 2 ^ 32 }
    ensures is { result ≡ word_bits (base_words sites.now) }
    ensures few { result ≤ most_bits * length sites.now }
    ensures stored { AllByRecursion IsStored (base_words sites.now) }
{
    let mut bits = 0u64;
    'each: for site in sites {
        bits += bit_count(base_of(site));
    }
    bits
}

// Why a node has no words whose first words have too many bits: that the bits are too many, unless a word behind them is too long.
fn past_bits(alloc: Global, node: &PlacedNode, readers: &[u32], first: Vec<Word>) -> ClockError
    requires handing { CanHandDown node.now readers.now }
    requires first { AreFirstWords node.now first.items }
    requires past { length first.items ≤ length node.now.places }
    requires stored { AllByRecursion IsStored (base_words node.now.calls) }
    ensures { RefusesWords node.now result }
{
    match test_others(alloc, node, readers, first) {
        Ok(()) => ClockError::Limit(Limit::Bits),
        Err(why) => why,
    }
}

/// The words of a written node's clocks, by their numbers, as its written words hand them down: no other words can keep the
/// node's clock rules (`written_nodes_have_one`). `Limit(Word)` comes exactly where the computed length of a word that a merge
/// hands down passes it, be the operand a name or not; else `Limit(Bits)` exactly where all words have together more bits.
pub fn written(alloc: Global, placed: &Placed, node: u32) -> Result<Vec<Word>, ClockError>
    requires node { node < length placed.now.nodes }
    requires written { (n : Node) → slice_get placed.now.nodes node ≡ Some n → IsWritten n }
    ensures ok { (n : Node) → slice_get placed.now.nodes node ≡ Some n → IfOk result (λ v. AreWordsOf n v.items) }
    ensures fits { (n : Node) → slice_get placed.now.nodes node ≡ Some n → IfOk result (λ v. (IsWordTooLong n → ⊥) × (word_bits v.items ≤ limit_number lim.Bits)) }
    ensures refused { (n : Node) → slice_get placed.now.nodes node ≡ Some n → IfErr result (RefusesWords n) }
{
    let found = placed.node(node);
    let sites = found.calls.list();
    let behind = base_bits(sites);
    let readers = readers(alloc, found)?;
    let mut words = first_words(alloc, found, &readers)?;
    if words.len() <= found.places.list().len() {
        return Err(past_bits(alloc, found, &readers, words));
    }
    if bits(&words) + behind > Limit::Bits.number() {
        return Err(ClockError::Limit(Limit::Bits));
    }
    put_bases(alloc, &mut words, sites)?;
    Ok(words)
}
