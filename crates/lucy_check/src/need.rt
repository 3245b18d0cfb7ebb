// One need: the words of its terms, and how they stand to each other.
ghost use Rattle.std.specs.Prelude.{◌≡◌, ◌⊎◌, ◌↔◌, ◌<◌, ◌≤◌, length, IsTrue, IfOk, IfErr};
ghost use Rattle.lucy_word.specs.declared.limit.Limit.TheVariants as lim;
ghost use Rattle.lucy_need.specs.Meeting.{Assignment, assigned, first_of, second_of, IsTermWord, IsWithin};
ghost use Rattle.lucy_word.specs.Always.{always};
ghost use Rattle.lucy_word.specs.Stored.{IsStored};
ghost use Rattle.lucy_check.specs.Horizon.{AreFar};
ghost use Rattle.lucy_check.specs.Passing.{AreWithinLimits, OrNoMemory, PassesWord, PassesTermLimit, Passes, RefusesNeed, IsTermPassing};
ghost use Rattle.lucy_check.specs.Lent.{seen, IsKept};
ghost use Rattle.lucy_check.specs.declared.fault.CheckFault.TheVariants as fault;

use crate::difference::first_difference;
use crate::fault::CheckFault;
use crate::horizon::horizon_of;
use crate::verdict::{Verdict, adapt};
use lucy_need::{Need, Term};
use lucy_word::{Limit, Word, sampled};
use std::alloc::Global;

// A word that is lent, or one that was made.
#[derive(Drop)]
enum Sampled<'w> {
    Lent(&'w Word),
    Made(Word),
}

impl<'w> Sampled<'w> {
    fn word(&self) -> &Word
        ensures { result.now ≡ seen self.now }
    {
        match self {
            Sampled::Lent(word) => word,
            Sampled::Made(word) => word,
        }
    }
}

// Whether the word is (1): every word on it, and it on every word, is that word.
fn is_always(word: &Word) -> bool
    ensures is { IsTrue result → word.now ≡ always }
    ensures stored { IsStored word.now }
{
    let (prefix, _) = word.lengths();
    let (_, period) = word.rate();
    prefix == 0 && period == 1
}

// The word of a term of the need. It is made only where neither word of the term is (1).
fn word_of<'w>(
    alloc: Global,
    need: u32,
    term: &'w Term,
    words: &'w [Word],
) -> Result<Sampled<'w>, CheckFault>
    requires { term.now.clock < length words.now }
    ensures ok { IfOk result (λ w. IsTermPassing (assigned words.now) term.now (seen w)) }
    ensures refused { IfErr result (OrNoMemory (PassesWord (assigned words.now) term.now need)) }
{
    let own = &words[term.clock as usize];
    let base = is_always(own);
    if is_always(&term.word) {
        return Ok(Sampled::Lent(own));
    }
    if base {
        return Ok(Sampled::Lent(&term.word));
    }
    match sampled(alloc, own, &term.word)? {
        Some(word) => Ok(Sampled::Made(word)),
        None => Err(CheckFault::Limit {
            need,
            limit: Limit::Word,
        }),
    }
}

// The word that was made for a term of a need, kept for needs after it.
#[derive(Drop)]
pub(crate) struct Kept<'w> {
    term: &'w Term,
    word: Word,
}

// Whether two terms are the same clock on the same word.
fn is_same(first: &Term, second: &Term) -> bool
    ensures { IsTrue result → first.now ≡ second.now }
{
    first.clock == second.clock && first.word.same(&second.word)
}

// The word of a term of the need, or the kept one where that is the word of the same term.
fn word_again<'w>(
    alloc: Global,
    need: u32,
    term: &'w Term,
    words: &'w [Word],
    kept: Option<Kept<'w>>,
) -> Result<Sampled<'w>, CheckFault>
    requires clock { term.now.clock < length words.now }
    requires kept { IsKept (assigned words.now) kept }
    ensures ok { IfOk result (λ w. IsTermPassing (assigned words.now) term.now (seen w)) }
    ensures refused { IfErr result (OrNoMemory (PassesWord (assigned words.now) term.now need)) }
{
    if let Some(Kept { term: other, word }) = kept {
        if is_same(other, term) {
            return Ok(Sampled::Made(word));
        }
    }
    word_of(alloc, need, term, words)
}

// What is kept of the word of a term: one that was made.
fn kept_of<'w>(term: &'w Term, word: Sampled<'w>) -> Option<Kept<'w>>
    ensures { (w : Assignment) → IsTermPassing w term.now (seen word.entry) → IsKept w result }
{
    match word {
        Sampled::Lent(_) => None,
        Sampled::Made(word) => Some(Kept { term, word }),
    }
}

// Whether the instants that decide about two words are too many.
fn are_far(a: &Sampled<'_>, b: &Sampled<'_>) -> bool
    ensures { IsTrue result ↔ AreFar (seen a.now) (seen b.now) }
{
    horizon_of(a.word(), b.word()) > Limit::Compare.number()
}

// The words of both terms of the need, where no limit is passed.
fn words_within<'w>(
    alloc: Global,
    need: u32,
    first: &'w Term,
    second: &'w Term,
    words: &'w [Word],
    kept: Option<Kept<'w>>,
) -> Result<(Sampled<'w>, Sampled<'w>), CheckFault>
    requires first { first.now.clock < length words.now }
    requires second { second.now.clock < length words.now }
    requires kept { IsKept (assigned words.now) kept }
    ensures ok { IfOk result (λ p. AreWithinLimits (assigned words.now) first.now second.now (seen p.0) (seen p.1)) }
    ensures refused { IfErr result (OrNoMemory (PassesTermLimit (assigned words.now) first.now second.now need)) }
{
    let a = word_of(alloc, need, first, words)?;
    let b = word_again(alloc, need, second, words, kept)?;
    if are_far(&a, &b) {
        return Err(CheckFault::Limit {
            need,
            limit: Limit::Compare,
        });
    }
    Ok((a, b))
}

// Whether the words of its terms meet the need of a number: the size of the buffer, where it is one of a buffer.
fn judged(
    number: u32,
    need: &Need,
    a: &Sampled<'_>,
    b: &Sampled<'_>,
) -> Result<Option<u64>, CheckFault>
    ensures ok { IfOk result (λ size. (w : Assignment) → AreWithinLimits w (first_of need.now) (second_of need.now) (seen a.now) (seen b.now) → Passes w need.now size) }
    ensures refused { IfErr result (λ e. (w : Assignment) → AreWithinLimits w (first_of need.now) (second_of need.now) (seen a.now) (seen b.now) → RefusesNeed w number need.now e) }
{
    match need {
        Need::Equal(_, _) => match first_difference(a.word(), b.word()) {
            None => Ok(None),
            Some(instant) => Err(CheckFault::Differs {
                need: number,
                instant,
            }),
        },
        Need::Adapt(_, _) => match adapt(a.word(), b.word()) {
            Verdict::Adaptable(size) => Ok(Some(size)),
            Verdict::Rates => Err(CheckFault::Rates { need: number }),
            Verdict::Late(instant) => Err(CheckFault::Late {
                need: number,
                instant,
            }),
        },
    }
}

/// Checks the need of a number: the size of the buffer, where it is one of a buffer, and what is kept of the word of its second
/// term for the next need. Needs that name the same clock on the same word one after the other share it.
pub(crate) fn check_need<'w>(
    alloc: Global,
    number: u32,
    need: &'w Need,
    words: &'w [Word],
    kept: Option<Kept<'w>>,
) -> Result<(Option<u64>, Option<Kept<'w>>), CheckFault>
    requires within { IsWithin (length words.now) need.now }
    requires kept { IsKept (assigned words.now) kept }
    ensures ok { IfOk result (λ p. Passes (assigned words.now) need.now p.0) }
    ensures kept { IfOk result (λ p. IsKept (assigned words.now) p.1) }
    ensures refused { IfErr result (OrNoMemory (RefusesNeed (assigned words.now) number need.now)) }
{
    let (first, second) = need.terms();
    let (a, b) = words_within(alloc, number, first, second, words, kept)?;
    let size = judged(number, need, &a, &b)?;
    Ok((size, kept_of(second, b)))
}
