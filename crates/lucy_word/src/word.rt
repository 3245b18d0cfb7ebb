ghost use Rattle.std.specs.Prelude.{◌≡◌, ◌⊎◌, ◌↔◌, ◌+◌, ◌%◌, ◌<◌, ◌≤◌, length, IsTrue, IfOk, IfErr};
ghost use Rattle.lucy_word.specs.Bits.{bit_at, ones_to, ones_in, bit_count, most_bits};
ghost use Rattle.lucy_word.specs.Shortest.{Same, IsShortest, IsShortForm};
ghost use Rattle.lucy_word.specs.Stored.{IsStored};

use crate::limbs::Limbs;
use crate::shortest::shorten;
use crate::{Limit, Walk, WordError};
use std::alloc::{AllocError, Global};
use std::marker::Model;

/// An infinite binary word `u(v)`: the prefix u, and then the period v again and again (Cohen and others 2006; Mandel,
/// Plateau and Pouzet 2010). Its period has a one, and it is in shortest form: of all words with its bits it has the
/// shortest period, and then the shortest prefix. Instants count from 1.
#[derive(Drop)]
pub struct Word {
    pub(crate) prefix: Limbs,
    pub(crate) period: Limbs,
}

impl Model for Word {
    ghost use Rattle.std.specs.Prelude.{◌≤◌};
    ghost use Rattle.lucy_word.specs.Bits.{Bits, IsWord, bit_count, most_bits};
    ghost use Rattle.lucy_word.specs.Shortest.{IsShortest};

    ghost Value = { Bits };

    ghost view = { λ w. record { prefix = w.prefix; period = w.period } };

    ghost invariant = { λ w. let bits : Bits = record { prefix = w.prefix; period = w.period } in
        IsWord bits × (bit_count bits ≤ most_bits) × IsShortest bits };
}

// What is left of a number; nothing is divided where it is the smaller one.
fn remainder(number: u64, of: u64) -> u64
    requires { 0 < of }
    ensures { result ≡ number % of }
{
    if number < of { number } else { number % of }
}

impl Word {
    ghost use Rattle.lucy_word.specs.Making.{Unmakes, IsMade, OnlyMade};

    /// The word with these bits, brought into shortest form.
    pub(crate) fn shortest(alloc: Global, prefix: Limbs, period: Limbs) -> Result<Word, AllocError>
        requires has_one { 0 < ones_in period }
        requires short { length prefix + length period ≤ most_bits }
        ensures { IfOk result (IsShortForm (record { prefix = prefix; period = period })) }
    {
        let (prefix, period) = shorten(alloc, prefix, period)?;
        Ok(Word { prefix, period })
    }

    /// The word of a prefix and a period, which isn't empty. `TooLong` comes where they have together more bits, as
    /// given, than `Limit::Word` allows; else `NoOne` where the period has no one. It never answers `BadWord`.
    pub fn from_bits(alloc: Global, prefix: &[bool], period: &[bool]) -> Result<Word, WordError>
        requires { 0 < length period.now }
        ensures ok { IfOk result (λ w. IsMade (record { prefix = prefix.now; period = period.now }) w) }
        ensures refused { IfErr result (λ e. (e ≡ WordError.OutOfMemory) ⊎ Unmakes (record { prefix = prefix.now; period = period.now }) e) }
        ensures only { OnlyMade (record { prefix = prefix.now; period = period.now }) result }
        ensures stored { IfOk result IsStored }
    {
        let most = Limit::Word.number();
        if prefix.len() as u64 > most || period.len() as u64 > most - prefix.len() as u64 {
            return Err(WordError::TooLong);
        }
        let prefix = Limbs::new(alloc, prefix)?;
        let period = Limbs::new(alloc, period)?;
        if period.total() == 0 {
            return Err(WordError::NoOne);
        }
        Ok(Word::shortest(alloc, prefix, period)?)
    }

    /// An equal word.
    pub fn copy(&self, alloc: Global) -> Result<Word, AllocError>
        ensures equal { IfOk result (λ w. w ≡ self.now) }
        ensures stored { IfOk result IsStored }
    {
        let prefix = self.prefix.copy(alloc)?;
        let period = self.period.copy(alloc)?;
        Ok(Word { prefix, period })
    }

    /// The bit at an instant, which is at least 1. Within prefix and first period this takes no division.
    pub fn bit(&self, i: u64) -> bool
        requires { 1 ≤ i }
        ensures { result ≡ bit_at self.now i }
    {
        let len = self.prefix.len() as u64;
        if i <= len {
            self.prefix.bit((i - 1) as usize)
        } else {
            self.period
                .bit(remainder(i - len - 1, self.period.len() as u64) as usize)
        }
    }

    /// How many of the bits at instants 1 to `i` are ones. Whole periods are jumped over.
    pub fn ones(&self, i: u64) -> u64
        ensures { result ≡ ones_to self.now i }
    {
        let len = self.prefix.len() as u64;
        if i <= len {
            return self.prefix.ones(i as usize);
        }
        let past = i - len;
        let turn = self.period.len() as u64;
        let part = self.period.ones((past % turn) as usize);
        self.prefix.total() + past / turn * self.period.total() + part
    }

    /// The word's rate as a fraction: the ones of its period, from 1 to the second number, and the period's length in
    /// bits, at most that of `Limit::Word`.
    pub fn rate(&self) -> (u64, u64)
        ensures ones { result.0 ≡ ones_in self.now.period }
        ensures length { result.1 ≡ length self.now.period }
        ensures has_one { 0 < result.0 }
        ensures within { result.0 ≤ result.1 }
        ensures short { result.1 ≤ most_bits }
    {
        (self.period.total(), self.period.len() as u64)
    }

    /// The lengths of prefix and period in bits, together at most `Limit::Word`. The second is at least 1.
    pub fn lengths(&self) -> (u64, u64)
        ensures prefix { result.0 ≡ length self.now.prefix }
        ensures period { result.1 ≡ length self.now.period }
        ensures nonempty { 0 < result.1 }
        ensures short { result.0 + result.1 ≤ most_bits }
        ensures shortest { IsShortest self.now }
    {
        (self.prefix.len() as u64, self.period.len() as u64)
    }

    /// Whether the two have the same bits at every instant, which words in shortest form have only where prefixes and periods
    /// are equal.
    pub fn same(&self, other: &Word) -> bool
        ensures same { IsTrue result ↔ Same self.now other.now }
        ensures equal { IsTrue result ↔ (self.now ≡ other.now) }
    {
        self.prefix.same(&other.prefix) && self.period.same(&other.period)
    }

    /// The word's bits in turn, from instant 1 on.
    pub fn walk(&self) -> Walk<'_>
        ensures { result ≡ self.now }
    {
        Walk::new(&self.prefix, &self.period)
    }
}

/// A word in memory has a one in its period, no more bits than are allowed, and is in shortest form.
pub fn words_are_stored(word: &Word)
    ensures { IsStored word.now }
{
    // For the proof: a look inside tells what holds of all words in memory.
    let _ = &word.period;
}
