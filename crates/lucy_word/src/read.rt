// A word from its text.
ghost use Rattle.std.specs.Prelude.{◌≡◌, ◌⊎◌, ◌↔◌, ◌<◌, [], ◌∷◌, ◌++◌, length, map, IsTrue, IfOk, IfErr};
ghost use Rattle.lucy_word.specs.Bits.{Bits, ones_in};
ghost use Rattle.lucy_word.specs.Items.{digit_of};
ghost use Rattle.lucy_word.specs.Spelling.{Spells};
ghost use Rattle.lucy_word.specs.Reading.{RefusesWordText, IsReadable, OnlyAnswer};
ghost use Rattle.lucy_word.specs.Stored.{IsStored};

use crate::{Limit, Word, WordError, form, spelling};
use std::alloc::{AllocError, Global};
use std::marker::Model;

/// A word as a text spells it, seen as the word. It takes no memory of its own, however many bits its counts stand for.
#[derive(Drop)]
pub struct Spelled<'a> {
    text: &'a [u8],
    // Whether its period has a zero.
    zero: bool,
}

impl<'a> Model for Spelled<'a> {
    ghost use Rattle.std.specs.Prelude.{◌↔◌, ◌<◌, length, IsTrue};
    ghost use Rattle.lucy_word.specs.Bits.{Bits, ones_in};
    ghost use Rattle.lucy_word.specs.Reading.{IsReadable};
    ghost use Rattle.lucy_word.specs.Shortened.{word_of};

    ghost Value = { Bits };

    ghost view = { λ s. word_of s.text.now };

    ghost invariant = { λ s. IsReadable s.text.now (word_of s.text.now) × (IsTrue s.zero ↔ (ones_in (word_of s.text.now).period < length (word_of s.text.now).period)) };
}

impl<'a> Spelled<'a> {
    /// The word that the text spells, as `0(01)` or `(1{720}0{3})`: the items of the prefix, of which there may be none, then
    /// those of the period in parentheses, and nothing else. An item is a digit, which may have a count in braces.
    ///
    /// `BadWord` comes where the text has another form, or a count is 0; else `TooLong` where it has more bits than
    /// `Limit::Written` allows; else `NoOne` where its period has no one. It never answers `OutOfMemory`, and takes as long as
    /// the text.
    pub fn read(text: &'a [u8]) -> Result<Spelled<'a>, WordError>
        ensures ok { IfOk result (IsReadable text.now) }
        ensures refused { IfErr result (RefusesWordText text.now) }
    {
        if let Err(place) = form::check(text) {
            return Err(WordError::BadWord(place));
        }
        let (prefix, period) = spelling::parts(text);
        let most = Limit::Written.number();
        let Some(prefix) = spelling::add_up(prefix, most) else {
            return Err(WordError::TooLong);
        };
        let Some(period) = spelling::add_up(period, most - prefix.bits) else {
            return Err(WordError::TooLong);
        };
        if period.ones == 0 {
            return Err(WordError::NoOne);
        }
        let zero = period.ones < period.bits;
        Ok(Spelled { text, zero })
    }

    /// Whether its period has a zero.
    pub fn has_zero(&self) -> bool
        ensures { IsTrue result ↔ (ones_in self.now.period < length self.now.period) }
    {
        self.zero
    }

    /// The word itself. It takes as long as the text, and as the bits that the text stands for.
    pub fn word(&self, alloc: Global) -> Result<Word, AllocError>
        ensures equal { IfOk result (λ w. w ≡ self.now) }
        ensures stored { IfOk result IsStored }
    {
        let (prefix, period) = spelling::parts(self.text);
        let prefix = spelling::bits(alloc, prefix)?;
        let period = spelling::bits(alloc, period)?;
        Ok(Word::shortest(alloc, prefix, period)?)
    }
}

impl Word {
    /// The word that the text spells. `OutOfMemory` says nothing of the text; else the answer is that of `Spelled::read`.
    pub fn read(alloc: Global, text: &[u8]) -> Result<Word, WordError>
        ensures ok { IfOk result (IsReadable text.now) }
        ensures refused { IfErr result (λ e. (e ≡ WordError.OutOfMemory) ⊎ RefusesWordText text.now e) }
        ensures only { OnlyAnswer text.now result }
        ensures stored { IfOk result IsStored }
    {
        let spelled = Spelled::read(text)?;
        Ok(spelled.word(alloc)?)
    }
}

/// Digits without a count spell a word as they stand.
#[tactic(auto, using(crate::proofs::RunLaws::digits_spell))]
pub fn digits_spell_words()
    ensures { (w : Bits) → 0 < length w.period → Spells (map digit_of w.prefix ++ 40 ∷ (map digit_of w.period ++ 41 ∷ [])) w }
{}
