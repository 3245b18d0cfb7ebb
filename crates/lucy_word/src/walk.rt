// The bits of a word one instant after another, or a limb of them at once, without a division for each.
ghost use Rattle.std.specs.Prelude.{◌≡◌, ℕ, ◌+◌, ◌<◌, ◌≤◌, length, IfSome};
ghost use Rattle.lucy_word.specs.Bits.{bit_at};
ghost use Rattle.lucy_word.specs.Packing.{AreNext};

use crate::limbs::Limbs;
use std::marker::Model;

/// A word that is walked along, seen as what is left of it: its bit at instant 1 is the next one.
#[derive(Drop)]
pub struct Walk<'a> {
    rest: &'a Limbs,
    // How many bits of the rest are left behind.
    at: usize,
    period: &'a Limbs,
    // Whether the rest is of the period.
    turning: bool,
}

impl<'a> Model for Walk<'a> {
    ghost use Rattle.std.specs.Prelude.{◌<◌, ◌≤◌, ◌≡◌, true, length, drop};
    ghost use Rattle.lucy_word.specs.Bits.{Bits};

    ghost Value = { Bits };

    ghost view = { λ w. record { prefix = drop w.at w.rest.now; period = w.period.now } };

    ghost invariant = { λ w. (w.at ≤ length w.rest.now) × (0 < length w.period.now) × (w.turning ≡ true → w.rest.now ≡ w.period.now) };
}

impl<'a> Walk<'a> {
    // From the first bit of the prefix on.
    pub(crate) fn new(prefix: &'a Limbs, period: &'a Limbs) -> Walk<'a>
        requires { 0 < length period.now }
        ensures { result ≡ record { prefix = prefix.now; period = period.now } }
    {
        Walk {
            rest: prefix,
            at: 0,
            period,
            turning: false,
        }
    }

    // Where nothing is left of the prefix, the period comes.
    fn refill(&mut self)
        ensures some { 0 < length self.new.prefix }
        ensures same { (i : ℕ) → 0 < i → bit_at self.new i ≡ bit_at self.old i }
    {
        if self.at == self.rest.len() {
            self.rest = self.period;
            self.at = 0;
            self.turning = true;
        }
    }

    /// The next bit, which is left behind. A walk has no end.
    pub fn step(&mut self) -> bool
        ensures bit { result ≡ bit_at self.old 1 }
        ensures rest { (i : ℕ) → 0 < i → bit_at self.new i ≡ bit_at self.old (i + 1) }
    {
        self.refill();
        let bit = self.rest.bit(self.at);
        self.at += 1;
        bit
    }

    // The next bits as far as the prefix goes, or one turn of the period, and how many they are.
    fn some(&mut self, most: usize) -> (u64, usize)
        requires positive { 0 < most }
        requires few { most ≤ 64 }
        ensures positive { 0 < result.1 }
        ensures within { result.1 ≤ most }
        ensures bits { AreNext self.old result.1 result.0 }
        ensures rest { (i : ℕ) → 0 < i → bit_at self.new i ≡ bit_at self.old (i + result.1) }
    {
        self.refill();
        let count = most.min(self.rest.len() - self.at);
        let bits = self.rest.part(self.at, count);
        self.at += count;
        (bits, count)
    }

    // The next bits, no more than a limb has, turn by turn.
    fn gather(&mut self, count: usize) -> u64
        requires { count ≤ 64 }
        ensures bits { AreNext self.old count result }
        ensures rest { (i : ℕ) → 0 < i → bit_at self.new i ≡ bit_at self.old (i + count) }
    {
        let mut bits = 0u64;
        let mut made = 0;
        while made < count {
            let (more, len) = self.some(count - made);
            bits |= more << made;
            made += len;
        }
        bits
    }

    // The length of a period that is short and turns.
    fn short_turn(&self) -> Option<usize>
        ensures some { IfSome result (λ len. (0 < len) × (len ≤ 32) × ((i : ℕ) → 0 < i → bit_at self.now (i + len) ≡ bit_at self.now i)) }
    {
        if self.turning && self.period.len() <= 32 {
            Some(self.period.len())
        } else {
            None
        }
    }

    // A limb of a short period: one turn, doubled as often as it fits, and what is left.
    fn widen(&mut self, len: usize) -> u64
        requires some { 0 < len }
        requires short { len ≤ 32 }
        requires turns { (i : ℕ) → 0 < i → bit_at self.now (i + len) ≡ bit_at self.now i }
        ensures bits { AreNext self.old 64 result }
        ensures rest { (i : ℕ) → 0 < i → bit_at self.new i ≡ bit_at self.old (i + 64) }
    {
        let mut bits = self.gather(len);
        let mut made = len;
        while made <= 32 {
            bits |= bits << made;
            made += made;
        }
        if made < 64 {
            bits |= self.gather(64 - made) << made;
        }
        bits
    }

    /// The next bits, no more than a limb has, which are left behind.
    pub(crate) fn next(&mut self, count: usize) -> u64
        requires { count ≤ 64 }
        ensures bits { AreNext self.old count result }
        ensures rest { (i : ℕ) → 0 < i → bit_at self.new i ≡ bit_at self.old (i + count) }
    {
        if count == 64 {
            if let Some(len) = self.short_turn() {
                return self.widen(len);
            }
        }
        self.gather(count)
    }
}
