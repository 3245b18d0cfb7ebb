// Bits in limbs while they are made, from the first on.
ghost use Rattle.std.specs.Prelude.{◌≡◌, ℕ, ◌+◌, ◌-◌, ◌++◌, ◌^◌, ◌<◌, ◌≤◌, [], length, drop, take, replicate, IfOk, OnOk};
ghost use Rattle.lucy_word.specs.Bits.{most_bits};
ghost use Rattle.lucy_word.specs.Packing.{is_set, limb_bits, unpacked, ArePacked};

use crate::limbs::{Limbs, WIDTH, cut};
use std::alloc::{AllocError, Global};
use std::marker::Model;

/// The bits so far, seen as their list, no more than `Limit::Word` allows.
#[derive(Drop)]
pub(crate) struct Packed {
    whole: Vec<u64>,
    // The limb that is not yet whole.
    last: u64,
    len: usize,
}

impl Model for Packed {
    ghost use Rattle.std.specs.Prelude.{◌≤◌, ◌++◌, ◌∷◌, [], List, Bool};
    ghost use Rattle.lucy_word.specs.Bits.{most_bits};
    ghost use Rattle.lucy_word.specs.Packing.{unpacked, ArePacking};

    ghost Value = { List Bool };

    ghost view = { λ p. unpacked p.len (p.whole.items ++ p.last ∷ []) };

    ghost invariant = { λ p. (p.len ≤ most_bits) × ArePacking p.len p.whole.items p.last };
}

// So many times the bit, as a limb.
fn run(bit: bool, n: usize) -> u64
    requires { n ≤ 64 }
    ensures below { result < 2 ^ n }
    ensures bits { (i : ℕ) → i < n → is_set result i ≡ bit }
{
    if bit { cut(u64::MAX, n) } else { 0 }
}

impl Packed {
    /// None yet.
    pub(crate) fn new(alloc: Global) -> Packed
        ensures { result ≡ [] }
    {
        Packed {
            whole: Vec::new(alloc),
            last: 0,
            len: 0,
        }
    }

    /// How many there are.
    pub(crate) fn len(&self) -> usize
        ensures len { result ≡ length self.now }
        ensures short { result ≤ most_bits }
    {
        self.len
    }

    /// The lowest bits of a limb more, whose others are 0.
    pub(crate) fn push(&mut self, limb: u64, n: usize) -> Result<(), AllocError>
        requires few { n ≤ 64 }
        requires small { limb < 2 ^ n }
        requires room { length self.old + n ≤ most_bits }
        ensures { OnOk result (self.new ≡ self.old ++ limb_bits n limb) }
    {
        let at = self.len % WIDTH;
        let joined = self.last | limb << at;
        if at + n < WIDTH {
            self.last = joined;
            self.len += n;
            return Ok(());
        }
        self.whole.push(joined)?;
        self.last = limb >> 1 >> (WIDTH - 1 - at);
        self.len += n;
        Ok(())
    }

    /// So many times the bit more.
    pub(crate) fn push_run(&mut self, bit: bool, n: usize) -> Result<(), AllocError>
        requires { length self.old + n ≤ most_bits }
        ensures { OnOk result (self.new ≡ self.old ++ replicate n bit) }
    {
        let mut made = 0;
        while made < n {
            let some = WIDTH.min(n - made);
            self.push(run(bit, some), some)?;
            made += some;
        }
        Ok(())
    }

    /// A part of other bits more, from one place to another.
    pub(crate) fn push_part(
        &mut self,
        bits: &Limbs,
        from: usize,
        to: usize,
    ) -> Result<(), AllocError>
        requires ordered { from ≤ to }
        requires within { to ≤ length bits.now }
        requires room { length self.old + (to - from) ≤ most_bits }
        ensures { OnOk result (self.new ≡ self.old ++ take (to - from) (drop from bits.now)) }
    {
        let mut at = from;
        while at < to {
            let some = WIDTH.min(to - at);
            self.push(bits.part(at, some), some)?;
            at += some;
        }
        Ok(())
    }

    /// Their limbs, in no more memory than they take, and how many bits there are.
    pub(crate) fn limbs(&self, alloc: Global) -> Result<(Vec<u64>, usize), AllocError>
        ensures packed { IfOk result (λ r. ArePacked r.1 r.0.items) }
        ensures short { IfOk result (λ r. r.1 ≤ most_bits) }
        ensures bits { IfOk result (λ r. unpacked r.1 r.0.items ≡ self.now) }
    {
        let mut limbs = Vec::with_capacity(alloc, self.whole.len() + 1)?;
        limbs.extend_from_slice(&self.whole)?;
        limbs.push(self.last)?;
        Ok((limbs, self.len))
    }
}
