// Bits in limbs of 64, with the ones before each limb, so that no count goes over all of them.
ghost use Rattle.std.specs.Prelude.{◌≡◌, ◌↔◌, ℕ, ◌+◌, ◌%◌, ◌^◌, ◌<◌, ◌≤◌, length, map, not, take, slice_index, slice_index_or, false, true, IsTrue, IfOk};
ghost use Rattle.std.specs.List.Sorted.{IsNonDecreasingBy};
ghost use Rattle.std.specs.Int.RustNames.{count_ones};
ghost use Rattle.lucy_word.specs.Bits.{ones_in, most_bits};
ghost use Rattle.lucy_word.specs.Packing.{is_set, unpacked, ArePacked};

use crate::packed::Packed;
use std::alloc::{AllocError, Global};
use std::marker::Model;

// How many bits a limb has.
pub(crate) const WIDTH: usize = 64;

/// Bits, seen as their list, no more than `Limit::Word` allows.
#[derive(Drop)]
pub(crate) struct Limbs {
    limbs: Vec<u64>,
    // How many ones there are before each limb.
    before: Vec<u32>,
    len: usize,
}

impl Model for Limbs {
    ghost use Rattle.std.specs.Prelude.{◌≤◌, List, Bool};
    ghost use Rattle.lucy_word.specs.Bits.{most_bits};
    ghost use Rattle.lucy_word.specs.Counting.{CountsBefore};
    ghost use Rattle.lucy_word.specs.Packing.{unpacked, ArePacked};

    ghost Value = { List Bool };

    ghost view = { λ c. unpacked c.len c.limbs.items };

    ghost invariant = { λ c. (c.len ≤ most_bits) × ArePacked c.len c.limbs.items × CountsBefore (unpacked c.len c.limbs.items) c.before.items };
}

// The lowest bits of a limb, fewer than all.
fn low(limb: u64, n: usize) -> u64
    requires { n < 64 }
    ensures { result ≡ limb % 2 ^ n }
{
    limb & ((1 << n) - 1)
}

// Whether a limb has a one at this place.
fn has(limb: u64, i: usize) -> bool
    requires { i < 64 }
    ensures { result ≡ is_set limb i }
{
    limb >> i & 1 == 1
}

/// The lowest bits of a limb.
pub(crate) fn cut(limb: u64, n: usize) -> u64
    requires { n ≤ 64 }
    ensures { result ≡ limb % 2 ^ n }
{
    if n == WIDTH { limb } else { low(limb, n) }
}

// How many of the counts, which do not fall, are less than the number.
fn less_than(counts: &[u32], number: u64) -> usize
    requires { IsNonDecreasingBy (λ n. n) counts.now }
    ensures within { result ≤ length counts.now }
    ensures less { (k : ℕ) → k < result → slice_index counts.now k < number }
    ensures not_less { (k : ℕ) → result ≤ k → k < length counts.now → number ≤ slice_index counts.now k }
{
    counts.partition_point(|count| u64::from(*count) < number)
}

// How many bits of a limb there are up to the one of this number.
fn select(limb: u64, number: u64) -> usize
    requires enough { number ≤ count_ones limb }
    ensures within { result ≤ 64 }
    ensures there { count_ones (limb % 2 ^ result) ≡ number }
    ensures first { (k : ℕ) → k < result → count_ones (limb % 2 ^ k) < number }
{
    let mut missing = number;
    for i in 0..WIDTH {
        if missing == 0 {
            return i;
        }
        missing -= limb >> i & 1;
    }
    WIDTH
}

// The limb of these bits, and zeros where they are fewer.
fn limb_of(bits: &[bool]) -> u64
    requires { length bits.now ≤ 64 }
    ensures below { result < 2 ^ length bits.now }
    ensures bits { (i : ℕ) → i < length bits.now → is_set result i ≡ slice_index_or bits.now i false }
{
    let mut limb = 0u64;
    for i in 0..bits.len() {
        limb |= u64::from(bits[i]) << i;
    }
    limb
}

// The limbs of these bits.
fn packed(alloc: Global, bits: &[bool]) -> Result<Vec<u64>, AllocError>
    ensures packed { IfOk result (λ limbs. ArePacked (length bits.now) limbs.items) }
    ensures bits { IfOk result (λ limbs. unpacked (length bits.now) limbs.items ≡ bits.now) }
{
    let whole = bits.len() / WIDTH;
    let mut limbs = Vec::with_capacity(alloc, whole + 1)?;
    for i in 0..whole {
        limbs.push(limb_of(&bits[i * WIDTH..(i + 1) * WIDTH]))?;
    }
    limbs.push(limb_of(&bits[whole * WIDTH..]))?;
    Ok(limbs)
}

// The limbs of the bits turned, of which there are so many.
fn turned_limbs(alloc: Global, limbs: &[u64], len: usize) -> Result<Vec<u64>, AllocError>
    requires { ArePacked len limbs.now }
    ensures packed { IfOk result (λ turned. ArePacked len turned.items) }
    ensures bits { IfOk result (λ turned. unpacked len turned.items ≡ map not (unpacked len limbs.now)) }
{
    let whole = len / WIDTH;
    let mut turned = Vec::with_capacity(alloc, whole + 1)?;
    for i in 0..whole {
        turned.push(!limbs[i])?;
    }
    turned.push(low(!limbs[whole], len % WIDTH))?;
    Ok(turned)
}

impl Limbs {
    /// The first bits of the limbs.
    pub(crate) fn from_limbs(
        alloc: Global,
        limbs: Vec<u64>,
        len: usize,
    ) -> Result<Limbs, AllocError>
        requires packed { ArePacked len limbs.items }
        requires short { len ≤ most_bits }
        ensures { IfOk result (λ c. c ≡ unpacked len limbs.items) }
    {
        let strides = len / WIDTH;
        let mut before = Vec::with_capacity(alloc, strides + 1)?;
        let mut ones = 0u32;
        for stride in 0..strides {
            before.push(ones)?;
            ones += limbs[stride].count_ones();
        }
        before.push(ones)?;
        Ok(Limbs { limbs, before, len })
    }

    /// The bits that were made.
    pub(crate) fn count(alloc: Global, made: Packed) -> Result<Limbs, AllocError>
        ensures { IfOk result (λ c. c ≡ made) }
    {
        let (limbs, len) = made.limbs(alloc)?;
        Limbs::from_limbs(alloc, limbs, len)
    }

    /// The limbs of a list.
    pub(crate) fn new(alloc: Global, bits: &[bool]) -> Result<Limbs, AllocError>
        requires { length bits.now ≤ most_bits }
        ensures { IfOk result (λ c. c ≡ bits.now) }
    {
        let limbs = packed(alloc, bits)?;
        Limbs::from_limbs(alloc, limbs, bits.len())
    }

    /// How many bits there are.
    pub(crate) fn len(&self) -> usize
        ensures len { result ≡ length self.now }
        ensures short { result ≤ most_bits }
    {
        self.len
    }

    /// The bit at a place, counted from 0.
    pub(crate) fn bit(&self, i: usize) -> bool
        requires { i < length self.now }
        ensures bit { result ≡ slice_index_or self.now i false }
        ensures short { i < most_bits }
    {
        has(self.limbs[i / WIDTH], i % WIDTH)
    }

    // The bits from a place on, at most one limb of them, as a number.
    pub(crate) fn part(&self, at: usize, n: usize) -> u64
        requires few { n ≤ 64 }
        requires within { at + n ≤ length self.now }
        ensures below { result < 2 ^ n }
        ensures bits { (i : ℕ) → i < n → is_set result i ≡ slice_index_or self.now (at + i) false }
    {
        let shift = at % WIDTH;
        let first = self.limbs[at / WIDTH];
        if shift + n <= WIDTH {
            return cut(first >> shift, n);
        }
        let next = self.limbs[at / WIDTH + 1];
        cut(first >> shift | next << (WIDTH - shift), n)
    }

    /// The ones among the first `n` bits.
    pub(crate) fn ones(&self, n: usize) -> u64
        requires { n ≤ length self.now }
        ensures { result ≡ ones_in (take n self.now) }
    {
        u64::from(self.before[n / WIDTH])
            + u64::from(low(self.limbs[n / WIDTH], n % WIDTH).count_ones())
    }

    /// All its ones.
    pub(crate) fn total(&self) -> u64
        ensures { result ≡ ones_in self.now }
    {
        self.ones(self.len)
    }

    /// How many bits there are up to the one of this number, from 1; 0 for number 0. Limbs are jumped over.
    pub(crate) fn index(&self, number: u64) -> usize
        requires enough { number ≤ ones_in self.now }
        ensures within { result ≤ length self.now }
        ensures there { ones_in (take result self.now) ≡ number }
        ensures first { (k : ℕ) → k < result → ones_in (take k self.now) < number }
    {
        let limbs = less_than(&self.before, number);
        if limbs == 0 {
            return 0;
        }
        let last = limbs - 1;
        last * WIDTH + select(self.limbs[last], number - u64::from(self.before[last]))
    }

    /// Its bits turned.
    pub(crate) fn turned(&self, alloc: Global) -> Result<Limbs, AllocError>
        ensures { IfOk result (λ c. c ≡ map not self.now) }
    {
        let limbs = turned_limbs(alloc, &self.limbs, self.len)?;
        Limbs::from_limbs(alloc, limbs, self.len)
    }

    /// Whether the lists are equal.
    pub(crate) fn same(&self, other: &Limbs) -> bool
        ensures { IsTrue result ↔ (self.now ≡ other.now) }
    {
        self.len == other.len && self.limbs == other.limbs
    }

    /// An equal list.
    pub(crate) fn copy(&self, alloc: Global) -> Result<Limbs, AllocError>
        ensures { IfOk result (λ c. c ≡ self.now) }
    {
        let limbs = self.limbs.to_vec(alloc)?;
        let before = self.before.to_vec(alloc)?;
        Ok(Limbs {
            limbs,
            before,
            len: self.len,
        })
    }
}
