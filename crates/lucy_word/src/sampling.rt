// A clock on a clock, made a limb at a time from two walks.
ghost use Rattle.std.specs.Prelude.{◌≡◌, ◌⊎◌, ◌↔◌, ℕ, ◌+◌, ◌^◌, ◌<◌, ◌≤◌, None, length, IfSome, IfNone, IfOk, IfErr, IsOkAnd, IsErrAnd};
ghost use Rattle.lucy_word.specs.Bits.{IsWord, ones_in, most_bits};
ghost use Rattle.lucy_word.specs.Sampling.{IsOn, bit_on, AreComputedLengths, IsOnTooLong};
ghost use Rattle.lucy_word.specs.Shortest.{IsShortest};
ghost use Rattle.lucy_word.specs.Stored.{IsStored};
ghost use Rattle.lucy_word.specs.SamplingSteps.{IsLeft, AreFirstOn};
ghost use Rattle.lucy_word.specs.Packing.{is_set, deposit_bit};

use crate::limbs::{Limbs, WIDTH};
use crate::packed::Packed;
use crate::{Limit, Walk, Word, WordError, lcm};
use std::alloc::{AllocError, Global};

// How many bits of prefix and of period `a on b` is computed with, if they are not too many.
fn computed_lengths(a: &Word, b: &Word) -> Option<(u64, u64)>
    ensures lengths { IfSome result (λ n. AreComputedLengths a.now b.now n.0 n.1) }
    ensures short { IfSome result (λ n. n.0 + n.1 ≤ most_bits) }
    ensures too_long { IfNone result (IsOnTooLong a.now b.now) }
    ensures first { IsWord a.now }
    ensures second { IsWord b.now }
{
    let (prefix_a, _) = a.lengths();
    let (prefix_b, _) = b.lengths();
    let (ones_a, period_a) = a.rate();
    let (_, period_b) = b.rate();
    let period = lcm(ones_a, period_b) / ones_a * period_a;
    let prefix = prefix_a.max(a.index(prefix_b)?);
    let most = Limit::Word.number();
    if prefix <= most && period <= most - prefix {
        Some((prefix, period))
    } else {
        None
    }
}

// The next bits of the second where the first has ones.
fn deposit(first: u64, next: u64) -> u64
    ensures { (i : ℕ) → i < 64 → is_set result i ≡ deposit_bit first next i }
{
    let mut kept = 0u64;
    let mut bits = next;
    let mut rest = first;
    let mut at = 0u32;
    while rest != 0 {
        let skip = rest.trailing_zeros();
        at += skip;
        kept |= (bits & 1) << at;
        bits >>= 1;
        rest = rest >> skip >> 1;
        at += 1;
    }
    kept
}

// The next bits of `a on b`, no more than a limb has: the second walk goes on by the ones of the first.
fn step(a: &mut Walk, b: &mut Walk, count: usize) -> u64
    requires { count ≤ 64 }
    ensures below { result < 2 ^ count }
    ensures bits { (i : ℕ) → i < count → is_set result i ≡ bit_on a.old b.old (i + 1) }
    ensures left { IsLeft a.old b.old count a.new b.new }
{
    let first = a.next(count);
    let next = b.next(first.count_ones() as usize);
    deposit(first, next)
}

// The next bits of `a on b`, no more than a word may have.
fn steps(alloc: Global, a: &mut Walk, b: &mut Walk, len: usize) -> Result<Limbs, AllocError>
    requires { len ≤ most_bits }
    ensures count { IfOk result (λ bits. length bits ≡ len) }
    ensures bits { IfOk result (λ bits. AreFirstOn a.old b.old bits) }
    ensures left { IfOk result (λ _. IsLeft a.old b.old len a.new b.new) }
{
    let mut made = Packed::new(alloc);
    'limbs: while made.len() < len {
        let some = WIDTH.min(len - made.len());
        made.push(step(a, b, some), some)?;
    }
    Ok(Limbs::count(alloc, made)?)
}

// The prefix and the period of `a on b`, as long as they are computed and not yet in shortest form.
fn on_bits(
    alloc: Global,
    a: &Word,
    b: &Word,
    prefix_len: u64,
    period_len: u64,
) -> Result<(Limbs, Limbs), AllocError>
    requires lengths { AreComputedLengths a.now b.now prefix_len period_len }
    requires few { prefix_len + period_len ≤ most_bits }
    requires first { IsWord a.now }
    requires second { IsWord b.now }
    ensures on { IfOk result (λ w. IsOn a.now b.now (record { prefix = w.0; period = w.1 })) }
    ensures has_one { IfOk result (λ w. 0 < ones_in w.1) }
    ensures short { IfOk result (λ w. length w.0 + length w.1 ≤ most_bits) }
{
    let mut kept = a.walk();
    let mut read = b.walk();
    let prefix = steps(alloc, &mut kept, &mut read, prefix_len as usize)?;
    let period = steps(alloc, &mut kept, &mut read, period_len as usize)?;
    Ok((prefix, period))
}

/// The clock `a on b`: of the ones of `a` those are kept whose number is that of a one of `b` (Cohen and others 2006). There is none
/// where its computed length is more than `Limit::Word` allows: the greater of the length of the prefix of `a` and the place of the one of
/// `a` that reads the last bit of the prefix of `b`, and the periods of `a` whose ones are the least common multiple of those of one
/// period and the length of the period of `b`.
pub fn sampled(alloc: Global, a: &Word, b: &Word) -> Result<Option<Word>, AllocError>
    ensures is { IfOk result (λ made. IfSome made (IsOn a.now b.now)) }
    ensures stored { IfOk result (λ made. IfSome made IsStored) }
    ensures too_long { IsOkAnd result (λ made. made ≡ None) ↔ IsOnTooLong a.now b.now }
{
    let Some((prefix_len, period_len)) = computed_lengths(a, b) else {
        return Ok(None);
    };
    let (prefix, period) = on_bits(alloc, a, b, prefix_len, period_len)?;
    Ok(Some(Word::shortest(alloc, prefix, period)?))
}

/// The clock `a on b`, as [`sampled`] gives it; `TooLong` comes where there is none. It never answers `BadWord` or `NoOne`.
pub fn on(alloc: Global, a: &Word, b: &Word) -> Result<Word, WordError>
    ensures ok { IfOk result (IsOn a.now b.now) }
    ensures shortest { IfOk result IsShortest }
    ensures stored { IfOk result IsStored }
    ensures too_long { IsErrAnd result (λ e. e ≡ WordError.TooLong) ↔ IsOnTooLong a.now b.now }
    ensures refused { IfErr result (λ e. (e ≡ WordError.OutOfMemory) ⊎ (e ≡ WordError.TooLong)) }
{
    match sampled(alloc, a, b)? {
        Some(word) => Ok(word),
        None => Err(WordError::TooLong),
    }
}
