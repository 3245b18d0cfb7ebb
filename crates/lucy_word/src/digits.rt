// Digits of a word's text that stand alone, gathered into a limb.
ghost use Rattle.std.specs.Prelude.{◌≡◌, ◌<◌, ◌≤◌, ◌==◌, ℕ, length, drop, slice_index, IsTrue, IfSome};
ghost use Rattle.lucy_word.specs.Cutting.{AreDigits, AreAlone};
ghost use Rattle.lucy_word.specs.Packing.{is_set};

use crate::form::is_digit;
use crate::limbs::{WIDTH, cut};
use std::simd::prelude::*;

/// Digits in turn, the first as the lowest bit of a limb whose others are 0, and how many they are.
#[derive(Clone, Copy)]
pub(crate) struct Digits {
    pub(crate) limb: u64,
    pub(crate) n: usize,
}

// The byte at a place, 0 past the end.
fn byte_at(text: &[u8], i: usize) -> u8
    ensures { result ≡ slice_index text.now i }
{
    if i < text.len() { text[i] } else { 0 }
}

// How many digits at least are gathered: fewer are read as quickly one by one.
const RUN: usize = 4;

// Whether a text begins with as many digits.
fn has_run(text: &[u8]) -> bool
    ensures { IsTrue result → 4 ≤ length text.now }
{
    text.len() >= RUN && text[..RUN].iter().all(|c| is_digit(*c))
}

// The limb that has a one where a byte is this one.
fn equal_to(bytes: u8x64, byte: u8) -> u64
    ensures { (i : ℕ) → i < 64 → is_set result i ≡ (slice_index bytes i == byte) }
{
    bytes.simd_eq(u8x64::splat(byte)).to_bitmask()
}

/// The limb of the bytes from a place on, where as many as it has bits are digits.
pub(crate) fn whole(text: &[u8], at: usize) -> Option<u64>
    ensures { IfSome result (AreDigits (drop at text.now) 64) }
{
    if text.len().saturating_sub(at) < WIDTH {
        return None;
    }
    if !has_run(&text[at..]) {
        return None;
    }
    let bytes = u8x64::from_slice(&text[at..]);
    let ones = equal_to(bytes, b'1');
    if equal_to(bytes, b'0') | ones == u64::MAX {
        Some(ones)
    } else {
        None
    }
}

// The digits with which the text begins, one by one, no more than so many, nor than a limb has bits.
fn gather(text: &[u8], most: usize) -> Digits
    ensures few { result.n ≤ 64 }
    ensures most { result.n ≤ most }
    ensures digits { AreDigits text.now result.n result.limb }
{
    let end = text.len().min(most).min(WIDTH);
    let mut limb = 0u64;
    for n in 0..end {
        let c = text[n];
        if !is_digit(c) {
            return Digits { limb, n };
        }
        limb |= u64::from(c - b'0') << n;
    }
    Digits { limb, n: end }
}

// The same, all at once where they fill a limb.
fn front(text: &[u8], most: usize) -> Digits
    ensures few { result.n ≤ 64 }
    ensures most { result.n ≤ most }
    ensures digits { AreDigits text.now result.n result.limb }
{
    if most < WIDTH {
        return gather(text, most);
    }
    match whole(text, 0) {
        Some(limb) => Digits { limb, n: WIDTH },
        None => gather(text, most),
    }
}

/// The digits with which the text begins, without the last one where a count follows it; none where they are few.
pub(crate) fn alone(text: &[u8], most: usize) -> Digits
    ensures few { result.n ≤ 64 }
    ensures most { result.n ≤ most }
    ensures alone { AreAlone text.now result.n result.limb }
{
    if !has_run(text) {
        return Digits { limb: 0, n: 0 };
    }
    let all = front(text, most);
    if byte_at(text, all.n) != b'{' {
        return all;
    }
    let n = all.n.saturating_sub(1);
    Digits {
        limb: cut(all.limb, n),
        n,
    }
}
