// The bits that the text of a word stands for, where it is a form's.
ghost use Rattle.std.specs.Prelude.{◌≡◌, ◌++◌, ◌∷◌, ◌<◌, ◌≤◌, ℕ, List, length, IfOk, IfSome, MatchOption};
ghost use Rattle.lucy_word.specs.Bits.{ones_in};
ghost use Rattle.std.specs.List.{prefix_len, AllByRecursion};
ghost use Rattle.lucy_word.specs.Items.{WordItem, WordForm, IsItem, IsForm, form_text, items_text, items_bits};
ghost use Rattle.lucy_word.specs.Cutting.{IsSplit, IsCounted, IsTimes, AddsUp, ones_of, is_no_open, most_count};

use crate::Limit;
use crate::digits::alone;
use crate::form::limbs_end;
use crate::limbs::{Limbs, WIDTH};
use crate::packed::Packed;
use std::alloc::{AllocError, Global};

fn prefix_len(text: &[u8]) -> usize
    ensures value { result ≡ prefix_len is_no_open text.now }
    ensures within { result ≤ length text.now }
{
    text.iter().take_while(|c| **c != b'(').count()
}

// The same: digits that fill limbs have no `(`.
fn prefix_end(text: &[u8]) -> usize
    ensures value { result ≡ prefix_len is_no_open text.now }
    ensures within { result ≤ length text.now }
{
    let from = limbs_end(text, 0);
    let (_, rest) = text.split_at(from);
    from + prefix_len(rest)
}

// The text of the prefix, and that of the period.
pub(crate) fn parts(text: &[u8]) -> (&[u8], &[u8])
    ensures { (f : WordForm) → IsForm f → text.now ≡ form_text f → IsSplit result.0.now result.1.now f }
{
    let n = prefix_end(text);
    let (prefix, rest) = text.split_at(n);
    if rest.len() < 2 {
        return (prefix, rest);
    }
    (prefix, &rest[1..rest.len() - 1])
}

// The number that the digits of a count stand for, up to one more than a written word may have bits, and what follows its `}`.
fn counted(text: &[u8]) -> (u64, &[u8])
    ensures counted { IsCounted text.now result.0 result.1.now }
    ensures shorter { length result.1.now ≤ length text.now }
    ensures most { result.0 ≤ most_count }
{
    let most = Limit::Written.number() + 1;
    let mut value = 0u64;
    let mut rest = text;
    'digits: while let Some((c, more)) = rest.split_first() {
        if *c == b'}' {
            return (value, more);
        }
        value = (value * 10 + (*c as u64).saturating_sub(48)).min(most);
        rest = more;
    }
    (value, rest)
}

// How often the digit before this text stands there, and what follows it.
fn times(text: &[u8]) -> (u64, &[u8])
    ensures times { IsTimes text.now result.0 result.1.now }
    ensures shorter { length result.1.now ≤ length text.now }
    ensures most { result.0 ≤ most_count }
{
    match text.split_first() {
        Some((c, more)) if *c == b'{' => counted(more),
        _ => (1, text),
    }
}

/// How many bits items stand for, and how many of them are ones.
#[derive(Clone, Copy)]
pub(crate) struct Sums {
    pub(crate) bits: u64,
    pub(crate) ones: u64,
}

// How many ones a digit is that stands there so often.
fn ones_of(c: u8, n: u64) -> u64
    ensures { result ≡ ones_of c n }
{
    if c == b'1' { n } else { 0 }
}

// What the first items stand for, digits alone or one with its count, and what follows them; none where there are no items.
fn first(items: &[u8]) -> Option<(Sums, &[u8])>
    ensures sums { MatchOption result (length items.now ≡ 0) (λ r. AddsUp items.now r.0.bits r.0.ones r.1.now) }
    ensures shorter { IfSome result (λ r. length r.1.now < length items.now) }
    ensures within { IfSome result (λ r. r.0.ones ≤ r.0.bits) }
{
    let digits = alone(items, WIDTH);
    if digits.n > 0 {
        let (_, rest) = items.split_at(digits.n);
        let bits = digits.n as u64;
        let ones = u64::from(digits.limb.count_ones());
        return Some((Sums { bits, ones }, rest));
    }
    let Some((c, more)) = items.split_first() else {
        return None;
    };
    let (bits, rest) = times(more);
    let ones = ones_of(*c, bits);
    Some((Sums { bits, ones }, rest))
}

// What items stand for, counted; none where they are more bits than so many, which are no more than a written word may have.
pub(crate) fn add_up(items: &[u8], most: u64) -> Option<Sums>
    requires { most < most_count }
    ensures sums { (is : List WordItem) → AllByRecursion IsItem is → items.now ≡ items_text is → MatchOption result (most < length (items_bits is)) (λ s. (s.bits ≡ length (items_bits is)) × (s.ones ≡ ones_in (items_bits is))) }
    ensures within { IfSome result (λ s. (s.ones ≤ s.bits) × (s.bits ≤ most)) }
{
    let mut sums = Sums { bits: 0, ones: 0 };
    let mut rest = items;
    'items: while let Some((more, behind)) = first(rest) {
        if more.bits > most - sums.bits {
            return None;
        }
        sums.bits += more.bits;
        sums.ones += more.ones;
        rest = behind;
    }
    Some(sums)
}

// The bits that items stand for, where they are no more than a written word may have.
pub(crate) fn bits(alloc: Global, items: &[u8]) -> Result<Limbs, AllocError>
    ensures { IfOk result (λ v. (is : List WordItem) → AllByRecursion IsItem is → items.now ≡ items_text is → length (items_bits is) < most_count → v ≡ items_bits is) }
{
    let most = Limit::Written.number();
    let mut bits = Packed::new(alloc);
    let mut rest = items;
    'items: while let Some((c, more)) = rest.split_first() {
        let room = most.saturating_sub(bits.len() as u64);
        let digits = alone(rest, room as usize);
        if digits.n > 0 {
            bits.push(digits.limb, digits.n)?;
            let (_, behind) = rest.split_at(digits.n);
            rest = behind;
            continue;
        }
        let (n, more) = times(more);
        bits.push_run(*c == b'1', n.min(room) as usize)?;
        rest = more;
    }
    Ok(Limbs::count(alloc, bits)?)
}
