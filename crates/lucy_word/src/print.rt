// The text of a word.
ghost use Rattle.std.specs.Prelude.{◌≡◌, ◌++◌, ◌+◌, ◌<◌, ◌≤◌, ℕ, length, replicate, not, false, slice_index_or, if◌then◌else◌, IfOk, OnOk, OnErr};
ghost use Rattle.lucy_word.specs.Bits.{most_bits};
ghost use Rattle.lucy_word.specs.Items.{digit_of};
ghost use Rattle.lucy_word.specs.Packing.{is_set};
ghost use Rattle.lucy_word.specs.Spelling.{run_text, spelled, text_of};

use crate::Word;
use crate::limbs::{Limbs, WIDTH};
use std::alloc::{AllocError, Global};

// The digit of a bit.
fn digit(bit: bool) -> u8
    ensures { result ≡ digit_of bit }
{
    if bit { b'1' } else { b'0' }
}

// The digit so many times.
fn push_digits(digit: u8, n: usize, text: &mut Vec<u8>) -> Result<(), AllocError>
    ensures { OnOk result (text.new.items ≡ text.old.items ++ replicate n digit) }
{
    'digits: for _ in 0..n {
        text.push(digit)?;
    }
    Ok(())
}

// A run of one bit, so many times.
fn push_run(alloc: Global, bit: bool, n: usize, text: &mut Vec<u8>) -> Result<(), AllocError>
    ensures { OnOk result (text.new.items ≡ text.old.items ++ run_text bit n) }
{
    if n <= 4 {
        return push_digits(digit(bit), n, text);
    }
    text.push(digit(bit))?;
    text.push(b'{')?;
    text.extend_from_slice(format!(in alloc; "{n}")?.as_bytes())?;
    text.push(b'}')?;
    Ok(())
}

// The bits of a limb that are not this one, as ones.
fn others(limb: u64, bit: bool) -> u64
    ensures { (i : ℕ) → i < 64 → is_set result i ≡ (if bit then not (is_set limb i) else is_set limb i) }
{
    if bit { !limb } else { limb }
}

// How many of the bits from a place on are this one, at most a limb of them.
fn alike(bits: &Limbs, at: usize, bit: bool) -> usize
    requires { at ≤ length bits.now }
    ensures within { at + result ≤ length bits.now }
    ensures alike { (k : ℕ) → k < result → slice_index_or bits.now (at + k) false ≡ bit }
    ensures stops { result ≡ 0 → at < length bits.now → slice_index_or bits.now at false ≡ not bit }
{
    let n = WIDTH.min(bits.len() - at);
    let others = others(bits.part(at, n), bit);
    if others == 0 {
        return n;
    }
    n.min(others.trailing_zeros() as usize)
}

// The text of the bits, each of their greatest runs in its place.
fn digits(alloc: Global, bits: &Limbs) -> Result<Vec<u8>, AllocError>
    ensures { IfOk result (λ v. v.items ≡ spelled bits.now) }
{
    let mut text = Vec::new(alloc);
    if bits.len() == 0 {
        return Ok(text);
    }
    let mut bit = bits.bit(0);
    let mut n = 1;
    let mut at = 1;
    'bits: while at < bits.len() {
        let more = alike(bits, at, bit);
        if more == 0 {
            push_run(alloc, bit, n, &mut text)?;
            bit = !bit;
            n = 1;
            at += 1;
        } else {
            n += more;
            at += more;
        }
    }
    push_run(alloc, bit, n, &mut text)?;
    Ok(text)
}

fn text(alloc: Global, word: &Word) -> Result<Vec<u8>, AllocError>
    ensures { IfOk result (λ v. v.items ≡ text_of word.now) }
{
    let mut text = digits(alloc, &word.prefix)?;
    text.push(b'(')?;
    text.extend_from_slice(&digits(alloc, &word.period)?)?;
    text.push(b')')?;
    Ok(text)
}

impl Word {
    /// Appends the text of the word, as `0(01)`. In the prefix and in the period, each by itself, a greatest run of more than
    /// four equal digits is one digit with its count, as in `(1{720}000)`.
    pub fn print(&self, alloc: Global, out: &mut Vec<u8>) -> Result<(), AllocError>
        ensures ok { OnOk result (out.new.items ≡ out.old.items ++ text_of self.now) }
        ensures err { OnErr result (out.new.items ≡ out.old.items) }
    {
        out.extend_from_slice(&text(alloc, self)?)?;
        Ok(())
    }
}
