// The shortest form of a word: first its period is cut to the shortest turn, then the prefix is left out as far as the
// turn goes back into it, as `1(1)` becomes `(1)` and `0(1010)` becomes `(01)`.
ghost use Rattle.std.specs.Prelude.{◌≡◌, ◌⊎◌, ◌↔◌, ℕ, ◌+◌, ◌-◌, ◌<◌, ◌≤◌, length, drop, take, ◌++◌, IsTrue, IfOk};
ghost use Prim.Native.Nat.{◌∣◌};
ghost use Rattle.lucy_word.specs.Bits.{Bits, bit_at, bit_count, most_bits};
ghost use Rattle.lucy_word.specs.Turns.{Repeats, turning, GoesOnAs, EndsAt};
ghost use Rattle.lucy_word.specs.Shortest.{IsShortForm};

use crate::limbs::{Limbs, WIDTH};
use crate::packed::Packed;
use std::alloc::{AllocError, Global};

// Whether the bits of the first turn of the period come again after this distance.
fn comes_again(period: &Limbs, turn: usize, distance: usize) -> bool
    requires within { turn ≤ length period.now }
    requires nonempty { 0 < turn }
    requires some { 0 < distance }
    requires whole { distance ∣ turn }
    ensures { IsTrue result ↔ Repeats (bit_at (turning (take turn period.now))) 0 distance }
{
    let mut i = distance;
    while i < turn {
        let some = WIDTH.min(turn - i);
        if period.part(i, some) != period.part(i - distance, some) {
            return false;
        }
        i += some;
    }
    true
}

// The shortest distance after which the bits of the period come again. The factors of its length are left out one after
// another, and one without which the bits don't come again is not tried twice. What is left is looked at alone, so it takes
// the period's length for each of its prime factors at most.
fn shortest_turn(period: &Limbs) -> usize
    requires nonempty { 0 < length period.now }
    requires short { length period.now ≤ most_bits }
    ensures some { 0 < result }
    ensures whole { result ∣ length period.now }
    ensures repeats { Repeats (bit_at (turning period.now)) 0 result }
    ensures least { (d : ℕ) → Repeats (bit_at (turning period.now)) 0 d → result ∣ d }
{
    let mut turn = period.len();
    let mut rest = turn;
    let mut factor = 2;
    let mut refused = 0;
    while rest > 1 {
        if rest % factor != 0 {
            factor += 1;
            continue;
        }
        rest /= factor;
        if factor == refused {
            continue;
        }
        if comes_again(period, turn, turn / factor) {
            turn /= factor;
        } else {
            refused = factor;
        }
    }
    turn
}

// How many bits of the prefix are kept, and at which bit of the turn the word goes on past them: from the prefix's end back,
// as long as its bits are those of the turn, gone back over.
fn kept(prefix: &Limbs, period: &Limbs, turn: usize) -> (usize, usize)
    requires some { 0 < turn }
    requires turn { turn ≤ length period.now }
    ensures within { result.0 ≤ length prefix.now }
    ensures at { result.1 < turn }
    ensures goes_on { GoesOnAs (record { prefix = prefix.now; period = take turn period.now }) result.0 (take turn period.now) result.1 }
    ensures least { EndsAt (record { prefix = prefix.now; period = take turn period.now }) result.0 }
{
    let mut kept = prefix.len();
    let mut at = 0;
    while kept > 0 {
        let before = if at == 0 { turn - 1 } else { at - 1 };
        if prefix.bit(kept - 1) != period.bit(before) {
            break;
        }
        kept -= 1;
        at = before;
    }
    (kept, at)
}

// The first bits.
fn front(alloc: Global, bits: Limbs, n: usize) -> Result<Limbs, AllocError>
    requires { n ≤ length bits }
    ensures { IfOk result (λ c. c ≡ take n bits) }
{
    if n == bits.len() {
        return Ok(bits);
    }
    let mut made = Packed::new(alloc);
    made.push_part(&bits, 0, n)?;
    Limbs::count(alloc, made)
}

// The first turn of a period, from its bit at a place on and round to it.
fn rotated(alloc: Global, period: Limbs, turn: usize, at: usize) -> Result<Limbs, AllocError>
    requires turn { turn ≤ length period }
    requires at { at < turn }
    ensures { IfOk result (λ c. c ≡ take (turn - at) (drop at period) ++ take at period) }
{
    if at == 0 {
        return front(alloc, period, turn);
    }
    let mut made = Packed::new(alloc);
    made.push_part(&period, at, turn)?;
    made.push_part(&period, 0, at)?;
    Limbs::count(alloc, made)
}

/// The bits of a word in shortest form: prefix and period.
pub(crate) fn shorten(
    alloc: Global,
    prefix: Limbs,
    period: Limbs,
) -> Result<(Limbs, Limbs), AllocError>
    requires nonempty { 0 < length period }
    requires short { length prefix + length period ≤ most_bits }
    ensures form { IfOk result (λ r. IsShortForm (record { prefix = prefix; period = period }) (record { prefix = r.0; period = r.1 })) }
    ensures prefix { IfOk result (λ r. length r.0 ≤ length prefix) }
    ensures period { IfOk result (λ r. length r.1 ≤ length period) }
{
    let turn = shortest_turn(&period);
    let (kept, at) = kept(&prefix, &period, turn);
    let prefix = front(alloc, prefix, kept)?;
    let period = rotated(alloc, period, turn, at)?;
    Ok((prefix, period))
}
