// Bits that are ones at positions.
ghost use Rattle.std.specs.Prelude.{ℕ, ◌≡◌, ◌+◌, ◌<◌, ◌≤◌, false, length, IfOk, pos, ◌≤ℤ◌};
ghost use Rattle.std.specs.List.{All};
ghost use Rattle.lucy_solve.specs.System.{value};
ghost use Rattle.lucy_shape.specs.Marking.{IsBetween, AreMarks};

use std::alloc::{AllocError, Global};

// Makes ones of the bits at the positions. The first bit stands at instant `from`.
fn mark(bits: &mut [bool], positions: &[i64], from: u64)
    requires within { All (IsBetween from (length bits.old)) positions.now }
    requires none { All (λ bit. bit ≡ false) bits.old }
    ensures size { length bits.new ≡ length bits.old }
    ensures marks { AreMarks from positions.now bits.new }
{
    for position in positions {
        let place = *position as u64 - from;
        bits[place as usize] = true;
    }
}

/// So many bits, of which those at the positions are ones. The first bit stands at instant `from`.
pub(crate) fn marks(
    alloc: Global,
    len: u64,
    positions: &[i64],
    from: u64,
) -> Result<Vec<bool>, AllocError>
    requires { All (IsBetween from len) positions.now }
    ensures size { IfOk result (λ bits. length bits.items ≡ len) }
    ensures marks { IfOk result (λ bits. AreMarks from positions.now bits.items) }
{
    let mut bits = vec![in alloc; false; len as usize]?;
    mark(&mut bits, positions, from);
    Ok(bits)
}

/// So many of the positions from variable `from` on.
pub(crate) fn part<'a>(positions: &'a [i64], from: usize, len: usize) -> &'a [i64]
    requires { from + len ≤ length positions.now }
    ensures size { length result.now ≡ len }
    ensures at { (j : ℕ) → j < len → value result.now j ≡ value positions.now (from + j) }
{
    &positions[from..from + len]
}

/// The instant of the first of some positions.
pub(crate) fn start_of(positions: &[i64]) -> u64
    requires some { 0 < length positions.now }
    requires at { pos 1 ≤ℤ value positions.now 0 }
    ensures { pos result ≡ value positions.now 0 }
{
    positions[0] as u64
}
