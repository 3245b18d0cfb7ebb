ghost use Rattle.std.specs.Prelude.{◌≡◌, ◌<◌, ◌^◌, ◌*ℤ◌, pos, IfOk};
ghost use Rattle.lucy_host.specs.Numbers.{wrapped};
ghost use Rattle.lucy_host.specs.HostValue.{host_value, shifted};

use crate::Table;
use std::alloc::{AllocError, Global};

/// The kinds of operators that a host can lend a program. Each has two numbers as operands, and gives one.
///
/// A kind is handed on by reference, since one may hold a table.
#[derive(Drop)]
pub enum HostKind {
    /// The smaller.
    Min,
    /// The greater.
    Max,
    /// How far the two are apart, at most the greatest number.
    AbsDiff,
    /// The sum, cut to the range of 64 bits.
    SatAdd,
    /// The difference, cut to the range of 64 bits.
    SatSub,
    /// The first shifted by as many bits as the second says: to the left and wrapped, or for a second below 0 to the
    /// right and rounded down. Past 63 bits it is 0, or to the right -1 where the first is below 0.
    Shift,
    /// The item of the table with the number of the first, counted from 0, or the second where there is none.
    Table(Table),
}

impl HostKind {
    /// The same kind once more.
    pub(crate) fn copy(&self, alloc: Global) -> Result<HostKind, AllocError>
        ensures { IfOk result (λ kind. kind ≡ self.now) }
    {
        Ok(match self {
            HostKind::Min => HostKind::Min,
            HostKind::Max => HostKind::Max,
            HostKind::AbsDiff => HostKind::AbsDiff,
            HostKind::SatAdd => HostKind::SatAdd,
            HostKind::SatSub => HostKind::SatSub,
            HostKind::Shift => HostKind::Shift,
            HostKind::Table(table) => HostKind::Table(table.copy(alloc)?),
        })
    }
}

// `a` by 2^n and wrapped.
fn times_power(a: i64, n: u32) -> i64
    requires { n < 64 }
    ensures { result ≡ wrapped (a *ℤ pos (2 ^ n)) }
{
    a.wrapping_mul(1i64.wrapping_shl(n))
}

// `a` by 2^b and wrapped, or for `b` below 0 divided by 2^-b and rounded down.
fn shifted(a: i64, b: i64) -> i64
    ensures { result ≡ shifted a b }
{
    if b > 63 {
        0
    } else if b >= 0 {
        times_power(a, b as u32)
    } else if b >= -63 {
        a.wrapping_shr(b.unsigned_abs() as u32)
    } else if a >= 0 {
        0
    } else {
        -1
    }
}

/// What an operator of the kind makes of its operands, as a host's closure answers it.
#[tactic(auto, unfolding(crate::specs::HostValue::host_value))]
pub fn host_value(kind: &HostKind, a: i64, b: i64) -> i64
    ensures { result ≡ host_value kind.now a b }
{
    match kind {
        HostKind::Min => a.min(b),
        HostKind::Max => a.max(b),
        HostKind::AbsDiff => i64::try_from(a.abs_diff(b)).unwrap_or(i64::MAX),
        HostKind::SatAdd => a.saturating_add(b),
        HostKind::SatSub => a.saturating_sub(b),
        HostKind::Shift => shifted(a, b),
        HostKind::Table(table) => table.look_up(a, b),
    }
}
