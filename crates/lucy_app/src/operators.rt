// The operators that the program lends.
ghost use Rattle.std.specs.Prelude.{◌≡◌, IfOk};
ghost use Rattle.lucy_app.specs.Operators.{program_operators};

use lucy_host::{HostKind, Ops, OpsError};
use std::alloc::Global;

/// The operators of the program's host: `min`, `max`, `absdiff`, `satadd`, `satsub` and `shift`, numbered in this order. Where
/// there are none, memory ran out.
pub fn program_operators(alloc: Global) -> Result<Ops, OpsError>
    ensures { IfOk result (λ ops. ops ≡ program_operators) }
{
    let mut ops = Ops::new(alloc);
    ops.add(alloc, "min", HostKind::Min)?;
    ops.add(alloc, "max", HostKind::Max)?;
    ops.add(alloc, "absdiff", HostKind::AbsDiff)?;
    ops.add(alloc, "satadd", HostKind::SatAdd)?;
    ops.add(alloc, "satsub", HostKind::SatSub)?;
    ops.add(alloc, "shift", HostKind::Shift)?;
    Ok(ops)
}
