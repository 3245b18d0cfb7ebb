// The status and the line of a fault of a run's input.
ghost use Rattle.std.specs.Prelude.{◌≡◌, IfOk};
ghost use Rattle.lucy_app.specs.Endings as spec;

use crate::limit::limit_text;
use lucy_lines::TextFault;
use lucy_word::Limit;
use std::alloc::{AllocError, Global};

/// The status that a run ends with.
pub(crate) fn fault_status(fault: TextFault) -> u8
    ensures { result ≡ (spec.fault_told fault).0 }
{
    match fault {
        TextFault::BadLine(_) => 3,
        TextFault::UnknownStream(_) => 3,
        TextFault::BadValue(_) => 3,
        TextFault::ReadFault => 4,
        TextFault::TooLong => 6,
    }
}

/// The line on the fault sink.
pub(crate) fn fault_line(alloc: Global, fault: TextFault) -> Result<Vec<u8>, AllocError>
    ensures { IfOk result (λ v. v.items ≡ (spec.fault_told fault).1) }
{
    let line = match fault {
        TextFault::BadLine(number) => {
            format!(in alloc; "lucy: input line {number}: not a name and a value\n")
        }
        TextFault::UnknownStream(number) => {
            format!(in alloc; "lucy: input line {number}: unknown stream\n")
        }
        TextFault::BadValue(number) => format!(in alloc; "lucy: input line {number}: bad value\n"),
        TextFault::ReadFault => format!(in alloc; "lucy: read fault\n"),
        TextFault::TooLong => {
            return limit_text(alloc, Limit::Input);
        }
    };
    Ok(line?.into_bytes())
}
