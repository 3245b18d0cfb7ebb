// The names of variables.
ghost use Rattle.std.specs.Prelude.{◌≡◌, ◌++◌, OnOk};
ghost use Rattle.lucy_wave.specs.Seen.{seen};

use crate::variable::Variable;
use std::alloc::{AllocError, Global};

/// Puts bytes last.
pub(crate) fn put_bytes(bytes: &[u8], out: &mut Vec<u8>) -> Result<(), AllocError>
    ensures { OnOk result (out.new.items ≡ out.old.items ++ bytes.now) }
{
    out.extend_from_slice(bytes)?;
    Ok(())
}

/// Puts the name of a variable last.
pub(crate) fn put_name(
    alloc: Global,
    variable: &Variable<'_>,
    out: &mut Vec<u8>,
) -> Result<(), AllocError>
    ensures { OnOk result (out.new.items ≡ out.old.items ++ (seen variable.now).name) }
{
    match variable {
        Variable::There(name, _) => {
            put_bytes(name, out)?;
            put_bytes(b"$there", out)
        }
        Variable::Last(name, _, _) => put_bytes(name, out),
        Variable::Waiting(number, _, _) => {
            put_bytes(format!(in alloc; "buffer${number}")?.as_bytes(), out)
        }
    }
}
