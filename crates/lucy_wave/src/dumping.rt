// The text of a dump.
ghost use Rattle.std.specs.Prelude.{◌≡◌, ◌≤◌, ◌<◌, ◌-◌, ◌^◌, ◌++◌, ◌∷◌, [], suc, OnOk, codes};
ghost use Rattle.lucy_wave.specs.Dumps as spec;
ghost use Rattle.lucy_wave.specs.Dumps.{code_of, kind_of, text_of, dump};
ghost use Rattle.lucy_wave.specs.Waves.{notes};
ghost use Rattle.lucy_wave.specs.Seen.{seen, all_seen};

use crate::naming::{put_bytes, put_name};
use crate::variable::Variable;
use lucy_host::Inputs;
use std::alloc::{AllocError, Global};

// The kind of a variable and its number of bits.
fn put_kind(is_wide: bool, out: &mut Vec<u8>) -> Result<(), AllocError>
    ensures { OnOk result (out.new.items ≡ out.old.items ++ kind_of is_wide) }
{
    if is_wide {
        put_bytes(b"integer 64 ", out)
    } else {
        put_bytes(b"wire 1 ", out)
    }
}

// The code of a variable, by its number from 0, and a blank.
fn put_code(alloc: Global, number: usize, out: &mut Vec<u8>) -> Result<(), AllocError>
    ensures { OnOk result (out.new.items ≡ out.old.items ++ (code_of number ++ codes " ")) }
{
    put_bytes(format!(in alloc; "v{number} ")?.as_bytes(), out)
}

// The line that declares a variable.
fn put_declaration(
    alloc: Global,
    variable: &Variable<'_>,
    number: usize,
    out: &mut Vec<u8>,
) -> Result<(), AllocError>
    ensures { OnOk result (out.new.items ≡ out.old.items ++ text_of (spec.declaration (seen variable.now).is_wide (code_of number) (seen variable.now).name ∷ [])) }
{
    put_bytes(b"$var ", out)?;
    put_kind(variable.is_wide(), out)?;
    put_code(alloc, number, out)?;
    put_name(alloc, variable, out)?;
    put_bytes(b" $end\n", out)
}

// Those of all variables.
fn put_declarations(
    alloc: Global,
    variables: &[Variable<'_>],
    out: &mut Vec<u8>,
) -> Result<(), AllocError>
    ensures { OnOk result (out.new.items ≡ out.old.items ++ text_of (spec.declarations 0 (all_seen variables.now))) }
{
    'each: for (i, variable) in variables.iter().enumerate() {
        put_declaration(alloc, variable, i, out)?;
    }
    Ok(())
}

// The lines above the steps.
fn put_header(
    alloc: Global,
    scope: &[u8],
    variables: &[Variable<'_>],
    out: &mut Vec<u8>,
) -> Result<(), AllocError>
    ensures { OnOk result (out.new.items ≡ out.old.items ++ text_of (spec.header scope.now (all_seen variables.now))) }
{
    put_bytes(b"$timescale 1 ns $end\n$scope module ", out)?;
    put_bytes(scope, out)?;
    put_bytes(b" $end\n", out)?;
    put_declarations(alloc, variables, out)?;
    put_bytes(b"$upscope $end\n$enddefinitions $end\n", out)
}

// The line with which a step begins.
fn put_time(alloc: Global, step: u64, out: &mut Vec<u8>) -> Result<(), AllocError>
    ensures { OnOk result (out.new.items ≡ out.old.items ++ text_of (spec.time_line step ∷ [])) }
{
    put_bytes(format!(in alloc; "#{step}\n")?.as_bytes(), out)
}

// The line that gives the variable of a number a value.
fn put_value(
    alloc: Global,
    is_wide: bool,
    number: usize,
    value: u64,
    out: &mut Vec<u8>,
) -> Result<(), AllocError>
    ensures { OnOk result (out.new.items ≡ out.old.items ++ text_of (spec.change_line is_wide (code_of number) value ∷ [])) }
{
    if is_wide {
        put_bytes(format!(in alloc; "b{value:b} v{number}\n")?.as_bytes(), out)
    } else if value == 0 {
        put_bytes(format!(in alloc; "0v{number}\n")?.as_bytes(), out)
    } else {
        put_bytes(format!(in alloc; "1v{number}\n")?.as_bytes(), out)
    }
}

// The line of a variable at a step, where its value changed.
fn put_change(
    alloc: Global,
    variable: &Variable<'_>,
    number: usize,
    step: u64,
    out: &mut Vec<u8>,
) -> Result<(), AllocError>
    requires { 1 ≤ step }
    ensures { OnOk result (out.new.items ≡ out.old.items ++ text_of (spec.change number (seen variable.now) step)) }
{
    if variable.is_changed(step) {
        put_value(alloc, variable.is_wide(), number, variable.value(step), out)
    } else {
        Ok(())
    }
}

// Those of all variables.
fn put_changes(
    alloc: Global,
    variables: &[Variable<'_>],
    step: u64,
    out: &mut Vec<u8>,
) -> Result<(), AllocError>
    requires { 1 ≤ step }
    ensures { OnOk result (out.new.items ≡ out.old.items ++ text_of (spec.changes 0 (all_seen variables.now) step)) }
{
    'each: for (i, variable) in variables.iter().enumerate() {
        put_change(alloc, variable, i, step, out)?;
    }
    Ok(())
}

// The lines of so many steps.
fn put_steps(
    alloc: Global,
    variables: &[Variable<'_>],
    count: u64,
    out: &mut Vec<u8>,
) -> Result<(), AllocError>
    ensures { OnOk result (out.new.items ≡ out.old.items ++ text_of (spec.steps (all_seen variables.now) count)) }
{
    'each: for before in 0..count {
        put_time(alloc, before + 1, out)?;
        put_changes(alloc, variables, before + 1, out)?;
    }
    Ok(())
}

/// Puts the dump of variables in a scope last, of so many steps.
pub(crate) fn put_dump(
    alloc: Global,
    scope: &[u8],
    variables: &[Variable<'_>],
    count: u64,
    out: &mut Vec<u8>,
) -> Result<(), AllocError>
    requires { count < 2 ^ 64 - 1 }
    ensures { OnOk result (out.new.items ≡ out.old.items ++ text_of (dump scope.now (all_seen variables.now) count)) }
{
    put_header(alloc, scope, variables, out)?;
    put_steps(alloc, variables, count, out)?;
    put_time(alloc, count + 1, out)
}

/// Puts the line last that says that the items of inner streams are left out, unless they are known.
pub(crate) fn put_notes(inside: &Option<Inputs>, out: &mut Vec<u8>) -> Result<(), AllocError>
    ensures { OnOk result (out.new.items ≡ out.old.items ++ text_of (notes inside.now)) }
{
    match inside {
        Some(_) => Ok(()),
        None => put_bytes(
            b"$comment A limit keeps the items of the inner streams out. $end\n",
            out,
        ),
    }
}
