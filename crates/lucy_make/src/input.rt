// The generated input.
ghost use Rattle.std.specs.Prelude.{◌≡◌, ◌++◌, IfOk, OnOk, codes};
ghost use Rattle.std.specs.Fmt.{decimal};
ghost use Rattle.lucy_make.specs.Text as spec;

use lucy_text::SteadySource;
use std::alloc::{AllocError, Global};

// How many items the input has.
const ITEMS: u64 = 1000;

// Adds the line of an item.
fn add_line(alloc: Global, number: u64, text: &mut Vec<u8>) -> Result<(), AllocError>
    ensures { OnOk result (text.new.items ≡ text.old.items ++ (codes "x " ++ (decimal number ++ codes "\n"))) }
{
    let line = format!(in alloc; "x {number}\n")?;
    text.extend_from_slice(line.as_bytes())?;
    Ok(())
}

// The lines of the items 1 to 1000.
fn made_input(alloc: Global) -> Result<Vec<u8>, AllocError>
    ensures { IfOk result (λ v. v.items ≡ spec.made_input) }
{
    let mut text = Vec::new(alloc);
    'each: for before in 0..ITEMS {
        add_line(alloc, before + 1, &mut text)?;
    }
    Ok(text)
}

/// A source of the generated input, which never fails.
pub(crate) fn made_source(alloc: Global) -> Result<SteadySource, AllocError>
    ensures { IfOk result (λ source. source ≡ spec.made_input) }
{
    Ok(SteadySource::new(made_input(alloc)?))
}
