// The generated program.
ghost use Rattle.std.specs.Prelude.{◌≡◌, ◌≤◌, ◌-◌, ◌%◌, ◌==◌, ◌++◌, IfOk, OnOk, codes, string_bytes, if◌then◌else◌};
ghost use Rattle.std.specs.Fmt.{decimal};
ghost use Rattle.lucy_make.specs.Text as spec;

use std::alloc::{AllocError, Global};

// The stream on which a stage stands.
fn source_of(alloc: Global, stage: u64) -> Result<String, AllocError>
    requires { 1 ≤ stage }
    ensures { IfOk result (λ s. string_bytes s ≡ (if stage == 1 then codes "x" else codes "y" ++ decimal (stage - 1))) }
{
    if stage == 1 {
        return Ok(format!(in alloc; "x")?);
    }
    Ok(format!(in alloc; "y{}", stage - 1)?)
}

// The form of a stage on such a stream.
fn form(alloc: Global, stage: u64, x: &str) -> Result<String, AllocError>
    requires { stage ≤ 256 }
    ensures { IfOk result (λ s. string_bytes s ≡ spec.form (stage % 4) stage x.now) }
{
    let remainder = stage % 4;
    if remainder == 1 {
        return Ok(format!(in alloc; "{x} + {stage}")?);
    }
    if remainder == 2 {
        return Ok(format!(in alloc; "{x} + (0 fby {x})")?);
    }
    if remainder == 3 {
        return Ok(format!(in alloc;
            "merge (01) (buffer ({x} when (10))) (buffer ({x} when (01)))"
        )?);
    }
    let least = 100 * stage;
    Ok(format!(in alloc; "if {x} < {least} then {x} else {x} - {stage}")?)
}

// The line of a stage.
fn stage_line(alloc: Global, stage: u64) -> Result<String, AllocError>
    requires { (1 ≤ stage) × (stage ≤ 256) }
    ensures { IfOk result (λ s. string_bytes s ≡ spec.stage_line stage) }
{
    let x = source_of(alloc, stage)?;
    let form = form(alloc, stage, &x)?;
    let lead = if stage == 1 { "  " } else { "  and " };
    Ok(format!(in alloc; "{lead}y{stage} = {form}\n")?)
}

// Adds the line of a stage.
fn add_line(alloc: Global, stage: u64, text: &mut Vec<u8>) -> Result<(), AllocError>
    requires { (1 ≤ stage) × (stage ≤ 256) }
    ensures { OnOk result (text.new.items ≡ text.old.items ++ spec.stage_line stage) }
{
    let line = stage_line(alloc, stage)?;
    text.extend_from_slice(line.as_bytes())?;
    Ok(())
}

/// The program of so many stages, from 1 to 256: one node with a stream for each stage, of which the last is its result.
pub fn made_text(alloc: Global, stages: u64) -> Result<Vec<u8>, AllocError>
    requires { (1 ≤ stages) × (stages ≤ 256) }
    ensures { IfOk result (λ v. v.items ≡ spec.made_text stages) }
{
    let mut text = format!(in alloc; "let node made x = y{stages} where rec\n")?.into_bytes();
    'each: for before in 0..stages {
        add_line(alloc, before + 1, &mut text)?;
    }
    Ok(text)
}
