// The text of a program with its clocks written out.
ghost use Rattle.std.specs.Prelude.{◌≡◌, IfOk, IfErr, IsTrue};
ghost use Rattle.lucy_program.specs.Accepting.{IsAccepted};
ghost use Rattle.lucy_program.specs.Inferring.{AreOptions};
ghost use Rattle.lucy_front.specs.Refusals.{IsTellable};
ghost use Rattle.lucy_freeze.specs.Frozen.{AreFrozen};
ghost use Rattle.lucy_freeze.specs.Freezing.{all_written, IsFrozen, IsUnfrozen};
ghost use Rattle.lucy_freeze.specs.Compared.{IsNotFrozen};

use crate::error::FreezeError;
use crate::program::is_frozen;
use crate::text::{Unwritten, frozen_text};
use lucy_front::{Refusal, accept};
use lucy_host::Ops;
use lucy_program::{Accepted, Options};
use lucy_word::Limit;
use std::alloc::{AllocError, Global};

/// A program with its clocks written out: its text, and what that is accepted as.
#[derive(Drop)]
pub struct Frozen {
    pub text: Vec<u8>,
    pub program: Accepted,
}

// The options by which each node has to be written.
fn all_written(options: &Options) -> Options
    ensures { result ≡ all_written options.now }
{
    Options {
        scale: options.scale,
        lead: options.lead,
        written_only: true,
    }
}

// What a text is accepted as with all clocks written.
fn checked(alloc: Global, text: &[u8], ops: &Ops, options: &Options) -> Result<Accepted, Refusal>
    requires { AreOptions options.now }
    ensures ok { IfOk result (IsAccepted ops.now (all_written options.now) text.now) }
    ensures tellable { IfErr result IsTellable }
{
    accept(alloc, text, ops, &all_written(options))
}

// Whether a program is another one with its clocks written out.
fn is_same(alloc: Global, program: &Accepted, frozen: &Accepted) -> Result<bool, AllocError>
    ensures { IfOk result (λ same. IsTrue same → AreFrozen program.now.placed.nodes program.now.clocks.items frozen.now.placed.nodes frozen.now.clocks.items) }
{
    is_frozen(
        alloc,
        &program.placed,
        &program.clocks,
        &frozen.placed,
        &frozen.clocks,
    )
}

// Finds a program to be another one with its clocks written out.
fn tested(alloc: Global, program: &Accepted, frozen: &Accepted) -> Result<(), FreezeError>
    ensures ok { IfOk result (λ u. AreFrozen program.now.placed.nodes program.now.clocks.items frozen.now.placed.nodes frozen.now.clocks.items) }
    ensures refused { IfErr result (IsNotFrozen program.now) }
{
    if is_same(alloc, program, frozen)? {
        Ok(())
    } else {
        Err(FreezeError::Differs)
    }
}

// A text with clocks written out, where it is found to be that of the same program.
fn confirmed(alloc: Global, program: &Accepted, frozen: Frozen) -> Result<Frozen, FreezeError>
    ensures ok { IfOk result (λ f. (f ≡ frozen) × AreFrozen program.now.placed.nodes program.now.clocks.items frozen.program.placed.nodes frozen.program.clocks.items) }
    ensures refused { IfErr result (IsNotFrozen program.now) }
{
    match tested(alloc, program, &frozen.program) {
        Ok(()) => Ok(frozen),
        Err(fault) => Err(fault),
    }
}

// A text with clocks written out, accepted again and compared.
fn compared(
    alloc: Global,
    text: &[u8],
    ops: &Ops,
    options: &Options,
    program: &Accepted,
    written: Vec<u8>,
) -> Result<Frozen, FreezeError>
    requires options { AreOptions options.now }
    requires accepted { IsAccepted ops.now options.now text.now program.now }
    ensures ok { IfOk result (λ f. IsFrozen ops.now options.now text.now f.text.items f.program) }
    ensures refused { IfErr result (IsUnfrozen ops.now options.now text.now) }
{
    match checked(alloc, &written, ops, options) {
        Ok(again) => {
            let frozen = Frozen {
                text: written,
                program: again,
            };
            confirmed(alloc, program, frozen)
        }
        Err(Refusal::OutOfMemory) => Err(FreezeError::OutOfMemory),
        Err(refusal) => Err(FreezeError::Text(refusal)),
    }
}

// A text with the clocks of its program written out.
fn written_out(
    alloc: Global,
    text: &[u8],
    ops: &Ops,
    options: &Options,
    program: &Accepted,
) -> Result<Frozen, FreezeError>
    requires options { AreOptions options.now }
    requires accepted { IsAccepted ops.now options.now text.now program.now }
    ensures ok { IfOk result (λ f. IsFrozen ops.now options.now text.now f.text.items f.program) }
    ensures refused { IfErr result (IsUnfrozen ops.now options.now text.now) }
{
    match frozen_text(alloc, text, program) {
        Ok(written) => compared(alloc, text, ops, options, program, written),
        Err(Unwritten::Word) => Err(FreezeError::Text(Refusal::Limit(Limit::Written))),
        Err(Unwritten::OutOfMemory) => Err(FreezeError::OutOfMemory),
    }
}

/// The text with every clock that was found written out, where the host has these operators and clocks are found with these options: with
/// the word of each parameter, of each defined name and of the base of each call, and a name for each operand that has to have one. It
/// is accepted again with all clocks written, as the same program: each of its nodes has the places and the calls of the node of the text,
/// with the same words, sizes and bounds. Comments and layout stay, but within definitions whose operands got names.
///
/// `Program` says that the text itself is refused; `Text` that the frozen text is, for a limit as a rule; `Differs` that it wasn't found to be
/// the same program, which no text is known for.
pub fn freeze(
    alloc: Global,
    text: &[u8],
    ops: &Ops,
    options: &Options,
) -> Result<Frozen, FreezeError>
    requires { AreOptions options.now }
    ensures ok { IfOk result (λ f. IsFrozen ops.now options.now text.now f.text.items f.program) }
    ensures refused { IfErr result (IsUnfrozen ops.now options.now text.now) }
{
    match accept(alloc, text, ops, options) {
        Ok(program) => written_out(alloc, text, ops, options, &program),
        Err(Refusal::OutOfMemory) => Err(FreezeError::OutOfMemory),
        Err(refusal) => Err(FreezeError::Program(refusal)),
    }
}
