// The writing of output lines block by block.
ghost use Rattle.std.specs.Prelude.{◌≡◌, ◌≤◌, [], ℕ, length, OnOk, OnErr, IfOk, Err, Some, slice_get, false};
ghost use Rattle.lucy_lines.specs.declared.output.OutputSpec.{OutputSpec as Output};
ghost use Rattle.lucy_lines.specs.Outputs.{lines_after};
ghost use Rattle.lucy_text.specs.Outside.{Writes, Fails};
ghost use Rattle.lucy_lines.specs.Writing.{new_writer};
ghost use Rattle.lucy_lines.specs.Walks.{AreAt, FitsRoom};

use crate::block::put_block;
use crate::walk::OutputWalk;
use crate::written::ValueLines;
use crate::{OutputError, OutputSpec};
use lucy_host::Inputs;
use lucy_text::{Failed, Sink};
use std::alloc::Global;
use std::marker::Model;

// For how many bytes there is room in a piece at least.
const PIECE: usize = 16384;

// Room for a piece, and for each line in it: a value has at most 20 bytes in print.
fn room_for(outputs: &[OutputSpec]) -> usize
    ensures { (k : ℕ) (o : Output) → slice_get outputs.now k ≡ Some o → FitsRoom o result }
{
    let mut room = PIECE;
    for output in outputs {
        room = room.max(output.name.bytes().len() + 22);
    }
    room
}

// The outputs before the first instant.
fn walks_of<'a>(
    alloc: Global,
    outputs: &'a [OutputSpec],
) -> Result<Vec<OutputWalk<'a>>, OutputError>
    ensures at { IfOk result (λ walks. AreAt 0 outputs.now walks.items) }
    ensures refused { OnErr result (result ≡ Err OutputError.OutOfMemory) }
{
    let mut walks = Vec::with_capacity(alloc, outputs.len())?;
    for output in outputs {
        walks.push(OutputWalk::new(output))?;
    }
    Ok(walks)
}

/// Writes output lines block by block, from the first instant on. The words of the outputs are walked along once, whatever the
/// number of blocks. All its memory is taken when it is made.
#[derive(Drop)]
pub struct OutputWriter<'a> {
    outputs: &'a [OutputSpec],
    walks: Vec<OutputWalk<'a>>,
    lines: ValueLines,
    // how many instants were written
    instants: u64,
    // whether a block was begun and not ended
    broken: bool,
}

impl<'a> Model for OutputWriter<'a> {
    ghost use Rattle.std.specs.Prelude.{◌≡◌, ◌<◌, ◌^◌, length, false};
    ghost use Rattle.lucy_lines.specs.Writing.{WriterState};
    ghost use Rattle.lucy_lines.specs.Walks.{IsBetweenBlocks};

    ghost Value = { WriterState };

    ghost view = { λ w. record { outputs = w.outputs.now; instants = w.instants; broken = w.broken } };

    ghost invariant = { λ w. (length w.outputs.now < 2 ^ 32) × (w.broken ≡ false → IsBetweenBlocks w.instants w.outputs.now w.walks.items w.lines) };
}

impl<'a> OutputWriter<'a> {
    /// A writer of the lines of these outputs, before the first instant.
    pub fn new(alloc: Global, outputs: &'a [OutputSpec]) -> Result<OutputWriter<'a>, OutputError>
        ensures new { IfOk result (λ writer. writer ≡ new_writer outputs.now) }
        ensures refused { OnErr result (result ≡ Err OutputError.OutOfMemory) }
    {
        // There are fewer lists of values than 2^32.
        if outputs.len() > u32::MAX as usize {
            return Err(OutputError::OutOfMemory);
        }
        let walks = walks_of(alloc, outputs)?;
        let lines = ValueLines::new(alloc, room_for(outputs))?;
        Ok(OutputWriter {
            outputs,
            walks,
            lines,
            instants: 0,
            broken: false,
        })
    }

    /// Writes the lines of the instants after those that were written, up to `instants`. List number i has the values of output
    /// number i from the first one after the instants that were written on.
    ///
    /// Bytes are written in pieces of about 16 KiB, and all of them are written where it answers Ok. No write follows a failed one:
    /// the writer is of no use then.
    pub fn write<K: Sink>(
        &mut self,
        lists: &Inputs,
        instants: u64,
        sink: &mut K,
    ) -> Result<(), Failed>
        requires whole { self.old.broken ≡ false }
        requires lists { length self.old.outputs ≤ length lists.now }
        requires later { self.old.instants ≤ instants }
        ensures ok { OnOk result (Writes
            (K.seen sink.old) (K.seen sink.new) (lines_after self.old.outputs lists.now self.old.instants instants)) }
        ensures failed { OnErr result (Fails
            (K.seen sink.old) (K.seen sink.new) (lines_after self.old.outputs lists.now self.old.instants instants)) }
        ensures state { OnOk result (self.new ≡ record self.old { instants = instants }) }
        ensures outputs { self.new.outputs ≡ self.old.outputs }
        ensures count { (K.seen sink.old).faults ≤ (K.seen sink.new).faults }
        ensures untouched { lines_after self.old.outputs lists.now self.old.instants instants ≡ [] → sink.new ≡ sink.old }
    {
        self.broken = true;
        let more = instants - self.instants;
        put_block(&mut self.walks, lists, &mut self.lines, more, sink)?;
        self.instants = instants;
        self.broken = false;
        Ok(())
    }
}
