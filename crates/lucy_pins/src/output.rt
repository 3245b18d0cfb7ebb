// The output lines of a run, at once or block by block.
ghost use Rattle.std.specs.Prelude.{◌≡◌, ◌≤◌, [], length, OnOk, Err, OnErr, IfOk, false};
ghost use Rattle.lucy_lines.specs.Outputs.{output_text, lines_after};
ghost use Rattle.lucy_text.specs.Outside.{Writes, Fails};
ghost use Rattle.lucy_lines.specs.Writing.{new_writer};
ghost use Rattle.lucy_lines.specs.OutputLaws.{BlockByBlock};

use lucy_host::Inputs;
use lucy_lines::{OutputError, OutputSpec, OutputWriter};
use lucy_text::{Failed, Sink};
use std::alloc::Global;

/// Pins `lucy_lines::write_outputs`.
pub fn write_outputs<K: Sink>(
    alloc: Global,
    outputs: &[OutputSpec],
    lists: &Inputs,
    instants: u64,
    sink: &mut K,
) -> Result<(), OutputError>
    requires { length outputs.now ≤ length lists.now }
    ensures ok { OnOk result (Writes (K.seen sink.old) (K.seen sink.new) (output_text outputs.now lists.now instants)) }
    ensures failed { result ≡ Err OutputError.Failed → Fails
        (K.seen sink.old) (K.seen sink.new) (output_text outputs.now lists.now instants) }
    ensures out_of_memory { result ≡ Err OutputError.OutOfMemory → sink.new ≡ sink.old }
    ensures count { (K.seen sink.old).faults ≤ (K.seen sink.new).faults }
    ensures untouched { output_text outputs.now lists.now instants ≡ [] → sink.new ≡ sink.old }
{
    lucy_lines::write_outputs(alloc, outputs, lists, instants, sink)
}

/// Pins `lucy_lines::OutputWriter::new`.
pub fn writer<'a>(alloc: Global, outputs: &'a [OutputSpec]) -> Result<OutputWriter<'a>, OutputError>
    ensures new { IfOk result (λ writer. writer ≡ new_writer outputs.now) }
    ensures refused { OnErr result (result ≡ Err OutputError.OutOfMemory) }
{
    OutputWriter::new(alloc, outputs)
}

/// Pins `lucy_lines::OutputWriter::write`.
pub fn write_block<'a, K: Sink>(
    writer: &mut OutputWriter<'a>,
    lists: &Inputs,
    instants: u64,
    sink: &mut K,
) -> Result<(), Failed>
    requires whole { writer.old.broken ≡ false }
    requires lists { length writer.old.outputs ≤ length lists.now }
    requires later { writer.old.instants ≤ instants }
    ensures ok { OnOk result (Writes
        (K.seen sink.old) (K.seen sink.new) (lines_after writer.old.outputs lists.now writer.old.instants instants)) }
    ensures failed { OnErr result (Fails
        (K.seen sink.old) (K.seen sink.new) (lines_after writer.old.outputs lists.now writer.old.instants instants)) }
    ensures state { OnOk result (writer.new ≡ record writer.old { instants = instants }) }
    ensures outputs { writer.new.outputs ≡ writer.old.outputs }
    ensures count { (K.seen sink.old).faults ≤ (K.seen sink.new).faults }
    ensures untouched { lines_after writer.old.outputs lists.now writer.old.instants instants ≡ [] → sink.new ≡ sink.old }
{
    writer.write(lists, instants, sink)
}

/// Pins `lucy_lines::block_by_block`.
pub fn block_by_block()
    ensures { BlockByBlock }
{
    lucy_lines::block_by_block();
}
