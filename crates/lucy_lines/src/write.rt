ghost use Rattle.std.specs.Prelude.{◌≡◌, ◌≤◌, [], length, OnOk, Err};
ghost use Rattle.lucy_lines.specs.Outputs.{output_text};
ghost use Rattle.lucy_text.specs.Outside.{Writes, Fails};

use crate::{OutputError, OutputSpec, OutputWriter};
use lucy_host::Inputs;
use lucy_text::Sink;
use std::alloc::Global;

/// Writes the lines of the outputs at instants 1 to `instants`, of which list number i has the values of output number i. A
/// result has a line where its word has a one and its list the item.
///
/// All memory is taken before the first write. Bytes are written in pieces of about 16 KiB, and no write follows a failed one.
pub fn write_outputs<K: Sink>(
    alloc: Global,
    outputs: &[OutputSpec],
    lists: &Inputs,
    instants: u64,
    sink: &mut K,
) -> Result<(), OutputError>
    requires { length outputs.now ≤ length lists.now }
    ensures ok { OnOk result (Writes (K.seen sink.old) (K.seen sink.new) (output_text outputs.now lists.now instants)) }
    ensures failed { result ≡ Err OutputError.Failed → Fails
        (K.seen sink.old) (K.seen sink.new) (output_text outputs.now lists.now instants) }
    ensures out_of_memory { result ≡ Err OutputError.OutOfMemory → sink.new ≡ sink.old }
    ensures count { (K.seen sink.old).faults ≤ (K.seen sink.new).faults }
    ensures untouched { output_text outputs.now lists.now instants ≡ [] → sink.new ≡ sink.old }
{
    let mut writer = OutputWriter::new(alloc, outputs)?;
    writer.write(lists, instants, sink)?;
    Ok(())
}
