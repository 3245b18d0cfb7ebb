// Lines of input, judged as they come, and lines of values.
ghost use Rattle.std.specs.Prelude.{◌≡◌, ◌<◌, ◌^◌, length, IfOk, ◌≤◌, ◌↔◌, ℕ, List, true, false, IsTrue, ◌+◌, ◌++◌, if◌then◌else◌};
ghost use Rattle.lucy_lines.specs.Reading.{new_reader, Took, Blames, KeepsGoing, most_taken, OfItem, IsDecided, IsLast};
ghost use Rattle.lucy_text.specs.Outside.{HasEnded, NoneFollows};
ghost use Rattle.lucy_lines.specs.Cuts.{bytes_taken};
ghost use Rattle.lucy_lines.specs.Nexts.{Answer, Next};
ghost use Rattle.lucy_lines.specs.Written.{line_of};
ghost use Rattle.lucy_lines.specs.CutLaws.{OneCut, JudgedFirst};

use lucy_host::DataType;
use lucy_lines::{InputReader, InputSpec, Line, TextFault, ValueLines};
use lucy_text::Source;
use std::alloc::{AllocError, Global};

/// Pins `lucy_lines::InputReader::new`.
pub fn reader(alloc: Global, inputs: Vec<InputSpec>) -> Result<InputReader, AllocError>
    requires { length inputs.items < 2 ^ 32 }
    ensures { IfOk result (λ r. r ≡ new_reader inputs.items) }
{
    InputReader::new(alloc, inputs)
}

/// Pins `lucy_lines::InputReader::next_line`.
pub fn next_line<I: Source>(reader: &mut InputReader, source: &mut I) -> Result<Line, TextFault>
    requires { reader.old.ended ≡ false }
    ensures answer { (taken : List ℕ) × Took reader.old reader.new (I.seen source.old) (I.seen source.new) result taken }
    ensures inputs { reader.new.inputs ≡ reader.old.inputs }
    ensures within { bytes_taken reader.new.held ≤ most_taken result }
    ensures stream { OfItem (λ stream. stream < length reader.old.inputs) result }
    ensures line { OfItem (λ _. reader.old.held.used < reader.new.held.used) result }
    ensures ended { IsTrue reader.new.ended ↔ IsLast result }
    ensures unread { IsTrue reader.old.closed → source.new ≡ source.old }
    ensures needed { (a : Answer) → Next reader.old.inputs reader.old.closed reader.old.held a → IsDecided a → source.new ≡ source.old }
    ensures at_end { reader.old.closed ≡ false → reader.new.closed ≡ true → HasEnded (I.seen source.new) }
    ensures goes_on { reader.new.closed ≡ false → KeepsGoing (I.seen source.old).since_stop (I.seen source.new).since_stop result }
    ensures none_follows { NoneFollows (I.seen source.old).since_stop (I.seen source.new).since_stop }
    ensures cause { Blames (I.seen source.old).faults (I.seen source.new).faults result }
    ensures count { (I.seen source.old).faults ≤ (I.seen source.new).faults }
{
    reader.next_line(source)
}

/// Pins `lucy_lines::value_line`.
pub fn value_line(
    alloc: Global,
    name: &[u8],
    holds: DataType,
    value: i64,
) -> Result<Vec<u8>, AllocError>
    ensures { IfOk result (λ line. line.items ≡ line_of name.now holds value) }
{
    lucy_lines::value_line(alloc, name, holds, value)
}

/// Pins `lucy_lines::ValueLines::push`.
pub fn push_line(lines: &mut ValueLines, name: &[u8], holds: DataType, value: i64) -> bool
    ensures fits { IsTrue result ↔ (length lines.old.bytes + length (line_of name.now holds value) ≤ lines.old.room) }
    ensures lines { lines.new ≡ record lines.old { bytes = if result then lines.old.bytes ++ line_of name.now holds value else lines.old.bytes } }
{
    lines.push(name, holds, value)
}

/// Pins `lucy_lines::one_cut`.
pub fn one_cut()
    ensures { OneCut }
{
    lucy_lines::one_cut();
}

/// Pins `lucy_lines::judged_first`.
pub fn judged_first()
    ensures { JudgedFirst }
{
    lucy_lines::judged_first();
}
