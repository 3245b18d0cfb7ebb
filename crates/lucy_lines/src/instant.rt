// The lines of one instant.
ghost use Rattle.std.specs.Prelude.{◌≡◌, ◌+◌, ◌≤◌, ◌<◌, ◌^◌, ◌++◌, [], length, OnOk, OnErr};
ghost use Rattle.lucy_lines.specs.Written.{line_of};
ghost use Rattle.lucy_lines.specs.Outputs.{line_with_value};
ghost use Rattle.lucy_text.specs.Outside.{Fails};
ghost use Rattle.lucy_lines.specs.Walks.{next_value, next_lines, IsStepped, AreStepped, FitsRoom, FitRoom, Gathers};

use crate::walk::OutputWalk;
use crate::written::ValueLines;
use lucy_host::{DataType, Inputs};
use lucy_text::{Failed, Sink, write_all};

// Puts a line behind the others, which are written first where there is no room for it.
fn put_line<K: Sink>(
    lines: &mut ValueLines,
    sink: &mut K,
    name: &[u8],
    holds: DataType,
    value: i64,
) -> Result<(), Failed>
    requires { length name.now + 22 ≤ lines.old.room }
    ensures ok { OnOk result (Gathers sink.old sink.new
        (K.seen sink.old) (K.seen sink.new) lines.new (lines.old.bytes ++ line_of name.now holds value)) }
    ensures failed { OnErr result (Fails (K.seen sink.old) (K.seen sink.new) (lines.old.bytes ++ line_of name.now holds value)) }
    ensures room { lines.new.room ≡ lines.old.room }
    ensures count { (K.seen sink.old).faults ≤ (K.seen sink.new).faults }
    ensures untouched { lines.old.bytes ≡ [] → sink.new ≡ sink.old }
{
    if !lines.push(name, holds, value) {
        write_all(sink, lines.bytes())?;
        lines.clear();
        lines.push(name, holds, value);
    }
    Ok(())
}

// Puts the line of an output's value at the next instant behind the others, where it has one.
fn put_next<K: Sink>(
    walk: &mut OutputWalk<'_>,
    items: &[i64],
    lines: &mut ValueLines,
    sink: &mut K,
) -> Result<(), Failed>
    requires { FitsRoom walk.old.output lines.old.room }
    ensures ok { OnOk result (Gathers sink.old sink.new
        (K.seen sink.old) (K.seen sink.new) lines.new (lines.old.bytes ++ line_with_value walk.old.output (next_value walk.old items.now))) }
    ensures step { IsStepped items.now walk.old walk.new }
    ensures failed { OnErr result (Fails
        (K.seen sink.old) (K.seen sink.new) (lines.old.bytes ++ line_with_value walk.old.output (next_value walk.old items.now))) }
    ensures room { lines.new.room ≡ lines.old.room }
    ensures count { (K.seen sink.old).faults ≤ (K.seen sink.new).faults }
    ensures untouched { lines.old.bytes ≡ [] → sink.new ≡ sink.old }
{
    match walk.step(items) {
        Some(value) => put_line(lines, sink, walk.name(), walk.holds(), value),
        None => Ok(()),
    }
}

// Puts the lines of the next instant behind the others. List number i has the values of the output that is walked along at place i.
pub(crate) fn put_instant<K: Sink>(
    walks: &mut [OutputWalk<'_>],
    lists: &Inputs,
    lines: &mut ValueLines,
    sink: &mut K,
) -> Result<(), Failed>
    requires fit { FitRoom walks.old lines.old.room }
    requires few { length walks.old < 2 ^ 32 }
    requires lists { length walks.old ≤ length lists.now }
    ensures ok { OnOk result (Gathers sink.old sink.new
        (K.seen sink.old) (K.seen sink.new) lines.new (lines.old.bytes ++ next_lines walks.old lists.now)) }
    ensures steps { OnOk result (AreStepped lists.now walks.old walks.new) }
    ensures failed { OnErr result (Fails (K.seen sink.old) (K.seen sink.new) (lines.old.bytes ++ next_lines walks.old lists.now)) }
    ensures room { lines.new.room ≡ lines.old.room }
    ensures count { (K.seen sink.old).faults ≤ (K.seen sink.new).faults }
    ensures untouched { lines.old.bytes ++ next_lines walks.old lists.now ≡ [] → sink.new ≡ sink.old }
{
    for i in 0..walks.len() {
        put_next(&mut walks[i], lists.list(i as u32), lines, sink)?;
    }
    Ok(())
}
