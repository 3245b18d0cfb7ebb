// The lines of a block of instants.
ghost use Rattle.std.specs.Prelude.{◌≡◌, ◌+◌, ◌≤◌, ◌<◌, ◌^◌, ℕ, List, [], length, OnOk, OnErr, Some, slice_get};
ghost use Rattle.lucy_lines.specs.declared.output.OutputSpec.{OutputSpec as Output};
ghost use Rattle.lucy_lines.specs.Outputs.{more_lines};
ghost use Rattle.lucy_text.specs.Outside.{Writes, Fails};
ghost use Rattle.lucy_lines.specs.Walks.{WalkState, AreAt, FitRoom};

use crate::instant::put_instant;
use crate::walk::OutputWalk;
use crate::written::ValueLines;
use lucy_host::Inputs;
use lucy_text::{Failed, Sink, write_all};

// From the front of the next lists on.
fn begin_lists(walks: &mut [OutputWalk<'_>])
    ensures { (k : ℕ) (w : WalkState) → slice_get walks.old k ≡ Some w → slice_get walks.new k ≡ Some (record w { place = 0 }) }
{
    for walk in walks.iter_mut() {
        walk.begin_list();
    }
}

// Writes the lines of so many instants more, by lists that begin there.
pub(crate) fn put_block<K: Sink>(
    walks: &mut [OutputWalk<'_>],
    lists: &Inputs,
    lines: &mut ValueLines,
    more: u64,
    sink: &mut K,
) -> Result<(), Failed>
    requires fit { FitRoom walks.old lines.old.room }
    requires few { length walks.old < 2 ^ 32 }
    requires lists { length walks.old ≤ length lists.now }
    requires none { lines.old.bytes ≡ [] }
    ensures ok { OnOk result ((before : ℕ) (outputs : List Output) → AreAt before outputs walks.old → Writes
        (K.seen sink.old) (K.seen sink.new) (more_lines outputs lists.now before more)) }
    ensures at { OnOk result ((before : ℕ) (outputs : List Output) → AreAt before outputs walks.old → AreAt (before + more) outputs walks.new) }
    ensures fit { OnOk result (FitRoom walks.new lines.new.room) }
    ensures none { OnOk result (lines.new.bytes ≡ []) }
    ensures failed { OnErr result ((before : ℕ) (outputs : List Output) → AreAt before outputs walks.old → Fails
        (K.seen sink.old) (K.seen sink.new) (more_lines outputs lists.now before more)) }
    ensures count { (K.seen sink.old).faults ≤ (K.seen sink.new).faults }
    ensures untouched { (before : ℕ) (outputs : List Output) → AreAt before outputs walks.old → more_lines outputs lists.now before more ≡ [] → sink.new ≡ sink.old }
{
    begin_lists(walks);
    'instants: for _ in 0..more {
        put_instant(walks, lists, lines, sink)?;
    }
    write_all(sink, lines.bytes())?;
    lines.clear();
    Ok(())
}
