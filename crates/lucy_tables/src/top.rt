// The call that lends tables.
ghost use Rattle.std.specs.Prelude.{ℕ, ◌≡◌, ◌≤◌, [], None, List, map, string_bytes};
ghost use Rattle.lucy_host.specs.Operators.{names_of};
ghost use Rattle.lucy_command.specs.Commands.{command_of};
ghost use Rattle.lucy_app.specs.Commands.{files_of, most_input};
ghost use Rattle.lucy_app.specs.Operators.{program_operators};
ghost use Rattle.lucy_tables.specs.Words.{TableWords, IsCut};
ghost use Rattle.lucy_tables.specs.Ends.{AreRefused, EndsTabled};

use crate::lending::{Lent, lend};
use crate::refusal::refuse;
use lucy_app::lucy;
use lucy_host::Host;
use lucy_text::{Shelf, Sink, Source};
use lucy_worker::Gate;
use std::alloc::Global;
use std::thread::Threads;

/// All that a program with lookup tables does with the words after its name. The answer is the status that it ends with.
///
/// The words begin with any number of tables: `--table`, a name, and the name of a file. A word that is no `--table` ends them, and
/// it and all behind it are words for `lucy`, whose programs have the tables as operators of these names, behind those that `lucy`
/// lends. A table answers the item whose number, from 0, its first operand is, and its second operand where there is none.
///
/// Before the rest of the words is looked at, the words are refused in this order:
///
/// - 2: some `--table` lacks its name or its file; or a name is none that a program could call, or is that of an operator that is
///   there already, or stands twice.
/// - 6: there are more than 16 tables.
/// - Then table by table, where no file is fetched behind one that is refused: 4 as for a program's file; 6 where the file has more
///   than 1,048,576 bytes; 3 where a field of its text is no number, or 6 where it has more than 65,536 fields, whichever comes first.
/// - 5 where the line that says so can't be written, and 7 where memory ran out.
///
/// The line that says so stands on `err` then, and nothing is printed and nothing read. `EndsTabled` says all this; where nothing is
/// refused the call ends as `lucy` does, by `Ends`, over the operators of `lucy` and of the tables.
pub fn lucy_table<R: Threads + Sync, S: Shelf, I: Source, O: Sink, E: Sink, G: Gate + Sync>(
    rt: &R,
    alloc: Global,
    words: &[String],
    shelf: &mut S,
    input: &mut I,
    out: &mut O,
    err: &mut E,
    gate: &G,
) -> u8
    ensures ends { EndsTabled (map string_bytes words.now)
        (record {
          shelf = S.seen shelf.old;
          source = I.seen input.old;
          out = O.seen out.old;
          err = E.seen err.old;
          operators = program_operators;
        })
        (record {
          shelf = S.seen shelf.new;
          source = I.seen input.new;
          out = O.seen out.new;
          err = E.seen err.new;
          operators = program_operators;
        })
        result }
    ensures statuses { result ≤ 7 }
    ensures quiet { result ≡ 0 → err.new ≡ err.old }
    // What isn't called is left alone: all but `err` where the words are refused, the shelf also where no file is asked for, and
    // the source where the words behind the tables name no command that reads it.
    ensures refused { AreRefused (names_of program_operators) (map string_bytes words.now)
        → (shelf.new ≡ shelf.old) × (input.new ≡ input.old) × (out.new ≡ out.old) }
    ensures shelf { (rest : List (List ℕ)) → IsCut (map string_bytes words.now) [] rest → files_of (command_of rest) ≡ []
        → shelf.new ≡ shelf.old }
    ensures source { (tables : List TableWords) (rest : List (List ℕ)) → IsCut (map string_bytes words.now) tables rest
        → most_input (command_of rest) ≡ None → input.new ≡ input.old }
    // No count falls.
    ensures shelf_count { (S.seen shelf.old).faults ≤ (S.seen shelf.new).faults }
    ensures source_count { (I.seen input.old).faults ≤ (I.seen input.new).faults }
    ensures out_count { (O.seen out.old).faults ≤ (O.seen out.new).faults }
    ensures err_count { (E.seen err.old).faults ≤ (E.seen err.new).faults }
{
    match lend(alloc, words, shelf) {
        Ok(Lent { ops, kinds, rest }) => {
            let host = Host::new(ops, |op: u32, a: i64, b: i64| kinds.value(op, a, b));
            lucy(rt, alloc, rest, shelf, input, out, err, gate, &host)
        }
        Err(refusal) => refuse(alloc, err, refusal),
    }
}
