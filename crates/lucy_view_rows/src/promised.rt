// What `lucy_views::look` promises, clause by clause as in its own contract, so that one that says less than before fails here.
ghost use Rattle.std.specs.Prelude.{◌≡◌, ◌≢◌, ◌≤◌, [], None, Some, map, string_bytes};
ghost use Rattle.clap.specs.Faults.{fault_of};
ghost use Rattle.lucy_host.specs.Host.{Serves, lent};
ghost use Rattle.lucy_app.specs.World.{world};
ghost use Rattle.lucy_asking.specs.declared.name.Name.TheVariants as name;
ghost use Rattle.lucy_asking.specs.CommandLine.{line};
ghost use Rattle.lucy_asking.specs.Asks.{name_in};
ghost use Rattle.lucy_views.specs.Looks.{Looks};

use lucy_host::Host;
use lucy_text::{Shelf, Sink, Source};
use std::alloc::Global;

/// Pins `lucy_views::look`, by which each row of a call goes.
pub(crate) fn look<S: Shelf, I: Source, O: Sink, E: Sink, F: Fn(u32, i64, i64) -> i64 + Sync>(
    alloc: Global,
    words: &[String],
    host: &Host<F>,
    shelf: &mut S,
    source: &mut I,
    out: &mut O,
    err: &mut E,
) -> u8
    requires { Serves F.pre F.post host.now }
    ensures looks { Looks (map string_bytes words.now)
        (world (S.seen shelf.old) (I.seen source.old) (O.seen out.old) (E.seen err.old) (lent host.now))
        (world (S.seen shelf.new) (I.seen source.new) (O.seen out.new) (E.seen err.new) (lent host.now)) result }
    ensures known { result ≤ 7 }
    ensures shelf { name_in (map string_bytes words.now) ≡ None → shelf.new ≡ shelf.old }
    ensures refused_shelf { fault_of line (map string_bytes words.now) ≢ [] → shelf.new ≡ shelf.old }
    ensures source { name_in (map string_bytes words.now) ≢ Some name.Wave → source.new ≡ source.old }
    ensures refused_source { fault_of line (map string_bytes words.now) ≢ [] → source.new ≡ source.old }
    ensures quiet { result ≡ 0 → err.new ≡ err.old }
    ensures shelf_count { (S.seen shelf.old).faults ≤ (S.seen shelf.new).faults }
    ensures source_count { (I.seen source.old).faults ≤ (I.seen source.new).faults }
    ensures out_count { (O.seen out.old).faults ≤ (O.seen out.new).faults }
    ensures err_count { (E.seen err.old).faults ≤ (E.seen err.new).faults }
{
    lucy_views::look(alloc, words, host, shelf, source, out, err)
}
