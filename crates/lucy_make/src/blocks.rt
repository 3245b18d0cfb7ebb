// What a course of the generated program tells of main's first result.
ghost use Rattle.std.specs.Prelude.{◌≡◌, IfOk};
ghost use Rattle.lucy_host.specs.Host.{Serves, lent};
ghost use Rattle.lucy_host.specs.Operators.{kinds_of};
ghost use Rattle.lucy_make.specs.Blocks.{IsBeforeFirst, TellsFirstResult};

use crate::figures::Tally;
use crate::laws::first_goes_on;
use lucy_host::Host;
use lucy_run::Course;
use lucy_text::Source;
use lucy_worker::Gate;
use std::alloc::{AllocError, Global};
use std::thread::Threads;

/// Runs a course from its first block to its last: the tally of main's first result, where it has one.
pub(crate) fn tell<
    R: Threads + Sync,
    F: Fn(u32, i64, i64) -> i64 + Sync,
    G: Gate + Sync,
    I: Source,
>(
    rt: &R,
    alloc: Global,
    host: &Host<F>,
    gate: &G,
    course: &mut Course<'_>,
    source: &mut I,
) -> Result<Tally, AllocError>
    requires serves { Serves F.pre F.post host.now }
    requires first { IsBeforeFirst (kinds_of (lent host.now)) (I.seen source.old) course.old }
    ensures tells { IfOk result (λ tally. TellsFirstResult (I.seen source.old) (I.seen source.new) course.old course.new tally.count tally.sum) }
    ensures given { course.new.given ≡ course.old.given }
{
    first_goes_on();
    let mut tally = Tally { count: 0, sum: 0 };
    'blocks: while course.goes_on() {
        let streams = course.next_block(rt, alloc, host, gate, source)?;
        tally.add(streams.get(0));
    }
    Ok(tally)
}
