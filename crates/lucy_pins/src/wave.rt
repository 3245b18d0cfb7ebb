// The value change dump of a run.
ghost use Rattle.std.specs.Prelude.{◌≡◌, ◌≢◌, ◌≤◌, [], None};
ghost use Rattle.lucy_host.specs.Host.{Serves, lent};
ghost use Rattle.lucy_host.specs.Operators.{kinds_of};
ghost use Rattle.lucy_run.specs.Paces.{AreInstants};
ghost use Rattle.lucy_run.specs.Ends.{EndsOwed};
ghost use Rattle.lucy_run.specs.Calls.{WasAccepted, ReadsAndEnds};
ghost use Rattle.lucy_wave.specs.Waves.{OwesWave};
ghost use Rattle.lucy_wave.specs.Laws.{WavesAreReadBack, OneWave, NamesAreDistinct};

use lucy_host::Host;
use lucy_program::Accepted;
use lucy_run::Ending;
use lucy_text::{Sink, Source};
use std::alloc::Global;

/// Pins `lucy_wave::wave`.
pub fn wave<F: Fn(u32, i64, i64) -> i64 + Sync, I: Source, O: Sink>(
    alloc: Global,
    accepted: Accepted,
    host: &Host<F>,
    instants: Option<u64>,
    source: &mut I,
    out: &mut O,
) -> Ending
    requires serves { Serves F.pre F.post host.now }
    requires accepted { WasAccepted (lent host.now) accepted }
    requires few { AreInstants instants }
    requires given { accepted.inputs.items ≡ [] → instants ≢ None }
    ensures ends { ReadsAndEnds accepted.inputs.items (I.seen source.old) (I.seen source.new)
        (λ taken stop. EndsOwed (OwesWave (kinds_of (lent host.now)) accepted instants taken stop) (O.seen out.old) (O.seen out.new) result) }
    ensures unread { accepted.inputs.items ≡ [] → source.new ≡ source.old }
    ensures source_count { (I.seen source.old).faults ≤ (I.seen source.new).faults }
    ensures out_count { (O.seen out.old).faults ≤ (O.seen out.new).faults }
{
    lucy_wave::wave(alloc, accepted, host, instants, source, out)
}

/// Pins `lucy_wave::waves_are_read_back`.
pub fn waves_are_read_back()
    ensures { WavesAreReadBack }
{
    lucy_wave::waves_are_read_back();
}

/// Pins `lucy_wave::one_wave`.
pub fn one_wave()
    ensures { OneWave }
{
    lucy_wave::one_wave();
}

/// Pins `lucy_wave::names_are_distinct`.
pub fn names_are_distinct()
    ensures { NamesAreDistinct }
{
    lucy_wave::names_are_distinct();
}
