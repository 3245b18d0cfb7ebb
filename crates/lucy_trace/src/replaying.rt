// Whether events are a run.
ghost use Rattle.std.specs.Prelude.{◌≡◌, ◌↔◌, IfErr, IsOk, take};
ghost use Rattle.lucy_host.specs.Host.{Serves, lent};
ghost use Rattle.lucy_host.specs.Operators.{kinds_of};
ghost use Rattle.lucy_core.specs.Seen.{CanRun, after_picks};
ghost use Rattle.lucy_trace.specs.Logs.{possible_of, IsFirstImpossible};

use crate::error::TraceError;
use lucy_core::Core;
use lucy_host::Host;

/// Does the events of these actors in turn, which is fine exactly where they are a run from where the core stands. Else
/// `NotPossible` tells the first event that isn't possible, and the core stands behind those before it. No other refusal is
/// answered, and no memory taken.
pub fn replay<F: Fn(u32, i64, i64) -> i64 + Sync>(
    core: &mut Core,
    host: &Host<F>,
    picks: &[u32],
) -> Result<(), TraceError>
    requires serves { Serves F.pre F.post host.now }
    requires kinds { kinds_of (lent host.now) ≡ kinds_of core.old.operators }
    ensures exact { IsOk result ↔ CanRun core.old picks.now }
    ensures done { core.new ≡ after_picks core.old (take (possible_of core.old picks.now) picks.now) }
    ensures refused { IfErr result (IsFirstImpossible (CanRun core.old) picks.now) }
{
    let count = core.run_picks(host, picks);
    match picks.get(count as usize) {
        Some(actor) => Err(TraceError::NotPossible {
            event: count + 1,
            actor: *actor,
        }),
        None => Ok(()),
    }
}
