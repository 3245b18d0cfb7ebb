// A pass over the actors of one thread.
ghost use Rattle.std.specs.Prelude.{◌↔◌, All, IsTrue, length};
ghost use Rattle.lucy_host.specs.Host.{Serves, lent};
ghost use Rattle.lucy_host.specs.Operators.{kinds_of};
ghost use Rattle.lucy_worker.specs.Parts.{IsDone};
ghost use Rattle.lucy_worker.specs.Turns.{IsServed};
ghost use Rattle.lucy_worker.specs.Readiness.{AreReady, HavePassed};

use crate::part::Part;
use lucy_host::Host;

// All possible moves of each part, from the first part to the last; how many they are.
pub(crate) fn pass_on<F: Fn(u32, i64, i64) -> i64 + Sync>(parts: &mut [Part], host: &Host<F>) -> u64
    requires ready { AreReady parts.old }
    requires serves { Serves F.pre F.post host.now }
    requires served { All (IsServed (length (lent host.now))) parts.old }
    ensures { HavePassed (kinds_of (lent host.now)) (length (lent host.now)) parts.old parts.new result }
{
    let mut moves = 0;
    for part in parts.iter_mut() {
        moves += part.go_on(host);
    }
    moves
}

// Those from the last part to the first.
pub(crate) fn pass_back<F: Fn(u32, i64, i64) -> i64 + Sync>(
    parts: &mut [Part],
    host: &Host<F>,
) -> u64
    requires ready { AreReady parts.old }
    requires serves { Serves F.pre F.post host.now }
    requires served { All (IsServed (length (lent host.now))) parts.old }
    ensures { HavePassed (kinds_of (lent host.now)) (length (lent host.now)) parts.old parts.new result }
{
    let mut moves = 0;
    let mut at = parts.len();
    while at > 0 {
        at -= 1;
        moves += parts[at].go_on(host);
    }
    moves
}

/// Whether every actor has done its list of operations.
pub(crate) fn all_done(parts: &[Part]) -> bool
    ensures { IsTrue result ↔ All IsDone parts.now }
{
    parts
        .iter()
        .all(|part| part.state.quota <= part.state.fired)
}
