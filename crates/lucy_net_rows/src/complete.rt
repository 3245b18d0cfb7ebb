// Whether a worker can be made of parts.
ghost use Rattle.std.specs.Prelude.{◌≡◌, ◌≤◌, All, IsTrue, length};
ghost use Rattle.lucy_worker.specs.News.{HasItems, IsNew, ends_by, most_ends};
ghost use Rattle.lucy_net_rows.specs.ByHand.{IsBegun};

use lucy_net::ActorKind;
use lucy_word::Limit;
use lucy_worker::Part;

// The most ends of all parts of a worker.
const MOST_ENDS: usize = 65_536;

// Whether an input has an item for each firing.
fn has_items(kind: &ActorKind, quota: u64, items: usize) -> bool
    ensures { IsTrue result → HasItems kind.now quota items }
{
    match kind {
        ActorKind::Input(_) => quota <= items as u64,
        _ => true,
    }
}

// Whether a part that has done nothing has the ends of its rings and the items of its input.
fn is_complete(part: &Part) -> bool
    requires { IsBegun part.now }
    ensures { IsTrue result → IsNew part.now }
{
    if part.givers.len() != part.actor.gives.list().len() {
        return false;
    }
    if part.takers.len() != part.actor.takes.list().len() {
        return false;
    }
    if part.state.quota > Limit::Instants.number() {
        return false;
    }
    has_items(&part.actor.kind, part.state.quota, part.input.len())
}

/// Whether parts that have done nothing have the ends of their rings and the items of their inputs, and so few ends that one worker can
/// have them all.
pub(crate) fn are_complete(parts: &[Part]) -> bool
    requires { All IsBegun parts.now }
    ensures new { IsTrue result → All IsNew parts.now }
    ensures few { IsTrue result → ends_by parts.now ≤ most_ends }
{
    let mut left = MOST_ENDS;
    for part in parts {
        let ends = part.givers.len().saturating_add(part.takers.len());
        if !is_complete(part) || ends > left {
            return false;
        }
        left -= ends;
    }
    true
}
