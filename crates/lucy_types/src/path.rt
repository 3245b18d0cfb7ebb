// The way on which a place was reached.
ghost use Rattle.std.specs.Prelude.{◌≡◌, ◌<◌, Some, length, IfOk};
ghost use Rattle.lucy_types.specs.declared.flood.Reached.{Reached as Step};
ghost use Rattle.lucy_types.specs.Graphs.{GraphRule};
ghost use Rattle.lucy_types.specs.Flooding.{reached, IsFlood, IsTorn};
ghost use Rattle.lucy_types.specs.Clash.{IsClashPath};

use crate::flood::Flood;
use crate::graph::Graph;
use std::alloc::{AllocError, Global};

/// The places from the first of its class to the one that stands at `at` in the queue.
pub(crate) fn path_to(
    alloc: Global,
    graph: &Graph,
    flood: &Flood,
    at: usize,
) -> Result<Vec<u32>, AllocError>
    requires flood { IsFlood graph.now flood.now }
    requires at { at < length flood.now.queue.items }
    requires torn { (r : Step) → reached flood.now at ≡ Some r → IsTorn graph.now flood.now r.place }
    ensures { IfOk result (λ v. IsClashPath (GraphRule graph.now) v.items) }
{
    let mut path = Vec::new(alloc);
    path.push(flood.queue[at].place)?;
    let mut i = at;
    'back: while flood.queue[i].from < i {
        i = flood.queue[i].from;
        path.push(flood.queue[i].place)?;
    }
    path.reverse();
    Ok(path)
}
