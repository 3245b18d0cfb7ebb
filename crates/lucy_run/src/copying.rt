// An equal net.
ghost use Rattle.std.specs.Prelude.{◌≡◌, IfOk};

use lucy_net::{Actor, Actors, Net, RingSpec, Rings};
use std::alloc::{AllocError, Global};

// Equal actors.
fn copy_actors(alloc: Global, actors: &[Actor]) -> Result<Vec<Actor>, AllocError>
    ensures { IfOk result (λ copies. copies.items ≡ actors.now) }
{
    let mut copies = Vec::new(alloc);
    for actor in actors {
        copies.push(actor.copy(alloc)?)?;
    }
    Ok(copies)
}

// An equal ring.
fn copy_ring(alloc: Global, ring: &RingSpec) -> Result<RingSpec, AllocError>
    ensures { IfOk result (λ copy. copy ≡ ring.now) }
{
    let write = ring.write.copy(alloc)?;
    let read = ring.read.copy(alloc)?;
    Ok(RingSpec {
        from: ring.from,
        to: ring.to,
        write,
        read,
        size: ring.size,
    })
}

// Equal rings.
fn copy_rings(alloc: Global, rings: &[RingSpec]) -> Result<Vec<RingSpec>, AllocError>
    ensures { IfOk result (λ copies. copies.items ≡ rings.now) }
{
    let mut copies = Vec::new(alloc);
    for ring in rings {
        copies.push(copy_ring(alloc, ring)?)?;
    }
    Ok(copies)
}

/// The same net in other memory.
pub fn copy_net(alloc: Global, net: &Net) -> Result<Net, AllocError>
    ensures { IfOk result (λ copy. copy ≡ net.now) }
{
    let actors = Actors::new(copy_actors(alloc, net.actors.list())?);
    let rings = Rings::new(copy_rings(alloc, net.rings.list())?);
    Ok(Net { actors, rings })
}
