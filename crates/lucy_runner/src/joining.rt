// Rings, whose ends are given to their actors.
ghost use Rattle.std.specs.Prelude.{ℕ, ◌≡◌, ◌+◌, ◌<◌, ◌≤◌, [], ◌∷◌, All, length, IfOk};
ghost use Rattle.lucy_word.specs.Limits.{limit_number};
ghost use Rattle.lucy_word.specs.declared.limit.Limit.TheVariants as limit;
ghost use Rattle.lucy_runner.specs.Making.{AreNewEnds, HasGained, HaveJoined, HaveAllJoined, HasFewEnds};

use crate::place::Ends;
use lucy_net::RingSpec;
use lucy_ring::{Giver, Taker, ring};
use lucy_worker::Part;
use std::alloc::{AllocError, Global};

// The two ends of a new ring of its size and one slot more.
fn ends_of(alloc: Global, spec: &RingSpec) -> Result<(Giver, Taker), AllocError>
    requires { spec.now.size + 1 ≤ limit_number limit.Slots }
    ensures { IfOk result (λ ends. AreNewEnds spec.now ends.0 ends.1) }
{
    ring(alloc, spec.size as u32 + 1)
}

// One giver more; it is the one of the number that is answered.
fn add_giver(part: &mut Part, giver: Giver) -> Result<u32, AllocError>
    requires { length part.old.givers.items ≤ limit_number limit.Rings }
    ensures at { IfOk result (λ at. at ≡ length part.old.givers.items) }
    ensures gained { IfOk result (λ _. HasGained part.old (giver ∷ []) [] part.new) }
{
    let at = part.givers.len() as u32;
    part.givers.push(giver)?;
    Ok(at)
}

// One taker more.
fn add_taker(part: &mut Part, taker: Taker) -> Result<u32, AllocError>
    requires { length part.old.takers.items ≤ limit_number limit.Rings }
    ensures at { IfOk result (λ at. at ≡ length part.old.takers.items) }
    ensures gained { IfOk result (λ _. HasGained part.old [] (taker ∷ []) part.new) }
{
    let at = part.takers.len() as u32;
    part.takers.push(taker)?;
    Ok(at)
}

// A new ring, whose ends go behind those of its actors' parts.
fn join(alloc: Global, spec: &RingSpec, parts: &mut [Part]) -> Result<Ends, AllocError>
    requires from { spec.now.from < length parts.old }
    requires to { spec.now.to < length parts.old }
    requires fits { spec.now.size + 1 ≤ limit_number limit.Slots }
    requires few { All HasFewEnds parts.old }
    ensures { IfOk result (λ at. HaveJoined parts.old spec.now at parts.new) }
{
    let (giver, taker) = ends_of(alloc, spec)?;
    let from = add_giver(&mut parts[spec.from as usize], giver)?;
    let to = add_taker(&mut parts[spec.to as usize], taker)?;
    Ok(Ends {
        giver: from,
        taker: to,
    })
}

/// Makes all rings and gives their ends to the parts of their actors, which have none before; where each ring's ends are.
pub(crate) fn join_all(
    alloc: Global,
    rings: &[RingSpec],
    parts: &mut [Part],
) -> Result<Vec<Ends>, AllocError>
    requires few { length rings.now ≤ limit_number limit.Rings }
    requires actors { All (λ ring. (ring.from < length parts.old) × (ring.to < length parts.old)) rings.now }
    requires fits { All (λ ring. ring.size + 1 ≤ limit_number limit.Slots) rings.now }
    requires none { All (λ part. (part.givers.items ≡ []) × (part.takers.items ≡ [])) parts.old }
    ensures { IfOk result (λ ends. HaveAllJoined rings.now (length rings.now) parts.old parts.new ends.items) }
{
    let mut ends = Vec::new(alloc);
    for spec in rings {
        let at = join(alloc, spec, parts)?;
        ends.push(at)?;
    }
    Ok(ends)
}
