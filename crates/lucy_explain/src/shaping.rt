// The needs of a node of an accepted program, and their shape.
ghost use Rattle.std.specs.Prelude.{ℕ, List, ◌<◌, length, IfOk, IfSome};
ghost use Rattle.lucy_host.specs.Operators.{Operator};
ghost use Rattle.lucy_need.specs.Meeting.{AreProperNeeds};
ghost use Rattle.lucy_shape.specs.Fitting.{IsShapeFor};
ghost use Rattle.lucy_program.specs.declared.options.Options.{Options as Choices};
ghost use Rattle.lucy_program.specs.Inferring.{AreOptions};
ghost use Rattle.lucy_program.specs.Accepting.{IsAccepted};

use lucy_clock::{ClockError, needs, signatures};
use lucy_need::Needs;
use lucy_program::{Accepted, Options, accepted_programs_are_clocked};
use lucy_rates::rates;
use lucy_shape::{RateFault, Shape};
use std::alloc::{AllocError, Global};

/// Needs with their shape.
#[derive(Drop)]
pub(crate) struct Shaped {
    pub needs: Needs,
    pub shape: Shape,
}

// The needs of a node with the printed clocks of the nodes above it.
fn needs_of(alloc: Global, accepted: &Accepted, node: u32) -> Result<Option<Needs>, AllocError>
    requires accepted { (ops : List Operator) × (o : Choices) × (text : List ℕ) × IsAccepted ops o text accepted.now }
    requires node { node < length accepted.now.placed.nodes }
    ensures { IfOk result (λ found. IfSome found AreProperNeeds) }
{
    accepted_programs_are_clocked();
    let above = signatures(alloc, &accepted.placed, node, &accepted.clocks)?;
    match needs(alloc, &accepted.placed, node, &above) {
        Ok(needs) => Ok(Some(needs)),
        Err(ClockError::OutOfMemory) => Err(AllocError),
        Err(ClockError::Limit(_)) => Ok(None),
    }
}

/// The needs of a node, by its number from 0, with the printed clocks of the nodes above it, and their shape with these options; none,
/// where they pass a limit or have no shape.
pub(crate) fn shape_node(
    alloc: Global,
    accepted: &Accepted,
    options: &Options,
    node: u32,
) -> Result<Option<Shaped>, AllocError>
    requires options { AreOptions options.now }
    requires accepted { (ops : List Operator) × (o : Choices) × (text : List ℕ) × IsAccepted ops o text accepted.now }
    requires node { node < length accepted.now.placed.nodes }
    ensures { IfOk result (λ found. IfSome found (λ s. IsShapeFor s.needs s.shape)) }
{
    let Some(needs) = needs_of(alloc, accepted, node)? else {
        return Ok(None);
    };
    match rates(alloc, &needs, options.scale, options.lead) {
        Ok(shape) => Ok(Some(Shaped { needs, shape })),
        Err(RateFault::OutOfMemory) => Err(AllocError),
        Err(RateFault::Limit(_) | RateFault::Unequal(_)) => Ok(None),
    }
}
