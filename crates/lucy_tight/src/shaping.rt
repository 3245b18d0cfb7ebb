// The needs of a node that isn't written, and their shape.
ghost use Rattle.std.specs.Prelude.{ℕ, List, ◌≡◌, ◌<◌, Some, length, slice_get, IfOk, IfErr};
ghost use Rattle.lucy_host.specs.Operators.{Operator};
ghost use Rattle.lucy_place.specs.declared.placed.PlacedNode.{PlacedNode as Node};
ghost use Rattle.lucy_place.specs.WrittenNodes.{IsWritten};
ghost use Rattle.lucy_need.specs.Meeting.{AreProperNeeds};
ghost use Rattle.lucy_shape.specs.declared.shape.Shape.{Shape as Laid};
ghost use Rattle.lucy_shape.specs.Fitting.{IsShapeFor};
ghost use Rattle.lucy_rates.specs.Vectors.{IsShapeOf};
ghost use Rattle.lucy_program.specs.declared.options.Options.{Options as Choices};
ghost use Rattle.lucy_program.specs.Inferring.{AreOptions};
ghost use Rattle.lucy_program.specs.Accepting.{IsAccepted};
ghost use Rattle.lucy_tight.specs.Tightening.{needs_at};
ghost use Rattle.lucy_tight.specs.declared.answer.TightError.TheVariants as error;

use crate::TightError;
use lucy_clock::{ClockError, needs, signatures};
use lucy_need::Needs;
use lucy_program::{Accepted, Options};
use lucy_rates::rates;
use lucy_shape::{RateFault, Shape};
use std::alloc::Global;

/// Needs with their shape.
#[derive(Drop)]
pub(crate) struct Shaped {
    pub needs: Needs,
    pub shape: Shape,
}

// The needs of a node with the printed clocks of the nodes above it.
fn needs_of(alloc: Global, accepted: &Accepted, node: u32) -> Result<Needs, TightError>
    requires accepted { (ops : List Operator) × (o : Choices) × (text : List ℕ) × IsAccepted ops o text accepted.now }
    requires node { node < length accepted.now.placed.nodes }
    ensures needs { (n : Node) → slice_get accepted.now.placed.nodes node ≡ Some n → IfOk result (λ needs. needs ≡ needs_at accepted.now node n) }
    ensures proper { IfOk result AreProperNeeds }
    ensures refused { IfErr result (λ e. e ≡ error.OutOfMemory) }
{
    let above = signatures(alloc, &accepted.placed, node, &accepted.clocks)?;
    match needs(alloc, &accepted.placed, node, &above) {
        Ok(needs) => Ok(needs),
        Err(ClockError::OutOfMemory) => Err(TightError::OutOfMemory),
        Err(ClockError::Limit(_)) => unreachable!(),
    }
}

// The shape of needs that have one.
fn shape_of(alloc: Global, needs: &Needs, options: &Options) -> Result<Shape, TightError>
    requires options { AreOptions options.now }
    requires proper { AreProperNeeds needs.now }
    requires some { (shape : Laid) × IsShapeOf needs.now options.now.scale options.now.lead shape }
    ensures shape { IfOk result (IsShapeOf needs.now options.now.scale options.now.lead) }
    ensures carries { IfOk result (IsShapeFor needs.now) }
    ensures refused { IfErr result (λ e. e ≡ error.OutOfMemory) }
{
    match rates(alloc, needs, options.scale, options.lead) {
        Ok(shape) => Ok(shape),
        Err(RateFault::OutOfMemory) => Err(TightError::OutOfMemory),
        Err(RateFault::Limit(_)) => unreachable!(),
        Err(RateFault::Unequal(_)) => unreachable!(),
    }
}

/// The needs of a node that isn't written with the printed clocks of the nodes above it, and their shape.
pub(crate) fn shape_node(
    alloc: Global,
    accepted: &Accepted,
    options: &Options,
    node: u32,
) -> Result<Shaped, TightError>
    requires options { AreOptions options.now }
    requires accepted { (ops : List Operator) × (text : List ℕ) × IsAccepted ops options.now text accepted.now }
    requires node { node < length accepted.now.placed.nodes }
    requires unwritten { (n : Node) → slice_get accepted.now.placed.nodes node ≡ Some n → IsWritten n → ⊥ }
    ensures needs { (n : Node) → slice_get accepted.now.placed.nodes node ≡ Some n → IfOk result (λ s. s.needs ≡ needs_at accepted.now node n) }
    ensures shape { IfOk result (λ s. IsShapeOf s.needs options.now.scale options.now.lead s.shape) }
    ensures carries { IfOk result (λ s. IsShapeFor s.needs s.shape) }
    ensures refused { IfErr result (λ e. e ≡ error.OutOfMemory) }
{
    let needs = needs_of(alloc, accepted, node)?;
    let shape = shape_of(alloc, &needs, options)?;
    Ok(Shaped { needs, shape })
}
