// The numbered places of a program, or the first fault of a name.
ghost use Rattle.std.specs.Prelude.{◌≡◌, ◌⊎◌, [], length, IfOk, IfErr, IsOk, Err, ◌<◌, ◌≤◌, slice_get, take, Some, ◌↔◌, IsTrue, None};
ghost use Rattle.lucy_tree.specs.View.{program_tree};
ghost use Rattle.lucy_tree.specs.Shaped.{IsShapedProgram};
ghost use Rattle.lucy_naming.specs.declared.error.NameError.TheVariants as error;
ghost use Rattle.lucy_naming.specs.Faults.{faults};
ghost use Rattle.lucy_naming.specs.Laws.{NodesAreOne, ProgramsHaveNodes};
ghost use Rattle.lucy_naming.specs.Placing.{TellsFirstFault, IsFirstFault, IsPlaced};
ghost use Rattle.lucy_place.specs.Proper.{HaveOperators, AreProper, IsProperNode};
ghost use Rattle.lucy_word.specs.Limits.{limit_number};
ghost use Rattle.lucy_word.specs.declared.limit.Limit.TheVariants as limit;
ghost use Rattle.lucy_place.specs.WrittenNodes.{TellWritten, IsWritten};
ghost use Rattle.lucy_place.specs.Reads.{operands_of};
ghost use Rattle.lucy_place.specs.Literals as spec;

use lucy_host::Ops;
use lucy_naming::NameError;
use lucy_place::{PlaceKind, Placed, PlacedNode};
use lucy_tree::{Lit, Program, Span};
use std::alloc::Global;

/// Pins `lucy_naming::place`.
pub fn place(alloc: Global, program: &Program, ops: &Ops) -> Result<Placed, NameError>
    requires shaped { IsShapedProgram (program_tree program.now) }
    ensures ok { IfOk result (IsPlaced ops.now (program_tree program.now)) }
    ensures operators { IfOk result (λ placed. HaveOperators (length ops.now) placed.nodes) }
    ensures refused { IfErr result (TellsFirstFault (faults ops.now (program_tree program.now))) }
    ensures accepted { faults ops.now (program_tree program.now) ≡ [] → (result ≡ Err error.OutOfMemory) ⊎ IsOk result }
    ensures rejected { (e : NameError) → IsFirstFault (faults ops.now (program_tree program.now)) e → (result ≡ Err error.OutOfMemory) ⊎ (result ≡ Err e) }
{
    lucy_naming::place(alloc, program, ops)
}

/// Pins `lucy_naming::nodes_are_one`.
pub fn nodes_are_one()
    ensures some { ProgramsHaveNodes }
    ensures one { NodesAreOne }
{
    lucy_naming::nodes_are_one();
}

/// Pins `lucy_place::Placed::nodes`.
pub fn nodes_of(placed: &Placed) -> u32
    ensures count { result ≡ length placed.now.nodes }
    ensures some { 0 < result }
    ensures few { result ≤ limit_number limit.Nodes }
    ensures proper { AreProper placed.now.nodes }
    ensures written { TellWritten placed.now.nodes placed.now.unwritten }
{
    placed.nodes()
}

/// Pins `lucy_place::Placed::node`.
pub fn node_of(placed: &Placed, node: u32) -> &PlacedNode
    requires { node < length placed.now.nodes }
    ensures is { slice_get placed.now.nodes node ≡ Some result.now }
    ensures proper { IsProperNode (take node placed.now.nodes) result.now }
{
    placed.node(node)
}

/// Pins `lucy_place::Placed::is_written`.
pub fn is_written(placed: &Placed, node: u32) -> bool
    requires { node < length placed.now.nodes }
    ensures is { IsTrue result ↔ (slice_get placed.now.unwritten node ≡ Some None) }
    ensures tables { (n : PlacedNode) → slice_get placed.now.nodes node ≡ Some n → IsTrue result ↔ IsWritten n }
{
    placed.is_written(node)
}

/// Pins `lucy_place::Placed::first_unwritten`.
pub fn first_unwritten(placed: &Placed, node: u32) -> Option<Span>
    requires { node < length placed.now.nodes }
    ensures is { slice_get placed.now.unwritten node ≡ Some result }
    ensures tables { (n : PlacedNode) → slice_get placed.now.nodes node ≡ Some n → (result ≡ None) ↔ IsWritten n }
{
    placed.first_unwritten(node)
}

/// Pins `lucy_place::PlaceKind::operand`.
pub fn operand_of(kind: &PlaceKind, operand: usize) -> Option<u32>
    ensures { result ≡ slice_get (operands_of kind.now) operand }
{
    kind.operand(operand)
}

/// Pins `lucy_place::literal_value`.
pub fn literal_value(lit: Lit) -> i64
    ensures { result ≡ spec.literal_value lit }
{
    lucy_place::literal_value(lit)
}
