// What an accepted program is, and what is printed of it.
ghost use Rattle.std.specs.Prelude.{◌≡◌, IfOk, ◌<◌, Some, length, slice_get, ◌≤◌, ◌++◌, OnOk, ℕ, List, ◌+◌, ◌==◌};
ghost use Rattle.std.specs.Fmt.{decimal};
ghost use Rattle.std.specs.List.{range_with_len};
ghost use Rattle.lucy_program.specs.Accepting.{IsAccepted};
ghost use Rattle.lucy_place.specs.declared.placed.PlacedNode.{PlacedNode as Node};
ghost use Rattle.lucy_place.specs.Standing.{most_places};
ghost use Rattle.lucy_program.specs.Names as naming;
ghost use Rattle.lucy_program.specs.Report as printed;
ghost use Rattle.lucy_host.specs.Operators.{Operator};
ghost use Rattle.lucy_program.specs.declared.options.Options.{Options as Choices};
ghost use Rattle.lucy_types.specs.Tables.{table_at};
ghost use Rattle.lucy_types.specs.Programs.{IsTyped};
ghost use Rattle.lucy_program.specs.Laws.{AcceptedAreProper, AcceptedHaveOperators, AcceptedAreClocked, AcceptedAreReportable, AcceptedAreBounded};

use lucy_clock::NodeClock;
use lucy_place::PlacedNode;
use lucy_program::Accepted;
use lucy_text::Text;
use lucy_types::Ty;
use std::alloc::{AllocError, Global};

/// Pins `lucy_program::node_line`.
pub fn node_line(alloc: Global, node: &PlacedNode, out: &mut Vec<u8>) -> Result<(), AllocError>
    requires { node.now.params ≤ most_places }
    ensures { OnOk result (out.new.items ≡ out.old.items ++ naming.node_line node.now) }
{
    lucy_program::node_line(alloc, node, out)
}

/// Pins `lucy_program::type_name`.
pub fn type_name(alloc: Global, main: bool, ty: Ty, out: &mut Vec<u8>) -> Result<(), AllocError>
    ensures { OnOk result (out.new.items ≡ out.old.items ++ printed.type_name main ty) }
{
    lucy_program::type_name(alloc, main, ty, out)
}

/// Pins `lucy_program::first_operand`.
pub fn first_operand(node: &PlacedNode, place: u32) -> Option<u32>
    ensures { result ≡ printed.first_operand node.now place }
{
    lucy_program::first_operand(node, place)
}

/// Pins `lucy_program::report`.
pub fn report(alloc: Global, accepted: &Accepted) -> Result<Vec<u8>, AllocError>
    requires { (ops : List Operator) × (text : List ℕ) × (options : Choices) × IsAccepted ops options text accepted.now }
    ensures { IfOk result (λ v. v.items ≡ printed.report accepted.now.placed.nodes accepted.now.typed accepted.now.clocks.items) }
{
    lucy_program::report(alloc, accepted)
}

/// Pins `lucy_program::report_node`.
pub fn report_node(
    alloc: Global,
    accepted: &Accepted,
    node: u32,
    clocks: &NodeClock,
) -> Result<Vec<u8>, AllocError>
    requires node { node < length accepted.now.placed.nodes }
    requires typed { IsTyped accepted.now.placed.nodes accepted.now.typed }
    requires sizes { (n : Node) → slice_get accepted.now.placed.nodes node ≡ Some n → length clocks.now.sizes ≡ length n.buffers }
    ensures { (n : Node) → slice_get accepted.now.placed.nodes node ≡ Some n →
        IfOk result (λ v. v.items ≡ printed.node_lines accepted.now.placed.nodes (node + 1 == length accepted.now.placed.nodes) n
        (table_at accepted.now.typed node) clocks.now) }
{
    lucy_program::report_node(alloc, accepted, node, clocks)
}

/// Pins `lucy_program::accepted_programs_are_clocked`.
pub fn accepted_programs_are_clocked()
    ensures proper { AcceptedAreProper }
    ensures operators { AcceptedHaveOperators }
    ensures clocked { AcceptedAreClocked }
    ensures reportable { AcceptedAreReportable }
    ensures bounded { AcceptedAreBounded }
{
    lucy_program::accepted_programs_are_clocked();
}

/// Pins `lucy_program::bytes`.
pub fn bytes(bytes: &[u8], out: &mut Vec<u8>) -> Result<(), AllocError>
    ensures { OnOk result (out.new.items ≡ out.old.items ++ bytes.now) }
{
    lucy_program::bytes(bytes, out)
}

/// Pins `lucy_program::number`.
pub fn number(alloc: Global, number: u64, out: &mut Vec<u8>) -> Result<(), AllocError>
    ensures { OnOk result (out.new.items ≡ out.old.items ++ decimal number) }
{
    lucy_program::number(alloc, number, out)
}

/// Pins `lucy_program::place_name`.
pub fn place_name(alloc: Global, node: &PlacedNode, place: u32) -> Result<Text, AllocError>
    ensures { IfOk result (λ text. text ≡ naming.place_name node.now place) }
{
    lucy_program::place_name(alloc, node, place)
}

/// Pins `lucy_program::place_names`.
pub fn place_names(
    alloc: Global,
    node: &PlacedNode,
    places: &[u32],
) -> Result<Vec<Text>, AllocError>
    ensures { IfOk result (λ v. v.items ≡ naming.place_names node.now places.now) }
{
    lucy_program::place_names(alloc, node, places)
}

/// Pins `lucy_program::param_places`.
pub fn param_places(alloc: Global, params: u32) -> Result<Vec<u32>, AllocError>
    requires { params ≤ most_places }
    ensures { IfOk result (λ v. v.items ≡ range_with_len 1 params) }
{
    lucy_program::param_places(alloc, params)
}
