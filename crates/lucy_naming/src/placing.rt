// The places of a program.
ghost use Rattle.std.specs.Prelude.{◌≡◌, ◌⊎◌, ◌++◌, ◌∷◌, [], ◌^◌, ◌<◌, ◌≤◌, length, map, IfOk, IfErr, OnOk, IsOk, Ok, Err, if◌then◌else◌};
ghost use Rattle.lucy_tree.specs.View.{node_tree, def_tree, program_tree};
ghost use Rattle.lucy_tree.specs.Shaped.{IsShapedNode, IsShapedProgram};
ghost use Rattle.lucy_naming.specs.declared.error.NameError.TheVariants as error;
ghost use Rattle.lucy_naming.specs.Streams.{streams, node_names};
ghost use Rattle.lucy_naming.specs.Faults.{verdict, def_faults, node_faults, nodes_faults, faults};
ghost use Rattle.lucy_naming.specs.Nodes.{placed_node, placed_nodes};
ghost use Rattle.lucy_naming.specs.Placing.{TellsFirstFault, IsFirstFault, IsPlaced};
ghost use Rattle.lucy_place.specs.Proper.{HaveOperators};
ghost use Rattle.lucy_naming.specs.Texts.{is_in};
ghost use Rattle.lucy_naming.specs.Written.{first_unwritten};
ghost use Rattle.lucy_naming.specs.Views.{within_of, inner_faults, text_of};

use crate::error::NameError;
use crate::faults::expr_names;
use crate::hash::NameHash;
use crate::names::Names;
use crate::nodes::node_places;
use crate::room::{fits, result_count};
use crate::scope::Scope;
use crate::streams::{results, streams};
use crate::unwritten::first_unwritten;
use lucy_host::Ops;
use lucy_place::{Placed, PlacedNode};
use lucy_tree::{Def, Node, Program, Span};
use lucy_word::Limit;
use std::alloc::{AllocError, Global};

// The names that right sides of definitions use.
fn def_names(names: &Names<'_, '_>, defs: &[Def]) -> Result<(), NameError>
    ensures { result ≡ verdict (def_faults (within_of names.now) (map def_tree defs.now)) }
{
    'each: for def in defs {
        expr_names(names, &def.right, result_count(def.left.list()))?;
    }
    Ok(())
}

// The places of a node whose name and streams are good, once the names in it are.
fn named_node(
    alloc: Global,
    hash: NameHash,
    names: &Names<'_, '_>,
    node: &Node,
) -> Result<PlacedNode, NameError>
    requires few { length names.now.nodes.now < 2 ^ 32 }
    requires streams { names.now.streams.now ≡ map text_of (streams (node_tree node.now)) }
    requires shaped { IsShapedNode (node_tree node.now) }
    ensures ok { IfOk result (λ placed. (inner_faults (within_of names.now) (node_tree node.now) ≡ []) × (placed ≡ placed_node names.now.ops.now (map node_tree names.now.above.now) (node_tree node.now))) }
    ensures refused { IfErr result (TellsFirstFault (inner_faults (within_of names.now) (node_tree node.now))) }
{
    def_names(names, node.defs.list())?;
    results(alloc, hash, names.streams, node.results.list())?;
    if !fits(node, names.streams.len()) {
        return Err(NameError::TooMany(Limit::Places));
    }
    Ok(node_places(alloc, names, node)?)
}

// The places of a node with these nodes above it, once its names are good.
fn next_node<'p>(
    alloc: Global,
    hash: NameHash,
    ops: &'p Ops,
    all: &'p [Node],
    above: &'p [Node],
    scope: &Scope<'p>,
    node: &'p Node,
) -> Result<PlacedNode, NameError>
    requires named { scope.now ≡ node_names (map node_tree above.now) }
    requires few { length scope.now < 2 ^ 32 }
    requires shaped { IsShapedNode (node_tree node.now) }
    ensures ok { IfOk result (λ placed. (node_faults ops.now (map node_tree all.now) (map node_tree above.now) (node_tree node.now) ≡ []) × (placed ≡ placed_node ops.now (map node_tree above.now) (node_tree node.now))) }
    ensures refused { IfErr result (TellsFirstFault (node_faults ops.now (map node_tree all.now) (map node_tree above.now) (node_tree node.now))) }
{
    if scope.find(node.name.text.bytes()).is_some() {
        return Err(NameError::Twice(node.name.span));
    }
    let known = streams(alloc, hash, node)?;
    let names = Names {
        ops,
        all,
        above,
        nodes: scope,
        streams: &known,
    };
    named_node(alloc, hash, &names, node)
}

// Keeps a node that is placed, with the first span that keeps it from being written, behind those above it.
fn keep<'p>(
    scope: &mut Scope<'p>,
    list: &mut Vec<PlacedNode>,
    spans: &mut Vec<Option<Span>>,
    placed: PlacedNode,
    node: &'p Node,
) -> Result<(), AllocError>
    ensures names { OnOk result (scope.new ≡ (if is_in scope.old node.now.name.text then scope.old else scope.old ++ node.now.name.text ∷ [])) }
    ensures list { OnOk result (list.new.items ≡ list.old.items ++ placed ∷ []) }
    ensures spans { OnOk result (spans.new.items ≡ spans.old.items ++ first_unwritten (node_tree node.now) ∷ []) }
{
    list.push(placed)?;
    spans.push(first_unwritten(node))?;
    scope.add(node.name.text.bytes())?;
    Ok(())
}

// Places the nodes of a program one after another, each once its names are good.
fn all_nodes<'p>(
    alloc: Global,
    hash: NameHash,
    ops: &'p Ops,
    nodes: &'p [Node],
    scope: &mut Scope<'p>,
    list: &mut Vec<PlacedNode>,
    spans: &mut Vec<Option<Span>>,
) -> Result<(), NameError>
    requires scope { scope.old ≡ [] }
    requires list { list.old.items ≡ [] }
    requires spans { spans.old.items ≡ [] }
    requires shaped { IsShapedProgram (map node_tree nodes.now) }
    ensures good { OnOk result (faults ops.now (map node_tree nodes.now) ≡ []) }
    ensures list { OnOk result (list.new.items ≡ placed_nodes ops.now (map node_tree nodes.now)) }
    ensures spans { OnOk result (spans.new.items ≡ map first_unwritten (map node_tree nodes.now)) }
    ensures refused { IfErr result (TellsFirstFault (faults ops.now (map node_tree nodes.now))) }
{
    'each: for (i, node) in nodes.iter().enumerate() {
        let placed = next_node(alloc, hash, ops, nodes, &nodes[..i], scope, node)?;
        keep(scope, list, spans, placed, node)?;
    }
    Ok(())
}

/// The places of a program, or what is wrong with its names: `OutOfMemory`, or the first fault, node by node. In a node first
/// its own name is looked at, then its parameters, its defined names, its expressions in the order of the text, its results,
/// and then the number of its places. `ops` are the operators of the host, which host forms name. The program has the shape
/// that the grammar gives.
pub fn place(alloc: Global, program: &Program, ops: &Ops) -> Result<Placed, NameError>
    requires shaped { IsShapedProgram (program_tree program.now) }
    ensures ok { IfOk result (IsPlaced ops.now (program_tree program.now)) }
    ensures operators { IfOk result (λ placed. HaveOperators (length ops.now) placed.nodes) }
    ensures refused { IfErr result (TellsFirstFault (faults ops.now (program_tree program.now))) }
    ensures accepted { faults ops.now (program_tree program.now) ≡ [] → (result ≡ Err error.OutOfMemory) ⊎ IsOk result }
    ensures rejected { (e : NameError) → IsFirstFault (faults ops.now (program_tree program.now)) e → (result ≡ Err error.OutOfMemory) ⊎ (result ≡ Err e) }
{
    let nodes = program.nodes.list();
    let hash = NameHash::of(nodes);
    let mut scope = Scope::new(alloc, hash);
    let mut list = Vec::new(alloc);
    let mut spans = Vec::new(alloc);
    all_nodes(alloc, hash, ops, nodes, &mut scope, &mut list, &mut spans)?;
    Ok(Placed::new(list, spans))
}
