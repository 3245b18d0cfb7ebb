ghost use Rattle.std.specs.Prelude.{◌≡◌, ◌+◌, ◌<◌, ◌⊎◌, [], ℕ, List, Some, Err, length, take, slice_get, IfOk, IfErr, IsOk, MatchOption};
ghost use Rattle.lucy_types.specs.declared.ty.Ty.{Ty};
ghost use Rattle.lucy_place.specs.declared.placed.PlacedNode.{PlacedNode as Node};
ghost use Rattle.lucy_types.specs.declared.error.TypeError.TheVariants as error;
ghost use Rattle.lucy_types.specs.Rules.{IsRule};
ghost use Rattle.lucy_types.specs.Nodes.{AreSignatures, AreTyped, Solves, tables_of};
ghost use Rattle.lucy_types.specs.Programs.{IsTyped, HaveTypings, IsClash, RefusesTypes, AnswersTypes, AnswersClash};

use crate::error::TypeError;
use crate::rules::node_rules;
use crate::signature::{Signature, signature_of};
use crate::solve::{Solution, solve};
use crate::typed::Typed;
use lucy_place::Placed;
use std::alloc::{AllocError, Global};

// The types of the places of a node, with the signatures of the nodes above it.
fn node_types(
    alloc: Global,
    placed: &Placed,
    node: u32,
    signatures: &[Signature],
) -> Result<Solution, AllocError>
    requires node { node < length placed.now.nodes }
    requires signatures { AreSignatures (take node placed.now.nodes) signatures.now }
    ensures { IfOk result (λ s. (n : Node) → slice_get placed.now.nodes node ≡ Some n → Solves (IsRule (take node placed.now.nodes) (tables_of signatures.now) n) (length n.places) s) }
{
    let rules = node_rules(alloc, placed, node, signatures)?;
    solve(alloc, &rules, placed.node(node).places.list().len() as u32)
}

// Puts the signature of a node behind those of the nodes above it, or gives a clash path of its rules.
fn put_types(
    alloc: Global,
    placed: &Placed,
    node: u32,
    nodes: &mut Vec<Signature>,
) -> Result<Option<Vec<u32>>, AllocError>
    requires node { node < length placed.now.nodes }
    requires above { AreTyped placed.now.nodes node nodes.old.items }
    ensures { IfOk result (λ clash. MatchOption clash (AreTyped placed.now.nodes (node + 1) nodes.new.items) (λ path. IsClash placed.now.nodes node path.items)) }
{
    match node_types(alloc, placed, node, nodes.as_slice())? {
        Solution::Types(tys) => {
            let place = placed.node(node);
            let signature = signature_of(alloc, tys, place.params, place.results.list())?;
            nodes.push(signature)?;
            Ok(None)
        }
        Solution::Clash(path) => Ok(Some(path)),
    }
}

// The types of a program's places, or the first node whose rules no typing meets.
fn found(alloc: Global, placed: &Placed) -> Result<Typed, TypeError>
    ensures ok { IfOk result (λ typed. IsTyped placed.now.nodes typed) }
    ensures refused { IfErr result (λ e. RefusesTypes placed.now.nodes e) }
{
    let mut nodes = Vec::new(alloc);
    'each: for node in 0..placed.nodes() {
        if let Some(path) = put_types(alloc, placed, node, &mut nodes)? {
            return Err(TypeError::Clash { node, path });
        }
    }
    Ok(Typed { nodes })
}

/// The types of a program's places. It is refused exactly where some node has no typing, and the refusal is that of the first.
///
/// A call takes the types of its callee's parameters and results as they are. What is open there is settled at each call
/// anew.
pub fn types(alloc: Global, placed: &Placed) -> Result<Typed, TypeError>
    ensures ok { IfOk result (λ typed. IsTyped placed.now.nodes typed) }
    ensures refused { IfErr result (λ e. RefusesTypes placed.now.nodes e) }
    ensures well_typed { IsOk result → HaveTypings placed.now.nodes }
    ensures typable { HaveTypings placed.now.nodes → (result ≡ Err error.OutOfMemory) ⊎ IsOk result }
    ensures accepted { (tables : List (List Ty)) → IsTyped placed.now.nodes tables → AnswersTypes tables result }
    ensures rejected { (node : ℕ) (path : List ℕ) → IsClash placed.now.nodes node path → AnswersClash node result }
{
    found(alloc, placed)
}
