// The rules of a node.
ghost use Rattle.std.specs.Prelude.{◌≡◌, ◌<◌, Some, length, take, slice_get, IfOk};
ghost use Rattle.lucy_place.specs.declared.placed.PlacedNode.{PlacedNode as Node};
ghost use Rattle.lucy_types.specs.Rules.{IsRule};
ghost use Rattle.lucy_types.specs.Nodes.{AreSignatures, StandFor, tables_of};

use crate::calls::put_call;
use crate::own::put_own;
use crate::rule::Rule;
use crate::signature::Signature;
use lucy_place::Placed;
use std::alloc::{AllocError, Global};

/// Rules that stand for those of a node with these signatures above it. Of the ports of a call that are of one open class
/// each is alike with the first.
pub(crate) fn node_rules(
    alloc: Global,
    placed: &Placed,
    node: u32,
    signatures: &[Signature],
) -> Result<Vec<Rule>, AllocError>
    requires node { node < length placed.now.nodes }
    requires signatures { AreSignatures (take node placed.now.nodes) signatures.now }
    ensures { IfOk result (λ v. (n : Node) → slice_get placed.now.nodes node ≡ Some n → StandFor (IsRule (take node placed.now.nodes) (tables_of signatures.now) n) v.items) }
{
    let mut rules = Vec::new(alloc);
    let found = placed.node(node);
    put_own(&mut rules, found.places.list())?;
    let sites = found.calls.list();
    'each: for site in sites {
        let signature = &signatures[site.node as usize];
        put_call(alloc, &mut rules, signature, site.args.list(), site.first)?;
    }
    Ok(rules)
}
