// Looks for faults in the names of streams and of results.
ghost use Rattle.std.specs.Prelude.{◌≡◌, ◌∷◌, ◌++◌, [], map, IfOk, IfErr, OnOk};
ghost use Rattle.lucy_tree.specs.View.{node_tree, def_tree};
ghost use Rattle.lucy_naming.specs.Streams.{streams, declared, def_names};
ghost use Rattle.lucy_naming.specs.Views.{text_of};
ghost use Rattle.lucy_naming.specs.Faults.{repeat, repeats, result_fault, result_faults};
ghost use Rattle.lucy_naming.specs.Placing.{TellsFirstFault};

use crate::error::NameError;
use crate::hash::NameHash;
use crate::scope::Scope;
use lucy_tree::{Decl, Def, Name, Node};
use std::alloc::Global;

// Puts a name last that isn't there yet.
fn put<'p>(scope: &mut Scope<'p>, name: &'p Name) -> Result<(), NameError>
    ensures ok { OnOk result ((repeat scope.old name.now ≡ []) × (scope.new ≡ scope.old ++ name.now.text ∷ [])) }
    ensures refused { IfErr result (TellsFirstFault (repeat scope.old name.now)) }
{
    if scope.add(name.text.bytes())? {
        Ok(())
    } else {
        Err(NameError::Twice(name.span))
    }
}

// Puts the declared names last, none of which is there yet.
fn declare<'p>(scope: &mut Scope<'p>, decls: &'p [Decl]) -> Result<(), NameError>
    ensures ok { OnOk result ((repeats scope.old (declared decls.now) ≡ []) × (scope.new ≡ scope.old ++ map text_of (declared decls.now))) }
    ensures refused { IfErr result (TellsFirstFault (repeats scope.old (declared decls.now))) }
{
    'each: for decl in decls {
        put(scope, &decl.name)?;
    }
    Ok(())
}

// Puts the names that definitions define last, none of which is there yet.
fn define<'p>(scope: &mut Scope<'p>, defs: &'p [Def]) -> Result<(), NameError>
    ensures ok { OnOk result ((repeats scope.old (def_names (map def_tree defs.now)) ≡ []) × (scope.new ≡ scope.old ++ map text_of (def_names (map def_tree defs.now)))) }
    ensures refused { IfErr result (TellsFirstFault (repeats scope.old (def_names (map def_tree defs.now)))) }
{
    'each: for def in defs {
        declare(scope, def.left.list())?;
    }
    Ok(())
}

/// The names of a node's streams, in order of their places.
pub(crate) fn streams<'p>(
    alloc: Global,
    hash: NameHash,
    node: &'p Node,
) -> Result<Scope<'p>, NameError>
    ensures ok { IfOk result (λ scope. (repeats [] (streams (node_tree node.now)) ≡ []) × (scope ≡ map text_of (streams (node_tree node.now)))) }
    ensures refused { IfErr result (TellsFirstFault (repeats [] (streams (node_tree node.now)))) }
{
    let mut scope = Scope::new(alloc, hash);
    declare(&mut scope, node.params.list())?;
    define(&mut scope, node.defs.list())?;
    Ok(scope)
}

// A result, among streams and behind other results.
fn result<'p>(streams: &Scope<'_>, before: &mut Scope<'p>, name: &'p Name) -> Result<(), NameError>
    ensures ok { OnOk result ((result_fault streams.now before.old name.now ≡ []) × (before.new ≡ before.old ++ name.now.text ∷ [])) }
    ensures refused { IfErr result (TellsFirstFault (result_fault streams.now before.old name.now)) }
{
    if streams.find(name.text.bytes()).is_none() {
        return Err(NameError::NoResult(name.span));
    }
    put(before, name)
}

/// The results of a node with these streams.
pub(crate) fn results(
    alloc: Global,
    hash: NameHash,
    streams: &Scope<'_>,
    list: &[Name],
) -> Result<(), NameError>
    ensures ok { OnOk result (result_faults streams.now [] list.now ≡ []) }
    ensures refused { IfErr result (TellsFirstFault (result_faults streams.now [] list.now)) }
{
    let mut before = Scope::new(alloc, hash);
    'each: for name in list {
        result(streams, &mut before, name)?;
    }
    Ok(())
}
