// Looks for faults in the names that expressions use.
ghost use Rattle.std.specs.Prelude.{◌≡◌, map, length, Result, Ok, Err, is_some, if◌then◌else◌};
ghost use Rattle.lucy_host.specs.Operators.{operator_number};
ghost use Rattle.lucy_tree.specs.View.{node_tree};
ghost use Rattle.lucy_naming.specs.declared.error.NameError.TheVariants as error;
ghost use Rattle.lucy_naming.specs.Texts.{is_in};
ghost use Rattle.lucy_naming.specs.Streams.{node_names};
ghost use Rattle.lucy_naming.specs.Phrases.{expr_phrase, expr_phrases};
ghost use Rattle.lucy_naming.specs.Faults.{verdict, unless, phrase_faults, phrases_faults, def_faults, call_faults};
ghost use Rattle.lucy_naming.specs.Views.{within_of};

use crate::error::NameError;
use crate::names::Names;
use lucy_tree::{Expr, Name, Node};

// Whether one of the nodes has the name.
fn has_node(nodes: &[Node], name: &Name) -> bool
    ensures { result ≡ is_in (node_names (map node_tree nodes.now)) name.now.text }
{
    'each: for node in nodes {
        if name.text.bytes() == node.name.text.bytes() {
            return true;
        }
    }
    false
}

// The fault of a call of no node above.
fn missing(all: &[Node], name: &Name) -> NameError
    ensures { result ≡ (if is_in (node_names (map node_tree all.now)) name.now.text then error.LaterNode name.now.span else error.Unknown name.now.span) }
{
    if has_node(all, name) {
        NameError::LaterNode(name.span)
    } else {
        NameError::Unknown(name.span)
    }
}

// The name of a call with so many arguments and results.
fn call_name(
    names: &Names<'_, '_>,
    name: &Name,
    args: usize,
    results: usize,
) -> Result<(), NameError>
    ensures { result ≡ verdict (call_faults (within_of names.now) name.now args results) }
{
    let Some(callee) = names.above.get(names.nodes.place(name.text.bytes())) else {
        return Err(missing(names.all, name));
    };
    if callee.params.list().len() == args && callee.results.list().len() == results {
        Ok(())
    } else {
        Err(NameError::Arity(name.span))
    }
}

// The name of a stream.
fn stream_name(names: &Names<'_, '_>, name: &Name) -> Result<(), NameError>
    ensures { result ≡ verdict (unless (is_in names.now.streams.now name.now.text) (error.Unknown name.now.span)) }
{
    if names.streams.find(name.text.bytes()).is_some() {
        Ok(())
    } else {
        Err(NameError::Unknown(name.span))
    }
}

// The name of an operator of the host.
fn operator_name(names: &Names<'_, '_>, name: &Name) -> Result<(), NameError>
    ensures { result ≡ verdict (unless (is_some (operator_number names.now.ops.now name.now.text)) (error.Unknown name.now.span)) }
{
    if names.ops.find(name.text.bytes()).is_some() {
        Ok(())
    } else {
        Err(NameError::Unknown(name.span))
    }
}

/// The names that an expression uses, which has so many results where it is a call.
#[cycle(names)]
#[tactic(auto, using(crate::proofs::VerdictLaws::count_phrases))]
pub(crate) fn expr_names(
    names: &Names<'_, '_>,
    expr: &Expr,
    results: usize,
) -> Result<(), NameError>
    ensures { result ≡ verdict (phrase_faults (within_of names.now) results (expr_phrase expr.now)) }
{
    match expr {
        Expr::Lit { .. } => Ok(()),
        Expr::Var { name } => stream_name(names, name),
        Expr::Op { args, .. } => all_names(names, args.list()),
        Expr::Host { name, args } => {
            operator_name(names, name)?;
            all_names(names, args.list())
        }
        Expr::When { operand, .. } => expr_names(names, operand, 1),
        Expr::Merge { one, zero, .. } => {
            expr_names(names, one, 1)?;
            expr_names(names, zero, 1)
        }
        Expr::Fby { operand, .. } => expr_names(names, operand, 1),
        Expr::Buffer { operand, .. } => expr_names(names, operand, 1),
        Expr::Call { node, args, .. } => {
            call_name(names, node, args.list().len(), results)?;
            all_names(names, args.list())
        }
    }
}

// The names that operands use.
#[cycle(names)]
fn all_names(names: &Names<'_, '_>, list: &[Expr]) -> Result<(), NameError>
    ensures { result ≡ verdict (phrases_faults (within_of names.now) (expr_phrases list.now)) }
{
    'each: for expr in list {
        expr_names(names, expr, 1)?;
    }
    Ok(())
}
