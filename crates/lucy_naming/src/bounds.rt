// The written bounds of buffers.
ghost use Rattle.std.specs.Prelude.{◌≡◌, ◌++◌, map, IfOk, OnOk};
ghost use Rattle.lucy_tree.specs.View.{def_tree};
ghost use Rattle.lucy_naming.specs.Phrases.{expr_phrase, expr_phrases};
ghost use Rattle.lucy_naming.specs.Numbering.{bounds, all_bounds};
ghost use Rattle.lucy_naming.specs.Nodes.{def_bounds};

use lucy_tree::{Def, Expr};
use std::alloc::{AllocError, Global};

// Puts the bounds of an expression's buffers last.
#[cycle(bounds)]
fn expr_bounds(expr: &Expr, list: &mut Vec<Option<u64>>) -> Result<(), AllocError>
    ensures { OnOk result (list.new.items ≡ list.old.items ++ bounds (expr_phrase expr.now)) }
{
    match expr {
        Expr::Lit { .. } => Ok(()),
        Expr::Var { .. } => Ok(()),
        Expr::Op { args, .. } => all_bounds(args.list(), list),
        Expr::Host { args, .. } => all_bounds(args.list(), list),
        Expr::When { operand, .. } => expr_bounds(operand, list),
        Expr::Merge { one, zero, .. } => {
            expr_bounds(one, list)?;
            expr_bounds(zero, list)
        }
        Expr::Fby { operand, .. } => expr_bounds(operand, list),
        Expr::Buffer { most, operand, .. } => {
            list.push(*most)?;
            expr_bounds(operand, list)
        }
        Expr::Call { args, .. } => all_bounds(args.list(), list),
    }
}

// Puts the bounds of the operands' buffers last.
#[cycle(bounds)]
fn all_bounds(exprs: &[Expr], list: &mut Vec<Option<u64>>) -> Result<(), AllocError>
    ensures { OnOk result (list.new.items ≡ list.old.items ++ all_bounds (expr_phrases exprs.now)) }
{
    'each: for expr in exprs {
        expr_bounds(expr, list)?;
    }
    Ok(())
}

/// The bounds of the buffers of right sides, in order of the text.
pub(crate) fn bounds(alloc: Global, defs: &[Def]) -> Result<Vec<Option<u64>>, AllocError>
    ensures { IfOk result (λ v. v.items ≡ def_bounds (map def_tree defs.now)) }
{
    let mut list = Vec::new(alloc);
    'each: for def in defs {
        expr_bounds(&def.right, &mut list)?;
    }
    Ok(list)
}
