// The lists of operators, item by item.
ghost use Rattle.std.specs.Prelude.{◌≡◌, ◌∷◌, [], length, IfOk, IfErr};
ghost use Rattle.lucy_host.specs.Arity.{arity};
ghost use Rattle.lucy_host.specs.OpValue as table;
ghost use Rattle.lucy_stream.specs.Items.{item_at};
ghost use Rattle.lucy_stream.specs.Lists as spec;
ghost use Rattle.lucy_kahn.specs.Outcomes.{IsWholeList, Overflows};

use crate::error::KahnError;
use crate::grow::put;
use lucy_host::{Op, op_value};
use std::alloc::Global;

/// The item after so many others, and 0 past the end, which says nothing.
pub(crate) fn item(list: &[i64], k: usize) -> i64
    ensures { result ≡ item_at list.now k }
{
    list.get(k).copied().unwrap_or(0)
}

// The length of the shortest of the operands' lists, of which an operator has one, two or three.
fn shortest(op: Op, a: &[i64], b: &[i64], c: &[i64]) -> usize
    ensures { result ≡ spec.shortest (arity op) (a.now ∷ b.now ∷ c.now ∷ []) }
{
    match op {
        Op::Not => a.len(),
        Op::If => a.len().min(b.len()).min(c.len()),
        _ => a.len().min(b.len()),
    }
}

/// The values of an operator, as many as its shortest operand has items. The lists that it lacks are ignored.
pub(crate) fn pointwise(
    alloc: Global,
    op: Op,
    a: &[i64],
    b: &[i64],
    c: &[i64],
) -> Result<Vec<i64>, KahnError>
    ensures ok { IfOk result (λ made. IsWholeList (spec.item_by_item (arity op) (table.op_value op) (a.now ∷ b.now ∷ c.now ∷ [])) made.items) }
    ensures limit { IfErr result (Overflows (spec.item_by_item (arity op) (table.op_value op) (a.now ∷ b.now ∷ c.now ∷ []))) }
{
    let mut made = Vec::new(alloc);
    for k in 0..shortest(op, a, b, c) {
        put(&mut made, op_value(op, item(a, k), item(b, k), item(c, k)))?;
    }
    Ok(made)
}
