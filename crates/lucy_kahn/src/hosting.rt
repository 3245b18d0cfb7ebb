// The lists of operators of the host, item by item.
ghost use Rattle.std.specs.Prelude.{◌≡◌, ◌<◌, ◌∷◌, [], length, IfOk, IfErr};
ghost use Rattle.lucy_host.specs.Host.{Serves, lent};
ghost use Rattle.lucy_host.specs.HostValue.{hosted_value};
ghost use Rattle.lucy_host.specs.Operators.{kinds_of};
ghost use Rattle.lucy_stream.specs.Lists as spec;
ghost use Rattle.lucy_kahn.specs.Outcomes.{IsWholeList, Overflows};

use crate::error::KahnError;
use crate::grow::put;
use crate::pointwise::item;
use lucy_host::Host;
use std::alloc::Global;

/// The values of an operator of the host, as many as its shorter operand has items.
pub(crate) fn hosted<F: Fn(u32, i64, i64) -> i64 + Sync>(
    alloc: Global,
    host: &Host<F>,
    op: u32,
    a: &[i64],
    b: &[i64],
) -> Result<Vec<i64>, KahnError>
    requires serves { Serves F.pre F.post host.now }
    requires known { op < length (lent host.now) }
    ensures ok { IfOk result (λ made. IsWholeList (spec.item_by_item 2 (λ x y z. hosted_value (kinds_of (lent host.now)) op x y) (a.now ∷ b.now ∷ [])) made.items) }
    ensures limit { IfErr result (Overflows (spec.item_by_item 2 (λ x y z. hosted_value (kinds_of (lent host.now)) op x y) (a.now ∷ b.now ∷ []))) }
{
    let mut made = Vec::new(alloc);
    for k in 0..a.len().min(b.len()) {
        put(&mut made, host.call(op, item(a, k), item(b, k)))?;
    }
    Ok(made)
}
