// The lists of places that read in their own instance.
ghost use Rattle.std.specs.Prelude.{◌≡◌, ◌<◌, ◌^◌, ◌-◌, ◌∷◌, [], map, length, IfOk, IfErr};
ghost use Rattle.lucy_host.specs.Host.{Serves, lent};
ghost use Rattle.lucy_host.specs.Operators.{kinds_of};
ghost use Rattle.lucy_stream.specs.Items.{list_at};
ghost use Rattle.lucy_place.specs.Reads.{operands_of};
ghost use Rattle.lucy_kahn.specs.Outcomes.{IsWholeList, Overflows};
ghost use Rattle.lucy_kahn.specs.Turns as spec;
ghost use Rattle.lucy_kahn.specs.Turns.{AreShort, AreThere, HasItsOperands, own_at};

use crate::error::KahnError;
use crate::hosting::hosted;
use crate::lists::{copied, delayed, kept, repeated};
use crate::merging::merged;
use crate::pointwise::pointwise;
use crate::streams::Lists;
use lucy_host::Host;
use lucy_place::{PlaceKind, literal_value};
use std::alloc::Global;

// The list of an operand, and an empty one where there is no such operand.
fn operand<'a>(own: &'a Lists, places: &[u32], operand: usize) -> &'a [i64]
    requires { AreThere own.now places.now }
    ensures { result.now ≡ list_at (map (own_at own.now) places.now) operand }
{
    match places.get(operand) {
        Some(place) => own.at(*place),
        None => &[],
    }
}

// The list of a place that is there.
fn read(own: &Lists, place: u32) -> &[i64]
    requires { AreThere own.now (place ∷ []) }
    ensures { result.now ≡ own_at own.now place }
{
    own.at(place)
}

/// The list of a place in the iterate behind this one, made of the lists of its instance in this one. Parameters and results
/// of calls read elsewhere, and have none here.
pub(crate) fn own_list<F: Fn(u32, i64, i64) -> i64 + Sync>(
    alloc: Global,
    host: &Host<F>,
    number: u64,
    own: &Lists,
    kind: &PlaceKind,
) -> Result<Vec<i64>, KahnError>
    requires serves { Serves F.pre F.post host.now }
    requires number { number < 2 ^ 64 - 1 }
    requires short { AreShort own.now }
    requires there { AreThere own.now (operands_of kind.now) }
    requires applied { HasItsOperands (length (lent host.now)) kind.now }
    ensures ok { IfOk result (λ made. IsWholeList (spec.own_list (kinds_of (lent host.now)) number own.now kind.now) made.items) }
    ensures limit { IfErr result (Overflows (spec.own_list (kinds_of (lent host.now)) number own.now kind.now)) }
{
    match kind {
        PlaceKind::Lit(lit) => repeated(alloc, number + 1, literal_value(*lit)),
        PlaceKind::Defined(e) => copied(alloc, read(own, *e)),
        PlaceKind::Buffer(_, e) => copied(alloc, read(own, *e)),
        PlaceKind::Op(op, args) => {
            let args = args.list();
            let a = operand(own, args, 0);
            let b = operand(own, args, 1);
            let c = operand(own, args, 2);
            pointwise(alloc, *op, a, b, c)
        }
        PlaceKind::Host(op, a, b) => hosted(alloc, host, *op, read(own, *a), read(own, *b)),
        PlaceKind::When(e, word) => kept(alloc, word, read(own, *e)),
        PlaceKind::Merge(word, a, b) => merged(alloc, word, read(own, *a), read(own, *b)),
        PlaceKind::Fby(lit, e) => delayed(alloc, literal_value(*lit), read(own, *e)),
        PlaceKind::Param | PlaceKind::Result(_, _) => Ok(Vec::new(alloc)),
    }
}
