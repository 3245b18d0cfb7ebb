// The rules of a node's places.
ghost use Rattle.std.specs.Prelude.{◌≡◌, ◌++◌, ◌≤◌, ◌<◌, ◌^◌, length, OnOk};
ghost use Rattle.lucy_types.specs.Rules.{lit_type, kind_rules, place_rules, written_rules};
ghost use Rattle.lucy_types.specs.Gathered.{HasArity, HaveArities, own_rules};

use crate::operators::put_op;
use crate::rule::{Rule, put_rules};
use lucy_host::DataType;
use lucy_place::{PlaceEntry, PlaceKind};
use lucy_tree::Lit;
use std::alloc::AllocError;

fn lit_type(lit: Lit) -> DataType
    ensures { result ≡ lit_type lit }
{
    match lit {
        Lit::Int(_) => DataType::Int,
        Lit::Bool(_) => DataType::Bool,
    }
}

// Puts the rule of a type that is written at a place.
fn put_written(rules: &mut Vec<Rule>, place: u32, holds: Option<DataType>) -> Result<(), AllocError>
    ensures { OnOk result (rules.new.items ≡ rules.old.items ++ written_rules place holds) }
{
    if let Some(of) = holds {
        rules.push(Rule::Is(place, of))?;
    }
    Ok(())
}

// Puts the rules of what stands at a place.
fn put_kind(rules: &mut Vec<Rule>, place: u32, kind: &PlaceKind) -> Result<(), AllocError>
    requires { HasArity kind.now }
    ensures { OnOk result (rules.new.items ≡ rules.old.items ++ kind_rules place kind.now) }
{
    match kind {
        PlaceKind::Param => Ok(()),
        PlaceKind::Defined(right) => put_rules(rules, &[Rule::Alike(place, *right)]),
        PlaceKind::Lit(lit) => put_rules(rules, &[Rule::Is(place, lit_type(*lit))]),
        PlaceKind::Op(op, args) => put_op(rules, *op, place, args.list()),
        PlaceKind::Host(_, first, second) => put_rules(
            rules,
            &[
                Rule::Is(*first, DataType::Int),
                Rule::Is(*second, DataType::Int),
                Rule::Is(place, DataType::Int),
            ],
        ),
        PlaceKind::When(operand, _) => put_rules(rules, &[Rule::Alike(place, *operand)]),
        PlaceKind::Merge(_, one, zero) => put_rules(
            rules,
            &[Rule::Alike(place, *one), Rule::Alike(place, *zero)],
        ),
        PlaceKind::Fby(first, operand) => put_rules(
            rules,
            &[
                Rule::Alike(place, *operand),
                Rule::Is(place, lit_type(*first)),
            ],
        ),
        PlaceKind::Buffer(_, operand) => put_rules(rules, &[Rule::Alike(place, *operand)]),
        PlaceKind::Result(_, _) => Ok(()),
    }
}

// Puts the rules of a place.
fn put_place(rules: &mut Vec<Rule>, place: u32, entry: &PlaceEntry) -> Result<(), AllocError>
    requires { HasArity entry.now.kind }
    ensures { OnOk result (rules.new.items ≡ rules.old.items ++ place_rules place entry.now) }
{
    put_written(rules, place, entry.holds)?;
    put_kind(rules, place, &entry.kind)
}

/// Puts the rules of places, the first of which is 1, behind others.
pub(crate) fn put_own(rules: &mut Vec<Rule>, places: &[PlaceEntry]) -> Result<(), AllocError>
    requires few { length places.now < 2 ^ 32 }
    requires arities { HaveArities places.now }
    ensures { OnOk result (rules.new.items ≡ rules.old.items ++ own_rules 1 places.now) }
{
    'each: for (i, entry) in places.iter().enumerate() {
        put_place(rules, i as u32 + 1, entry)?;
    }
    Ok(())
}
