// The types of a program's places.
ghost use Rattle.std.specs.Prelude.{◌≡◌, ◌⊎◌, ℕ, List, Err, IfOk, IfErr, IsOk, ◌<◌, ◌≤◌, length, Some, ◌-◌};
ghost use Rattle.std.specs.Option.{option_map};
ghost use Rattle.lucy_types.specs.declared.ty.Ty.{Ty};
ghost use Rattle.lucy_types.specs.declared.error.TypeError.TheVariants as error;
ghost use Rattle.lucy_types.specs.Programs.{IsTyped, HaveTypings, IsClash, RefusesTypes, AnswersTypes, AnswersClash};
ghost use Rattle.lucy_types.specs.Tables.{table_at, ty_at, held};

use lucy_host::DataType;
use lucy_place::Placed;
use lucy_types::{Ty, TypeError, Typed};
use std::alloc::Global;

/// Pins `lucy_types::types`.
pub fn types(alloc: Global, placed: &Placed) -> Result<Typed, TypeError>
    ensures ok { IfOk result (λ typed. IsTyped placed.now.nodes typed) }
    ensures refused { IfErr result (λ e. RefusesTypes placed.now.nodes e) }
    ensures well_typed { IsOk result → HaveTypings placed.now.nodes }
    ensures typable { HaveTypings placed.now.nodes → (result ≡ Err error.OutOfMemory) ⊎ IsOk result }
    ensures accepted { (tables : List (List Ty)) → IsTyped placed.now.nodes tables → AnswersTypes tables result }
    ensures rejected { (node : ℕ) (path : List ℕ) → IsClash placed.now.nodes node path → AnswersClash node result }
{
    lucy_types::types(alloc, placed)
}

/// Pins `lucy_types::Typed::at`.
pub fn type_at(typed: &Typed, node: u32, place: u32) -> Ty
    requires node { node < length typed.now }
    requires first { 1 ≤ place }
    requires last { place ≤ length (table_at typed.now node) }
    ensures { ty_at typed.now node place ≡ Some result }
{
    typed.at(node, place)
}

/// Pins `lucy_types::Typed::main_holds`.
pub fn main_holds(typed: &Typed, place: u32) -> DataType
    requires main { 0 < length typed.now }
    requires first { 1 ≤ place }
    requires last { place ≤ length (table_at typed.now (length typed.now - 1)) }
    ensures { option_map held (ty_at typed.now (length typed.now - 1) place) ≡ Some result }
{
    typed.main_holds(place)
}
