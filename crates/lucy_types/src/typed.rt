// Programs with types.
ghost use Rattle.std.specs.Prelude.{◌≡◌, ◌-◌, ◌<◌, ◌≤◌, length, Some};
ghost use Rattle.std.specs.Option.{option_map};
ghost use Rattle.lucy_types.specs.Tables.{table_at, ty_at, held};

use crate::signature::Signature;
use crate::ty::Ty;
use lucy_host::DataType;
use std::marker::Model;

/// The types of a program's places. Contracts see, node by node, the list of the types of its places.
#[derive(Drop)]
pub struct Typed {
    pub(crate) nodes: Vec<Signature>,
}

impl Model for Typed {
    ghost use Rattle.std.specs.Prelude.{List};
    ghost use Rattle.lucy_types.specs.declared.ty.Ty.{Ty};
    ghost use Rattle.lucy_types.specs.Nodes.{tables_of};

    ghost Value = { List (List Ty) };

    ghost view = { λ typed. tables_of typed.nodes.items };
}

impl Typed {
    // The type of a place.
    fn type_at(&self, node: usize, place: u32) -> Ty
        requires node { node < length self.now }
        requires first { 1 ≤ place }
        requires last { place ≤ length (table_at self.now node) }
        ensures { ty_at self.now node place ≡ Some result }
    {
        self.nodes[node].tys[place as usize - 1]
    }

    /// The type of a place. Nodes count from 0, places from 1.
    pub fn at(&self, node: u32, place: u32) -> Ty
        requires node { node < length self.now }
        requires first { 1 ≤ place }
        requires last { place ≤ length (table_at self.now node) }
        ensures { ty_at self.now node place ≡ Some result }
    {
        self.type_at(node as usize, place)
    }

    /// The type of the values of a place of the last node, which is main: int where the place is open.
    pub fn main_holds(&self, place: u32) -> DataType
        requires main { 0 < length self.now }
        requires first { 1 ≤ place }
        requires last { place ≤ length (table_at self.now (length self.now - 1)) }
        ensures { option_map held (ty_at self.now (length self.now - 1) place) ≡ Some result }
    {
        match self.type_at(self.nodes.len() - 1, place) {
            Ty::Int => DataType::Int,
            Ty::Bool => DataType::Bool,
            Ty::Open(_) => DataType::Int,
        }
    }
}
