// The places of a node as they are drawn.
ghost use Rattle.std.specs.Prelude.{◌≡◌, ◌<◌, ◌≤◌, ◌∷◌, ◌++◌, [], Some, length, slice_get, IfOk, OnOk};
ghost use Rattle.lucy_place.specs.Standing.{most_places};
ghost use Rattle.lucy_diagram.specs.Diagrams.{figure_of, drawn_places};

use lucy_place::{PlaceKind, PlacedNode};
use std::alloc::{AllocError, Global};

/// As what a place is drawn.
#[derive(Clone, Copy)]
pub enum Figure {
    /// A parameter of the node.
    Parameter,
    /// A defined name.
    Name,
    Literal,
    /// An operator of the language or of the host.
    Operator,
    /// `when` or `whenot`.
    Sampling,
    Merge,
    /// `fby`.
    Delay,
    Buffer,
    /// A result of a call.
    CallResult,
}

/// A place, by its number from 1.
#[derive(Clone, Copy)]
pub struct DrawnPlace {
    pub place: u32,
    pub figure: Figure,
}

// As what a place of a kind is drawn.
fn figure_of(kind: &PlaceKind) -> Figure
    ensures { result ≡ figure_of kind.now }
{
    match kind {
        PlaceKind::Param => Figure::Parameter,
        PlaceKind::Defined(_) => Figure::Name,
        PlaceKind::Lit(_) => Figure::Literal,
        PlaceKind::Op(_, _) => Figure::Operator,
        PlaceKind::Host(_, _, _) => Figure::Operator,
        PlaceKind::When(_, _) => Figure::Sampling,
        PlaceKind::Merge(_, _, _) => Figure::Merge,
        PlaceKind::Fby(_, _) => Figure::Delay,
        PlaceKind::Buffer(_, _) => Figure::Buffer,
        PlaceKind::Result(_, _) => Figure::CallResult,
    }
}

/// The places of a node, in order.
pub fn places(alloc: Global, node: &PlacedNode) -> Result<Vec<DrawnPlace>, AllocError>
    requires { length node.now.places ≤ most_places }
    ensures { IfOk result (λ v. v.items ≡ drawn_places node.now) }
{
    let mut places = Vec::new(alloc);
    'each: for (i, entry) in node.places.list().iter().enumerate() {
        let place = i as u32 + 1;
        let figure = figure_of(&entry.kind);
        places.push(DrawnPlace { place, figure })?;
    }
    Ok(places)
}
