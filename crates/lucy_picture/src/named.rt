// The places that a chronogram shows.
ghost use Rattle.std.specs.Prelude.{◌≡◌, ◌≤◌, ◌∷◌, ◌++◌, [], length, IfOk, OnOk};
ghost use Rattle.lucy_place.specs.Standing.{most_places};
ghost use Rattle.lucy_picture.specs.Charts.{if_named, named_places};

use lucy_place::PlacedNode;
use lucy_tree::Name;
use std::alloc::{AllocError, Global};

/// One more place.
pub(crate) fn push(places: &mut Vec<u32>, place: u32) -> Result<(), AllocError>
    ensures { OnOk result (places.new.items ≡ places.old.items ++ place ∷ []) }
{
    places.push(place)?;
    Ok(())
}

// The number of a place, where it has a name.
fn put_named(name: &Option<Name>, place: u32, places: &mut Vec<u32>) -> Result<(), AllocError>
    ensures { OnOk result (places.new.items ≡ places.old.items ++ if_named place name.now) }
{
    match name {
        None => Ok(()),
        Some(_) => push(places, place),
    }
}

/// The streams of a node: its places with names, in order.
pub(crate) fn named_places(alloc: Global, node: &PlacedNode) -> Result<Vec<u32>, AllocError>
    requires { length node.now.places ≤ most_places }
    ensures { IfOk result (λ v. v.items ≡ named_places node.now) }
{
    let mut places = Vec::new(alloc);
    'each: for (i, entry) in node.places.list().iter().enumerate() {
        put_named(&entry.name, i as u32 + 1, &mut places)?;
    }
    Ok(places)
}
