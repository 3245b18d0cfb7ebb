// Where the places and the calls of a node stand in another one.
ghost use Rattle.std.specs.Prelude.{◌≡◌};
ghost use Rattle.std.specs.Option.{option_map};
ghost use Rattle.lucy_place.specs.Standing.{at_one};
ghost use Rattle.lucy_freeze.specs.Images.{renumbering_of};

use lucy_place::{CallSite, PlaceEntry, PlacedNode};

/// By the number of a place, and of a call, where it stands in the frozen node, each from 1: 0, where that isn't known.
#[derive(Drop)]
pub(crate) struct Images {
    pub places: Vec<u32>,
    pub calls: Vec<u32>,
}

impl Images {
    /// Where a place stands.
    pub(crate) fn place(&self, place: u32) -> u32
        ensures { result ≡ (renumbering_of self.now).place place }
    {
        self.places.get(place as usize).copied().unwrap_or(0)
    }

    /// Where a call stands.
    pub(crate) fn call(&self, call: u32) -> u32
        ensures { result ≡ (renumbering_of self.now).call call }
    {
        self.calls.get(call as usize).copied().unwrap_or(0)
    }
}

/// What is known of a place of a node.
pub(crate) fn entry_at(node: &PlacedNode, place: u32) -> Option<&PlaceEntry>
    ensures { option_map (λ entry. entry.now) result ≡ at_one node.now.places place }
{
    let Some(index) = place.checked_sub(1) else {
        return None;
    };
    node.places.list().get(index as usize)
}

/// What is known of a call of a node.
pub(crate) fn site_at(node: &PlacedNode, call: u32) -> Option<&CallSite>
    ensures { option_map (λ site. site.now) result ≡ at_one node.now.calls call }
{
    let Some(index) = call.checked_sub(1) else {
        return None;
    };
    node.calls.list().get(index as usize)
}
