// Whether a node is another one with its clocks written out.
ghost use Rattle.std.specs.Prelude.{◌≡◌, ◌≤◌, ◌+◌, ◌<◌, ◌^◌, ℕ, IsTrue, length, map, slice_get};
ghost use Rattle.lucy_place.specs.Standing.{most_places};
ghost use Rattle.lucy_place.specs.Proper.{IsPlace};
ghost use Rattle.lucy_freeze.specs.Frozen.{IsFrozenPlace, IsFrozenCall, IsFrozenNode};
ghost use Rattle.lucy_freeze.specs.Images.{renumbering_of, pair_of};

use crate::images::Images;
use crate::same::{Both, is_frozen_call, is_frozen_place, is_same_text};

// Whether each place stands in the frozen node.
fn are_frozen_places(images: &Images, both: Both<'_>) -> bool
    requires { length both.node.now.places ≤ most_places }
    ensures { IsTrue result → (place : ℕ) → IsPlace both.entry.node.now place → IsFrozenPlace (renumbering_of images.now) (pair_of both.entry) place }
{
    let count = both.node.places.list().len() as u32;
    'each: for i in 0..count {
        if !is_frozen_place(images, both, i + 1) {
            return false;
        }
    }
    true
}

// Whether each call does.
fn are_frozen_calls(images: &Images, both: Both<'_>) -> bool
    requires { length both.node.now.calls ≤ most_places }
    ensures { IsTrue result → (call : ℕ) → 1 ≤ call → call ≤ length both.entry.node.now.calls → IsFrozenCall (renumbering_of images.now) (pair_of both.entry) call }
{
    let count = both.node.calls.list().len() as u32;
    'each: for i in 0..count {
        if !is_frozen_call(images, both, i + 1) {
            return false;
        }
    }
    true
}

// Whether numbers are where others stand.
fn are_images(images: &Images, places: &[u32], frozen: &[u32]) -> bool
    ensures { IsTrue result → frozen.now ≡ map (renumbering_of images.now).place places.now }
{
    if frozen.len() != places.len() {
        return false;
    }
    'each: for i in 0..places.len() {
        if images.place(places[i]) != frozen[i] {
            return false;
        }
    }
    true
}

/// Whether a node is another one with its clocks written out, as these images tell.
pub(crate) fn is_frozen_node(images: &Images, both: Both<'_>) -> bool
    requires few { length both.node.now.places ≤ most_places }
    requires few_calls { length both.node.now.calls ≤ most_places }
    ensures { IsTrue result → IsFrozenNode (renumbering_of images.now) (pair_of both.entry) }
{
    is_same_text(both.frozen.name.text.bytes(), both.node.name.text.bytes())
        && both.frozen.params == both.node.params
        && are_images(images, both.node.results.list(), both.frozen.results.list())
        && are_frozen_places(images, both)
        && are_frozen_calls(images, both)
}
