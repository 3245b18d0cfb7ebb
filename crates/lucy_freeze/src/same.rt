// Whether a place or a call of a node says the same in another node.
ghost use Rattle.std.specs.Prelude.{◌≡◌, ◌≤◌, IsTrue, IfSome};
ghost use Rattle.lucy_place.specs.Proper.{at_one, bound_of, Stands};
ghost use Rattle.lucy_place.specs.declared.entry.PlaceKind.TheVariants.{Defined};
ghost use Rattle.lucy_need.specs.Meeting.{assigned};
ghost use Rattle.lucy_clock.specs.Clocks.{call_clock};
ghost use Rattle.lucy_freeze.specs.Frozen.{IsReadFor, AreReadFor, IsBufferFor, SaysSame, named, IsFrozenPlace, IsFrozenCall};
ghost use Rattle.lucy_freeze.specs.Images.{renumbering_of, pair_of};

use crate::images::{Images, entry_at, site_at};
use lucy_clock::NodeClock;
use lucy_place::{PlaceEntry, PlaceKind, PlacedNode};
use lucy_word::Word;

/// A node with its clocks, and the frozen node with its own.
#[derive(Clone, Copy)]
pub(crate) struct Both<'a> {
    pub node: &'a PlacedNode,
    pub clock: &'a NodeClock,
    pub frozen: &'a PlacedNode,
    pub frozen_clock: &'a NodeClock,
}

// Whether the place is a name that is defined by another.
fn is_defined_by(node: &PlacedNode, place: u32, right: u32) -> bool
    ensures { IsTrue result → Stands node.now place (Defined right) }
{
    let Some(entry) = entry_at(node, place) else {
        return false;
    };
    match &entry.kind {
        PlaceKind::Defined(own) => *own == right,
        _ => false,
    }
}

// Whether the frozen node reads a place where the node reads another.
fn is_read(images: &Images, both: Both<'_>, place: u32, read: u32) -> bool
    ensures { IsTrue result → IsReadFor (renumbering_of images.now) (pair_of both.entry) place read }
{
    let image = images.place(place);
    if read == image {
        return true;
    }
    is_defined_by(both.frozen, read, image)
}

// The same of places in a row.
fn are_read(images: &Images, both: Both<'_>, places: &[u32], reads: &[u32]) -> bool
    ensures { IsTrue result → AreReadFor (renumbering_of images.now) (pair_of both.entry) places.now reads.now }
{
    if reads.len() != places.len() {
        return false;
    }
    'each: for i in 0..places.len() {
        if !is_read(images, both, places[i], reads[i]) {
            return false;
        }
    }
    true
}

// The size of a buffer.
fn size_at(clock: &NodeClock, buffer: u32) -> Option<u64>
    ensures { result ≡ at_one clock.now.sizes buffer }
{
    let Some(index) = buffer.checked_sub(1) else {
        return None;
    };
    clock.sizes.list().get(index as usize).copied()
}

// The bound of a buffer, where one is written.
fn bound_at(node: &PlacedNode, buffer: u32) -> Option<u64>
    ensures { result ≡ bound_of node.now buffer }
{
    *node.bounds.list().get(buffer.checked_sub(1)? as usize)?
}

// Whether a buffer has the size and the bound of another.
fn is_same_buffer(both: Both<'_>, buffer: u32, frozen: u32) -> bool
    ensures { IsTrue result → IsBufferFor (pair_of both.entry) buffer frozen }
{
    let sizes = size_at(both.clock, buffer) == size_at(both.frozen_clock, frozen);
    let bounds = bound_at(both.node, buffer) == bound_at(both.frozen, frozen);
    sizes && bounds
}

// Whether a form that picks, delays or holds items, or a call's result, says the same as what stands at another place.
fn is_same_form(images: &Images, both: Both<'_>, kind: &PlaceKind, frozen: &PlaceKind) -> bool
    ensures { IsTrue result → SaysSame (renumbering_of images.now) (pair_of both.entry) kind.now frozen.now }
{
    match (kind, frozen) {
        (PlaceKind::When(e, word), PlaceKind::When(f, other)) => {
            is_read(images, both, *e, *f) && word.same(other)
        }
        (PlaceKind::Merge(word, a, b), PlaceKind::Merge(other, c, d)) => {
            word.same(other) && is_read(images, both, *a, *c) && is_read(images, both, *b, *d)
        }
        (PlaceKind::Fby(l, e), PlaceKind::Fby(m, f)) => *l == *m && is_read(images, both, *e, *f),
        (PlaceKind::Buffer(k, e), PlaceKind::Buffer(l, f)) => {
            is_read(images, both, *e, *f) && is_same_buffer(both, *k, *l)
        }
        (PlaceKind::Result(c, j), PlaceKind::Result(d, k)) => *d == images.call(*c) && *k == *j,
        _ => false,
    }
}

// Whether what stands at a place says the same as what stands at another.
fn says_same(images: &Images, both: Both<'_>, kind: &PlaceKind, frozen: &PlaceKind) -> bool
    ensures { IsTrue result → SaysSame (renumbering_of images.now) (pair_of both.entry) kind.now frozen.now }
{
    match (kind, frozen) {
        (PlaceKind::Param, PlaceKind::Param) => true,
        (PlaceKind::Defined(e), PlaceKind::Defined(f)) => is_read(images, both, *e, *f),
        (PlaceKind::Lit(l), PlaceKind::Lit(m)) => *l == *m,
        (PlaceKind::Op(op, es), PlaceKind::Op(other, fs)) => {
            *op == *other && are_read(images, both, es.list(), fs.list())
        }
        (PlaceKind::Host(op, a, b), PlaceKind::Host(other, c, d)) => {
            *op == *other && is_read(images, both, *a, *c) && is_read(images, both, *b, *d)
        }
        _ => is_same_form(images, both, kind, frozen),
    }
}

// Whether clocks have one word.
fn are_on_one_word(words: &[Word], clock: u32, others: &[Word], other: u32) -> bool
    ensures { IsTrue result → assigned words.now clock ≡ assigned others.now other }
{
    let Some(word) = words.get(clock as usize) else {
        return false;
    };
    let Some(twin) = others.get(other as usize) else {
        return false;
    };
    word.same(twin)
}

// Whether texts have the same bytes.
pub(crate) fn is_same_text(text: &[u8], other: &[u8]) -> bool
    ensures { IsTrue result → text.now ≡ other.now }
{
    text == other
}

// Whether places have one name, or none.
fn is_named_alike(entry: &PlaceEntry, twin: &PlaceEntry) -> bool
    ensures { IsTrue result → named twin.now ≡ named entry.now }
{
    match (&entry.name, &twin.name) {
        (Some(name), Some(other)) => is_same_text(other.text.bytes(), name.text.bytes()),
        (None, None) => true,
        _ => false,
    }
}

// Whether places have one type, or none that is written.
fn is_typed_alike(entry: &PlaceEntry, twin: &PlaceEntry) -> bool
    ensures { IsTrue result → twin.now.holds ≡ entry.now.holds }
{
    match (entry.holds, twin.holds) {
        (Some(holds), Some(other)) => other == holds,
        (None, None) => true,
        _ => false,
    }
}

// Whether a place of the node says what a place of the frozen one does.
fn is_alike(images: &Images, both: Both<'_>, entry: &PlaceEntry, twin: &PlaceEntry) -> bool
    ensures name { IsTrue result → named twin.now ≡ named entry.now }
    ensures holds { IsTrue result → twin.now.holds ≡ entry.now.holds }
    ensures says { IsTrue result → SaysSame (renumbering_of images.now) (pair_of both.entry) entry.now.kind twin.now.kind }
{
    is_named_alike(entry, twin)
        && is_typed_alike(entry, twin)
        && says_same(images, both, &entry.kind, &twin.kind)
}

// Whether the places have one word, and a parameter stands at its own number.
fn is_placed_alike(images: &Images, both: Both<'_>, place: u32) -> bool
    ensures word { IsTrue result → assigned both.entry.clock.now.words place ≡ assigned both.entry.frozen_clock.now.words ((renumbering_of images.now).place place) }
    ensures given { IsTrue result → place ≤ both.entry.node.now.params → (renumbering_of images.now).place place ≡ place }
{
    let image = images.place(place);
    if image != place && place <= both.node.params {
        return false;
    }
    are_on_one_word(
        both.clock.words.list(),
        place,
        both.frozen_clock.words.list(),
        image,
    )
}

/// Whether a place stands in the frozen node, as these images tell.
pub(crate) fn is_frozen_place(images: &Images, both: Both<'_>, place: u32) -> bool
    ensures { IsTrue result → IsFrozenPlace (renumbering_of images.now) (pair_of both.entry) place }
{
    let Some(entry) = entry_at(both.node, place) else {
        return false;
    };
    let Some(twin) = entry_at(both.frozen, images.place(place)) else {
        return false;
    };
    is_alike(images, both, entry, twin) && is_placed_alike(images, both, place)
}

// The clock of a call's base.
fn base_of(node: &PlacedNode, call: u32) -> Option<u32>
    ensures { IfSome result (λ clock. clock ≡ call_clock node.now call) }
{
    let Ok(places) = u32::try_from(node.places.list().len()) else {
        return None;
    };
    places.checked_add(call)
}

// Whether the bases of calls have one word.
fn is_based_alike(both: Both<'_>, call: u32, frozen: u32) -> bool
    ensures { IsTrue result → assigned both.entry.clock.now.words (call_clock both.entry.node.now call) ≡ assigned both.entry.frozen_clock.now.words (call_clock both.entry.frozen.now frozen) }
{
    let Some(base) = base_of(both.node, call) else {
        return false;
    };
    let Some(other) = base_of(both.frozen, frozen) else {
        return false;
    };
    are_on_one_word(
        both.clock.words.list(),
        base,
        both.frozen_clock.words.list(),
        other,
    )
}

/// Whether a call stands in the frozen node, as these images tell.
pub(crate) fn is_frozen_call(images: &Images, both: Both<'_>, call: u32) -> bool
    ensures { IsTrue result → IsFrozenCall (renumbering_of images.now) (pair_of both.entry) call }
{
    let image = images.call(call);
    let Some(site) = site_at(both.node, call) else {
        return false;
    };
    let Some(twin) = site_at(both.frozen, image) else {
        return false;
    };
    twin.node == site.node
        && are_read(images, both, site.args.list(), twin.args.list())
        && is_based_alike(both, call, image)
}
