// Lists the needs of a node, place by place.
ghost use Rattle.std.specs.Prelude.{ℕ, ◌≡◌, ◌++◌, ◌+◌, ◌≤◌, ◌<◌, ◌^◌, Some, length, slice_get, IfOk, IfErr, OnOk};
ghost use Rattle.lucy_place.specs.Proper.{at_one, IsProperKind, IsProperNode, IsPlace};
ghost use Rattle.lucy_place.specs.declared.placed.PlacedNode.{PlacedNode as Node};
ghost use Rattle.lucy_place.specs.declared.entry.PlaceEntry.{PlaceEntry as Entry};
ghost use Rattle.lucy_place.specs.declared.entry.PlaceKind.TheVariants as kind;
ghost use Rattle.lucy_clock.specs.Clocks.{AreSignatures, call_clock};
ghost use Rattle.lucy_clock.specs.Listing.{word_needs, operand_needs, argument_needs, result_needs, call_needs, site_needs, kind_needs, place_needs, needs_of};
ghost use Rattle.lucy_clock.specs.Drafts.{IsPast, IsListedSite, IsListedCall, IsListedBuffer, IsListedKind, IsListedNode};

use crate::draft::{Drafts, alone, on_delayed};
use crate::error::ClockError;
use crate::signature::Signature;
use lucy_place::{CallSite, PlaceEntry, PlaceKind, PlacedNode};
use lucy_word::Word;
use std::alloc::Global;

/// What the needs of a node are listed from: the node, and the signatures of those above it.
#[derive(Clone, Copy)]
pub(crate) struct Listing<'p> {
    pub node: &'p PlacedNode,
    pub above: &'p [Signature],
}

// Puts that a clock is the base on a word, where it is written.
fn put_word<'p>(
    drafts: &mut Drafts<'p>,
    clock: u32,
    word: &'p Option<Word>,
) -> Result<(), ClockError>
    ensures ok { OnOk result (drafts.new ≡ drafts.old ++ word_needs clock word.now) }
    ensures refused { IfErr result (IsPast (drafts.old ++ word_needs clock word.now)) }
{
    match word {
        Some(word) => drafts.on(clock, 0, word),
        None => Ok(()),
    }
}

// Puts that each argument is the base on the word of its parameter.
fn put_arguments<'p>(
    drafts: &mut Drafts<'p>,
    base: u32,
    args: &'p [u32],
    words: &'p [Word],
) -> Result<(), ClockError>
    requires { length args.now ≡ length words.now }
    ensures ok { OnOk result (drafts.new ≡ drafts.old ++ argument_needs base args.now words.now) }
    ensures refused { IfErr result (IsPast (drafts.old ++ argument_needs base args.now words.now)) }
{
    'each: for (i, arg) in args.iter().enumerate() {
        drafts.on(*arg, base, &words[i])?;
    }
    Ok(())
}

// Puts that each result, from a place on, is the base on its word.
fn put_results<'p>(
    drafts: &mut Drafts<'p>,
    base: u32,
    place: u32,
    words: &'p [Word],
) -> Result<(), ClockError>
    requires { place + length words.now < 2 ^ 32 }
    ensures ok { OnOk result (drafts.new ≡ drafts.old ++ result_needs base place words.now) }
    ensures refused { IfErr result (IsPast (drafts.old ++ result_needs base place words.now)) }
{
    'each: for (i, word) in words.iter().enumerate() {
        drafts.on(place + i as u32, base, word)?;
    }
    Ok(())
}

// Puts that the place and each of the operands have the same clock.
fn put_operands(drafts: &mut Drafts<'_>, place: u32, args: &[u32]) -> Result<(), ClockError>
    ensures ok { OnOk result (drafts.new ≡ drafts.old ++ operand_needs place args.now) }
    ensures refused { IfErr result (IsPast (drafts.old ++ operand_needs place args.now)) }
{
    'each: for arg in args {
        drafts.same(place, *arg)?;
    }
    Ok(())
}

// Puts the needs of a call whose first result stands at a place.
fn put_site<'p>(
    drafts: &mut Drafts<'p>,
    listing: Listing<'p>,
    base: u32,
    place: u32,
    site: &'p CallSite,
) -> Result<(), ClockError>
    requires { IsListedSite listing.above.now site.now place }
    ensures ok { OnOk result (drafts.new ≡ drafts.old ++ site_needs listing.entry.above.now base place (Some site.now)) }
    ensures refused { IfErr result (IsPast (drafts.old ++ site_needs listing.entry.above.now base place (Some site.now))) }
{
    let callee = &listing.above[site.node as usize];
    put_word(drafts, base, &site.at)?;
    put_arguments(drafts, base, site.args.list(), callee.params.list())?;
    put_results(drafts, base, place, callee.results.list())
}

// Puts the needs of a call at its first result.
fn put_call<'p>(
    drafts: &mut Drafts<'p>,
    listing: Listing<'p>,
    place: u32,
    call: u32,
    number: u32,
) -> Result<(), ClockError>
    requires { number ≡ 0 → IsListedCall listing.above.now listing.node.now call place }
    ensures ok { OnOk result (drafts.new ≡ drafts.old ++ call_needs listing.entry.above.now listing.entry.node.now place call number) }
    ensures refused { IfErr result (IsPast (drafts.old ++ call_needs listing.entry.above.now listing.entry.node.now place call number)) }
{
    if number > 0 {
        return Ok(());
    }
    let site = &listing.node.calls.list()[call as usize - 1];
    let base = listing.node.places.list().len() as u32 + call;
    put_site(drafts, listing, base, place, site)
}

// Puts the needs of the buffer of a number: that its reader may follow its writer, and that its bound is kept, where one is
// written.
fn put_buffer<'p>(
    drafts: &mut Drafts<'p>,
    listing: Listing<'p>,
    place: u32,
    number: u32,
    operand: u32,
) -> Result<(), ClockError>
    requires { IsListedBuffer listing.node.now number }
    ensures ok { OnOk result (drafts.new ≡ drafts.old ++ kind_needs listing.entry.above.now listing.entry.node.now place (kind.Buffer number operand)) }
    ensures refused { IfErr result (IsPast (drafts.old ++ kind_needs listing.entry.above.now listing.entry.node.now place (kind.Buffer number operand))) }
{
    let read = alone(place);
    drafts.adapt(alone(operand), read)?;
    match listing.node.bounds.list()[number as usize - 1] {
        Some(most) => drafts.adapt(read, on_delayed(operand, most)),
        None => Ok(()),
    }
}

// Puts the needs of what stands at a place.
fn put_kind<'p>(
    drafts: &mut Drafts<'p>,
    listing: Listing<'p>,
    place: u32,
    kind: &'p PlaceKind,
) -> Result<(), ClockError>
    requires { IsListedKind listing.above.now listing.node.now place kind.now }
    ensures ok { OnOk result (drafts.new ≡ drafts.old ++ kind_needs listing.entry.above.now listing.entry.node.now place kind.now) }
    ensures refused { IfErr result (IsPast (drafts.old ++ kind_needs listing.entry.above.now listing.entry.node.now place kind.now)) }
{
    match kind {
        PlaceKind::Param => Ok(()),
        PlaceKind::Defined(right) => drafts.same(place, *right),
        PlaceKind::Lit(_) => Ok(()),
        PlaceKind::Op(_, args) => put_operands(drafts, place, args.list()),
        PlaceKind::Host(_, first, second) => put_operands(drafts, place, &[*first, *second]),
        PlaceKind::When(operand, word) => drafts.on(place, *operand, word),
        PlaceKind::Merge(word, one, zero) => {
            drafts.on(*one, place, word)?;
            drafts.on_turned(*zero, place, word)
        }
        PlaceKind::Fby(_, operand) => drafts.same(place, *operand),
        PlaceKind::Buffer(number, operand) => put_buffer(drafts, listing, place, *number, *operand),
        PlaceKind::Result(call, number) => put_call(drafts, listing, place, *call, *number),
    }
}

// Puts the needs of a place.
fn put_place<'p>(
    drafts: &mut Drafts<'p>,
    listing: Listing<'p>,
    place: u32,
    entry: &'p PlaceEntry,
) -> Result<(), ClockError>
    requires { IsListedKind listing.above.now listing.node.now place entry.now.kind }
    ensures ok { OnOk result (drafts.new ≡ drafts.old ++ place_needs listing.entry.above.now listing.entry.node.now place entry.now) }
    ensures refused { IfErr result (IsPast (drafts.old ++ place_needs listing.entry.above.now listing.entry.node.now place entry.now)) }
{
    put_word(drafts, place, &entry.word)?;
    put_kind(drafts, listing, place, &entry.kind)
}

/// The needs of the node, in order of its places.
pub(crate) fn list_needs<'p>(alloc: Global, listing: Listing<'p>) -> Result<Drafts<'p>, ClockError>
    requires { IsListedNode listing.above.now listing.node.now }
    ensures ok { IfOk result (λ drafts. drafts ≡ needs_of listing.entry.above.now listing.entry.node.now) }
    ensures refused { IfErr result (IsPast (needs_of listing.entry.above.now listing.entry.node.now)) }
{
    let places = listing.node.places.list();
    let mut drafts = Drafts::new(alloc);
    'each: for (i, entry) in places.iter().enumerate() {
        put_place(&mut drafts, listing, i as u32 + 1, entry)?;
    }
    Ok(drafts)
}
