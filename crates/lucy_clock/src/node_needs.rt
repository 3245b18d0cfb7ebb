// The needs of a node as a list of its own.
ghost use Rattle.std.specs.Prelude.{◌≡◌, ◌⊎◌, ◌+◌, ◌<◌, ◌≤◌, ◌^◌, Some, length, take, map, slice_get, IfOk, IfErr};
ghost use Rattle.std.specs.List.{AllByRecursion};
ghost use Rattle.lucy_word.specs.declared.limit.Limit.TheVariants as lim;
ghost use Rattle.lucy_word.specs.Limits.{limit_number};
ghost use Rattle.lucy_word.specs.Stored.{IsStored};
ghost use Rattle.lucy_place.specs.declared.placed.PlacedNode.{PlacedNode as Node};
ghost use Rattle.lucy_need.specs.Meeting.{all_bits, most_needs, AreProperNeeds};
ghost use Rattle.lucy_need.specs.Stored.{HasWords};
ghost use Rattle.lucy_clock.specs.declared.error.ClockError.{ClockError as Fault};
ghost use Rattle.lucy_clock.specs.Clocks.{AreSignatures, clocks_of};
ghost use Rattle.lucy_clock.specs.Listing.{needs_of, RefusesNeeds};
ghost use Rattle.lucy_clock.specs.Drafts.{seen, side_term, IsListedNode};

use crate::draft::Drafts;
use crate::error::ClockError;
use crate::listing::{Listing, list_needs};
use crate::side::{Draft, Factor, Side};
use crate::signature::Signature;
use lucy_need::{Need, NeedList, Needs, Term};
use lucy_place::{Placed, PlacedNode};
use lucy_word::{Limit, Word, delayed, turned};
use std::alloc::{AllocError, Global};

// The word of a side, as one of its own.
fn word(alloc: Global, side: &Side<'_>) -> Result<Word, AllocError>
    ensures ok { IfOk result (λ w. w ≡ (side_term side.now).word) }
    ensures stored { IfOk result IsStored }
{
    match side.factor {
        Factor::Lent(word) => word.copy(alloc),
        Factor::Turned(word) => turned(alloc, word),
        Factor::Delayed(zeros) => delayed(alloc, zeros),
    }
}

// The term of a side.
fn term(alloc: Global, side: &Side<'_>) -> Result<Term, AllocError>
    ensures ok { IfOk result (λ t. t ≡ side_term side.now) }
    ensures stored { IfOk result (λ t. IsStored t.word) }
{
    Ok(Term {
        clock: side.clock,
        word: word(alloc, side)?,
    })
}

// The need of a draft.
fn need(alloc: Global, draft: &Draft<'_>) -> Result<Need, AllocError>
    ensures ok { IfOk result (λ n. n ≡ seen draft.now) }
    ensures words { IfOk result HasWords }
{
    let left = term(alloc, &draft.left)?;
    let right = term(alloc, &draft.right)?;
    if draft.adapt {
        Ok(Need::Adapt(left, right))
    } else {
        Ok(Need::Equal(left, right))
    }
}

// The needs of drafts.
fn need_list(alloc: Global, drafts: &[Draft<'_>]) -> Result<Vec<Need>, AllocError>
    ensures ok { IfOk result (λ v. v.items ≡ map seen drafts.now) }
    ensures words { IfOk result (λ v. AllByRecursion HasWords v.items) }
{
    let mut list = Vec::new(alloc);
    'each: for draft in drafts {
        list.push(need(alloc, draft)?)?;
    }
    Ok(list)
}

// The needs that drafts stand for, unless their words have together more bits than are allowed; no word is copied before.
fn stored_needs(alloc: Global, drafts: &Drafts<'_>) -> Result<NeedList, ClockError>
    ensures ok { IfOk result (λ list. list ≡ drafts.now) }
    ensures few { IfOk result (λ _. length drafts.now ≤ most_needs) }
    ensures bits { IfOk result (λ _. all_bits drafts.now ≤ limit_number lim.Bits) }
    ensures refused { IfErr result (RefusesNeeds drafts.now) }
{
    if drafts.bits() > Limit::Bits.number() {
        return Err(ClockError::Limit(Limit::Bits));
    }
    let list = need_list(alloc, drafts.list())?;
    Ok(NeedList::of_stored(list))
}

// The needs of a node below those with these signatures.
fn listed(alloc: Global, node: &PlacedNode, above: &[Signature]) -> Result<NeedList, ClockError>
    requires { IsListedNode above.now node.now }
    ensures ok { IfOk result (λ list. list ≡ needs_of above.now node.now) }
    ensures few { IfOk result (λ _. length (needs_of above.now node.now) ≤ most_needs) }
    ensures bits { IfOk result (λ _. all_bits (needs_of above.now node.now) ≤ limit_number lim.Bits) }
    ensures refused { IfErr result (RefusesNeeds (needs_of above.now node.now)) }
{
    let drafts = list_needs(alloc, Listing { node, above })?;
    stored_needs(alloc, &drafts)
}

/// The needs of a node, by number from 0, with the signatures of the nodes above it: an assignment of words keeps the node's
/// clock rules exactly where it meets them (`needs_are_the_rules`). `Limit(Needs)` comes exactly where they are more, else
/// `Limit(Bits)` exactly where their words have together more bits; no word is copied before.
pub fn needs(
    alloc: Global,
    placed: &Placed,
    node: u32,
    above: &[Signature],
) -> Result<Needs, ClockError>
    requires node { node < length placed.now.nodes }
    requires signatures { AreSignatures (take node placed.now.nodes) above.now }
    ensures ok { (n : Node) → slice_get placed.now.nodes node ≡ Some n → IfOk result (λ needs. (needs.clocks ≡ clocks_of n) × (needs.list ≡ needs_of above.now n)) }
    ensures proper { IfOk result AreProperNeeds }
    ensures refused { (n : Node) → slice_get placed.now.nodes node ≡ Some n → IfErr result (RefusesNeeds (needs_of above.now n)) }
    ensures past { (n : Node) → slice_get placed.now.nodes node ≡ Some n → IfOk result (λ _. (length (needs_of above.now n) ≤ most_needs) × (all_bits (needs_of above.now n) ≤ limit_number lim.Bits)) }
{
    let found = placed.node(node);
    let list = listed(alloc, found, above)?;
    let clocks = 1 + found.places.list().len() + found.calls.list().len();
    Ok(Needs {
        clocks: clocks as u32,
        list,
    })
}
