// The single steps of numbering: a place or a call is kept free for a form, and settled once its operands are numbered.
ghost use Rattle.std.specs.Prelude.{true, ◌≡◌, ◌+◌, ◌^◌, ◌<◌, ◌≤◌, ◌++◌, ◌∷◌, [], length, IfOk, OnOk, slice_set};
ghost use Rattle.lucy_tree.specs.View.{tree_of};
ghost use Rattle.lucy_tree.specs.Shaped.{HasZero, IsShaped};
ghost use Rattle.lucy_place.specs.declared.entry.PlaceKind.TheVariants as kind;
ghost use Rattle.lucy_naming.specs.Phrases.{expr_phrase};
ghost use Rattle.lucy_place.specs.Standing.{most_places, sampling_word};
ghost use Rattle.lucy_naming.specs.Places.{Known, unnamed, results_from, operator_place, stream_place};
ghost use Rattle.lucy_naming.specs.Drafts.{IsSingle, kind_of, free_site, site_of, buffers_of, next_of};
ghost use Rattle.lucy_naming.specs.Views.{known_of};

use crate::draft::Draft;
use crate::names::Names;
use lucy_place::{CallSite, Numbers, PlaceEntry, PlaceKind};
use lucy_tree::{Expr, Name};
use lucy_word::{Word, turned};
use std::alloc::{AllocError, Global};

/// A word, where one is written.
pub(crate) fn copy(alloc: Global, word: &Option<Word>) -> Result<Option<Word>, AllocError>
    ensures { IfOk result (λ copy. copy ≡ word.now) }
{
    match word {
        Some(word) => Ok(Some(word.copy(alloc)?)),
        None => Ok(None),
    }
}

// The word of `when`, or with `flip` the complement of the word of `whenot`.
fn sampling_word(alloc: Global, flip: bool, word: &Word) -> Result<Word, AllocError>
    requires zero { flip ≡ true → HasZero word.now }
    ensures { IfOk result (λ w. w ≡ sampling_word flip word.now) }
{
    if !flip {
        return word.copy(alloc);
    }
    turned(alloc, word)
}

/// What stands at the place of a form of one operand that is no operator's, with its number as a buffer and the place of the operand.
pub(crate) fn single_kind(
    alloc: Global,
    expr: &Expr,
    buffer: u32,
    operand: u32,
) -> Result<PlaceKind, AllocError>
    requires single { IsSingle (expr_phrase expr.now) }
    requires shaped { IsShaped (tree_of expr.now) }
    ensures { (k : Known) → IfOk result (λ kind. kind ≡ kind_of k buffer (expr_phrase expr.now) (operand ∷ [])) }
{
    match expr {
        Expr::When { flip, word, .. } => Ok(PlaceKind::When(
            operand,
            sampling_word(alloc, *flip, word)?,
        )),
        Expr::Fby { first, .. } => Ok(PlaceKind::Fby(*first, operand)),
        Expr::Buffer { .. } => Ok(PlaceKind::Buffer(buffer, operand)),
        _ => unreachable!(),
    }
}

fn unnamed(kind: PlaceKind) -> PlaceEntry
    ensures { result ≡ unnamed kind }
{
    PlaceEntry {
        name: None,
        holds: None,
        word: None,
        kind,
    }
}

// The place of a stream.
pub(crate) fn stream_place(names: &Names<'_, '_>, name: &Name) -> u32
    requires few { length names.now.streams.now ≤ most_places }
    ensures { result ≡ stream_place (known_of names.now) name.now.text }
{
    names.streams.place(name.text.bytes()) as u32 + 1
}

/// The number of an operator of the host.
pub(crate) fn operator_place(names: &Names<'_, '_>, name: &Name) -> u32
    ensures { result ≡ operator_place (known_of names.now) name.now.text }
{
    names.ops.find(name.text.bytes()).unwrap_or(0)
}

/// The number of the next place.
pub(crate) fn next_place(names: &Names<'_, '_>, draft: &Draft) -> u32
    requires small { (next_of (known_of names.now) draft.now).place ≤ most_places + 1 }
    ensures { result ≡ (next_of (known_of names.now) draft.now).place }
{
    (names.streams.len() + draft.places.len() + 1) as u32
}

/// Keeps a place free for a form, which is so many buffers, and answers how many places stand before it.
pub(crate) fn start(draft: &mut Draft, buffers: u32) -> Result<usize, AllocError>
    requires few { draft.old.buffers + buffers < 2 ^ 32 }
    ensures at { IfOk result (λ own. own ≡ length draft.old.places.items) }
    ensures places { OnOk result (draft.new.places.items ≡ draft.old.places.items ++ unnamed kind.Param ∷ []) }
    ensures calls { draft.new.calls ≡ draft.old.calls }
    ensures buffers { draft.new.buffers ≡ draft.old.buffers + buffers }
{
    let own = draft.places.len();
    draft.buffers += buffers;
    draft.places.push(unnamed(PlaceKind::Param))?;
    Ok(own)
}

/// Settles what stands at a place that was kept free.
pub(crate) fn settle(draft: &mut Draft, own: usize, kind: PlaceKind)
    requires { own < length draft.old.places.items }
    ensures places { draft.new.places.items ≡ slice_set draft.old.places.items own (unnamed kind) }
    ensures calls { draft.new.calls ≡ draft.old.calls }
    ensures buffers { draft.new.buffers ≡ draft.old.buffers }
{
    draft.places[own] = unnamed(kind);
}

// Puts the results of a call last.
fn put_results(draft: &mut Draft, call: u32, results: usize) -> Result<(), AllocError>
    requires few { results ≤ most_places + 1 }
    ensures places { OnOk result (draft.new.places.items ≡ draft.old.places.items ++ results_from call 0 results) }
    ensures calls { draft.new.calls ≡ draft.old.calls }
    ensures buffers { draft.new.buffers ≡ draft.old.buffers }
{
    'each: for i in 0..results {
        draft
            .places
            .push(unnamed(PlaceKind::Result(call, i as u32)))?;
    }
    Ok(())
}

/// Keeps a call free behind the places of its results, and answers how many calls stand before it.
pub(crate) fn start_call(
    alloc: Global,
    draft: &mut Draft,
    results: usize,
) -> Result<usize, AllocError>
    requires few { results ≤ most_places + 1 }
    requires calls { length draft.old.calls.items ≤ most_places }
    ensures at { IfOk result (λ site. site ≡ length draft.old.calls.items) }
    ensures places { OnOk result (draft.new.places.items ≡ draft.old.places.items ++ results_from (length draft.old.calls.items + 1) 0 results) }
    ensures calls { OnOk result (draft.new.calls.items ≡ draft.old.calls.items ++ free_site ∷ []) }
    ensures buffers { draft.new.buffers ≡ draft.old.buffers }
{
    let site = draft.calls.len();
    put_results(draft, site as u32 + 1, results)?;
    draft.calls.push(CallSite {
        node: 0,
        at: None,
        first: 0,
        args: Numbers::new(Vec::new(alloc)),
    })?;
    Ok(site)
}

/// Settles a call that was kept free.
pub(crate) fn settle_call(draft: &mut Draft, site: usize, call: CallSite)
    requires { site < length draft.old.calls.items }
    ensures calls { draft.new.calls.items ≡ slice_set draft.old.calls.items site call }
    ensures places { draft.new.places ≡ draft.old.places }
    ensures buffers { draft.new.buffers ≡ draft.old.buffers }
{
    draft.calls[site] = call;
}

/// The call of a node whose first result has this place.
pub(crate) fn call_site(
    alloc: Global,
    names: &Names<'_, '_>,
    node: &Name,
    at: &Option<Word>,
    first: u32,
    args: Vec<u32>,
) -> Result<CallSite, AllocError>
    requires { length names.now.nodes.now < 2 ^ 32 }
    ensures { IfOk result (λ call. call ≡ site_of (known_of names.now) node.now at.now first args.items) }
{
    let at = copy(alloc, at)?;
    Ok(CallSite {
        node: names.nodes.place(node.text.bytes()) as u32,
        at,
        first,
        args: Numbers::new(args),
    })
}

/// How many buffers a form itself is.
pub(crate) fn buffers_of(expr: &Expr) -> u32
    ensures { result ≡ buffers_of (expr_phrase expr.now) }
{
    match expr {
        Expr::Buffer { .. } => 1,
        Expr::Lit { .. } => 0,
        Expr::Var { .. } => 0,
        Expr::Op { .. } => 0,
        Expr::Host { .. } => 0,
        Expr::When { .. } => 0,
        Expr::Merge { .. } => 0,
        Expr::Fby { .. } => 0,
        Expr::Call { .. } => 0,
    }
}
