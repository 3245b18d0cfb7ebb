// The instances of a program in order, by a recursion from a node to the nodes that it calls, which stand above it.
ghost use Rattle.std.specs.Prelude.{ℕ, List, ◌≡◌, ◌⊎◌, ◌+◌, ◌-◌, ◌<◌, ◌≤◌, ◌^◌, ◌∷◌, [], Some, None, length, map, OnOk, IfOk, IfErr, IsTrue};
ghost use Rattle.std.specs.List.{AllByRecursion};
ghost use Rattle.lucy_word.specs.Limits.{limit_number};
ghost use Rattle.lucy_word.specs.Shortest.{IsShortest};
ghost use Rattle.lucy_word.specs.declared.limit.Limit.TheVariants as lim;
ghost use Rattle.lucy_place.specs.Proper.{Stands};
ghost use Rattle.lucy_flat.specs.declared.error.FlatError.TheVariants as err;
ghost use Rattle.lucy_kahn.specs.Spots.{at, spot_form, spot_reads, kind_at};
ghost use Rattle.lucy_kahn.specs.Below.{Below};
ghost use Rattle.lucy_flat.specs.Extents.{actors_in, AreSumsOf, HasSize, size_in};
ghost use Rattle.lucy_kahn.specs.Numbers.{number};
ghost use Rattle.lucy_kahn.specs.Sizes.{size_of};
ghost use Rattle.lucy_flat.specs.Flat.{actor_of};
ghost use Rattle.lucy_flat.specs.Drafts.{CanBeFlattened, IsInstanceAt, IsInstance, AreCallsAlike, IsWork, IsDraftMade, IsFit, AreKept, IsPlaceKept, ArePlacesKept, AreKeptSoFar, IsInstanceKept};
ghost use Rattle.lucy_flat.specs.Refusals.{NetWordIsTooLong};
ghost use Rattle.lucy_flat.specs.declared.draft.Draft.{Draft as One};
ghost use Rattle.lucy_place.specs.declared.entry.PlaceKind.{PlaceKind as Kind};

use crate::draft::Draft;
use crate::error::FlatError;
use crate::kept::{Kept, is_past, keep};
use crate::words::{own_word, sampled, test_place};
use lucy_clock::NodeClock;
use lucy_net::ActorKind;
use lucy_place::{CallSite, PlaceKind, Placed, PlacedNode, literal_value};
use lucy_word::Word;
use std::alloc::{AllocError, Global};

/// A program with its words, and the sizes of its nodes.
#[derive(Clone, Copy)]
pub(crate) struct Program<'a> {
    pub placed: &'a Placed,
    pub clocks: &'a [NodeClock],
    pub sizes: &'a [u64],
}

/// Where the caller of an instance begins, and the places of the arguments there.
#[derive(Clone, Copy)]
pub(crate) struct Caller<'a> {
    pub begin: u32,
    pub args: &'a [u32],
}

/// An instance: its node and the words there, its base, its caller, if it isn't main, its first actor, and those of the
/// instances of its calls.
#[derive(Clone, Copy)]
pub(crate) struct Instance<'a> {
    pub node: &'a PlacedNode,
    pub clock: &'a NodeClock,
    pub base: &'a Word,
    pub caller: Option<Caller<'a>>,
    pub begin: u32,
    pub inner: &'a [u32],
}

fn kind(alloc: Global, kind: &PlaceKind, place: u32, main: bool) -> Result<ActorKind, AllocError>
    requires { 1 ≤ place }
    ensures { (path : List ℕ) → (IsTrue main → path ≡ []) → (path ≡ [] → IsTrue main) → IfOk result (λ k. k ≡ actor_of (spot_form (at path place) kind.now)) }
{
    Ok(match kind {
        PlaceKind::Param if main => ActorKind::Input(place - 1),
        PlaceKind::Lit(lit) => ActorKind::Lit(literal_value(*lit)),
        PlaceKind::Op(op, _) => ActorKind::Op(*op),
        PlaceKind::Host(op, _, _) => ActorKind::Host(*op),
        PlaceKind::When(_, word) => ActorKind::When(word.copy(alloc)?),
        PlaceKind::Merge(word, _, _) => ActorKind::Merge(word.copy(alloc)?),
        PlaceKind::Fby(first, _) => ActorKind::Fby(literal_value(*first)),
        _ => ActorKind::Pass,
    })
}

// The actor of a place of an instance that begins there.
fn actor(begin: u32, place: u32) -> u32
    requires { (1 ≤ place) × (begin + place < 2 ^ 32) }
    ensures { result ≡ begin + (place - 1) }
{
    begin + (place - 1)
}

fn one(alloc: Global, begin: u32, place: u32) -> Result<Vec<u32>, FlatError>
    requires { (1 ≤ place) × (begin + place < 2 ^ 32) }
    ensures ok { IfOk result (λ v. v.items ≡ (begin + (place - 1)) ∷ []) }
    ensures refused { IfErr result (λ e. e ≡ err.OutOfMemory) }
{
    let mut reads = Vec::new(alloc);
    reads.push(actor(begin, place))?;
    Ok(reads)
}

fn two(alloc: Global, begin: u32, first: u32, second: u32) -> Result<Vec<u32>, FlatError>
    requires first { (1 ≤ first) × (begin + first < 2 ^ 32) }
    requires second { (1 ≤ second) × (begin + second < 2 ^ 32) }
    ensures ok { IfOk result (λ v. v.items ≡ (begin + (first - 1)) ∷ (begin + (second - 1)) ∷ []) }
    ensures refused { IfErr result (λ e. e ≡ err.OutOfMemory) }
{
    let mut reads = one(alloc, begin, first)?;
    reads.push(actor(begin, second))?;
    Ok(reads)
}

fn all(alloc: Global, begin: u32, places: &[u32]) -> Result<Vec<u32>, FlatError>
    requires { AllByRecursion (λ place. (1 ≤ place) × (begin + place < 2 ^ 32)) places.now }
    ensures ok { IfOk result (λ v. v.items ≡ map (λ place. begin + (place - 1)) places.now) }
    ensures refused { IfErr result (λ e. e ≡ err.OutOfMemory) }
{
    let mut reads = Vec::new(alloc);
    'each: for place in places {
        reads.push(actor(begin, *place))?;
    }
    Ok(reads)
}

// The actors that a place of an instance reads.
fn reads(
    alloc: Global,
    program: Program<'_>,
    of: Instance<'_>,
    place: u32,
    kind: &PlaceKind,
) -> Result<Vec<u32>, FlatError>
    requires program { CanBeFlattened program.placed.now.nodes program.clocks.now program.sizes.now }
    requires of { (path : List ℕ) × IsInstance program.placed.now.nodes program.clocks.now path of }
    requires stands { Stands of.node.now place kind.now }
    ensures ok { (path : List ℕ) → IsInstance program.entry.placed.now.nodes program.entry.clocks.now path of.entry →
        IfOk result (λ v. v.items ≡ map (number program.entry.placed.now.nodes) (spot_reads program.entry.placed.now.nodes (at path place) kind.now)) }
    ensures refused { IfErr result (λ e. e ≡ err.OutOfMemory) }
{
    match kind {
        PlaceKind::Param => match of.caller {
            Some(caller) => one(alloc, caller.begin, caller.args[place as usize - 1]),
            None => Ok(Vec::new(alloc)),
        },
        PlaceKind::Lit(_) => Ok(Vec::new(alloc)),
        PlaceKind::Op(_, args) => all(alloc, of.begin, args.list()),
        PlaceKind::Host(_, a, b) => two(alloc, of.begin, *a, *b),
        PlaceKind::Merge(_, a, b) => two(alloc, of.begin, *a, *b),
        PlaceKind::Defined(e) => one(alloc, of.begin, *e),
        PlaceKind::When(e, _) => one(alloc, of.begin, *e),
        PlaceKind::Fby(_, e) => one(alloc, of.begin, *e),
        PlaceKind::Buffer(_, e) => one(alloc, of.begin, *e),
        PlaceKind::Result(call, number) => {
            let call = *call as usize - 1;
            let callee = program.placed.node(of.node.calls.list()[call].node);
            one(
                alloc,
                of.inner[call],
                callee.results.list()[*number as usize],
            )
        }
    }
}

fn size(clock: &NodeClock, kind: &PlaceKind) -> u64
    requires { HasSize clock.now.sizes kind.now }
    ensures { result ≡ size_in clock.now.sizes kind.now }
{
    match kind {
        PlaceKind::Buffer(number, _) => clock.sizes.list()[*number as usize - 1],
        _ => 0,
    }
}

// What the actor of a place of an instance does, and the actors that it reads.
fn work_of(
    alloc: Global,
    program: Program<'_>,
    of: Instance<'_>,
    place: u32,
    stands: &PlaceKind,
) -> Result<(ActorKind, Vec<u32>), FlatError>
    requires program { CanBeFlattened program.placed.now.nodes program.clocks.now program.sizes.now }
    requires of { (path : List ℕ) × IsInstance program.placed.now.nodes program.clocks.now path of }
    requires place { 1 ≤ place }
    requires stands { Stands of.node.now place stands.now }
    ensures ok { (path : List ℕ) → IsInstance program.entry.placed.now.nodes program.entry.clocks.now path of.entry →
        IfOk result (λ work. IsWork program.entry.placed.now.nodes (at path place) stands.now work.0 work.1.items) }
    ensures refused { IfErr result (λ e. e ≡ err.OutOfMemory) }
{
    let reads = reads(alloc, program, of, place, stands)?;
    let kind = kind(alloc, stands, place, of.caller.is_none())?;
    Ok((kind, reads))
}

fn draft_of(
    alloc: Global,
    program: Program<'_>,
    of: Instance<'_>,
    place: u32,
) -> Result<Draft, FlatError>
    requires program { CanBeFlattened program.placed.now.nodes program.clocks.now program.sizes.now }
    requires of { (path : List ℕ) × IsInstance program.placed.now.nodes program.clocks.now path of }
    requires base { IsShortest of.base.now }
    requires place { (1 ≤ place) × (place ≤ length of.node.now.places) }
    ensures ok { (path : List ℕ) (kind : Kind) → IsInstance program.entry.placed.now.nodes program.entry.clocks.now path of.entry →
        kind_at program.entry.placed.now.nodes (at path place) ≡ Some kind → IfOk result (IsDraftMade program.entry.placed.now.nodes program.entry.clocks.now (at path place) kind) }
    ensures fits { (path : List ℕ) → IsInstance program.entry.placed.now.nodes program.entry.clocks.now path of.entry → IfOk result (λ d. IsFit program.entry.placed.now.nodes program.entry.clocks.now path place) }
    ensures refused { IfErr result (λ e. (e ≡ err.OutOfMemory) ⊎ ((e ≡ err.Limit lim.Word) × NetWordIsTooLong program.entry.placed.now.nodes program.entry.clocks.now)) }
{
    let entry = &of.node.places.list()[place as usize - 1];
    let word = own_word(
        alloc,
        &entry.kind,
        of.base,
        &of.clock.words.list()[place as usize],
    )?;
    let (kind, reads) = work_of(alloc, program, of, place, &entry.kind)?;
    Ok(Draft {
        kind,
        word,
        reads,
        size: size(of.clock, &entry.kind),
        gives: Vec::new(alloc),
    })
}

// Where the instances of a node's calls begin, the first of them there.
fn begins(
    alloc: Global,
    sizes: &[u64],
    first: u32,
    sites: &[CallSite],
) -> Result<Vec<u32>, FlatError>
    requires below { Below (length sizes.now) sites.now }
    requires few { first + actors_in sizes.now sites.now < 2 ^ 32 }
    ensures ok { IfOk result (λ v. AreSumsOf sizes.now sites.now first (length sites.now) v.items) }
    ensures refused { IfErr result (λ e. e ≡ err.OutOfMemory) }
{
    let mut begins = Vec::new(alloc);
    let mut next = first;
    'each: for site in sites {
        begins.push(next)?;
        next += sizes[site.node as usize] as u32;
    }
    Ok(begins)
}

// Puts the draft of a place of an instance. Past Bits it is let go of unmade: that its words aren't too long is all that counts.
fn put_place(
    alloc: Global,
    program: Program<'_>,
    of: Instance<'_>,
    place: u32,
    kept: &mut Kept,
) -> Result<(), FlatError>
    requires program { CanBeFlattened program.placed.now.nodes program.clocks.now program.sizes.now }
    requires of { (path : List ℕ) × IsInstance program.placed.now.nodes program.clocks.now path of }
    requires base { IsShortest of.base.now }
    requires place { (1 ≤ place) × (place ≤ length of.node.now.places) }
    ensures ok { (path : List ℕ) (old : List One) → IsInstance program.entry.placed.now.nodes program.entry.clocks.now path of.entry → AreKept old kept.old →
        OnOk result (IsPlaceKept program.entry.placed.now.nodes program.entry.clocks.now path place old kept.new) }
    ensures refused { IfErr result (λ e. (e ≡ err.OutOfMemory) ⊎ ((e ≡ err.Limit lim.Word) × NetWordIsTooLong program.entry.placed.now.nodes program.entry.clocks.now)) }
{
    if is_past(kept) {
        let entry = &of.node.places.list()[place as usize - 1];
        let word = &of.clock.words.list()[place as usize];
        return test_place(alloc, &entry.kind, of.base, word);
    }
    let next = draft_of(alloc, program, of, place)?;
    keep(kept, next)
}

// Puts the drafts of the places of an instance.
fn put_places(
    alloc: Global,
    program: Program<'_>,
    of: Instance<'_>,
    kept: &mut Kept,
) -> Result<(), FlatError>
    requires program { CanBeFlattened program.placed.now.nodes program.clocks.now program.sizes.now }
    requires of { (path : List ℕ) × IsInstance program.placed.now.nodes program.clocks.now path of }
    requires base { IsShortest of.base.now }
    ensures ok { (path : List ℕ) (old : List One) → IsInstance program.entry.placed.now.nodes program.entry.clocks.now path of.entry → AreKept old kept.old →
        OnOk result (ArePlacesKept program.entry.placed.now.nodes program.entry.clocks.now path (length of.entry.node.now.places) old kept.new) }
    ensures refused { IfErr result (λ e. (e ≡ err.OutOfMemory) ⊎ ((e ≡ err.Limit lim.Word) × NetWordIsTooLong program.entry.placed.now.nodes program.entry.clocks.now)) }
{
    let count = of.node.places.list().len();
    'each: for i in 0..count {
        put_place(alloc, program, of, i as u32 + 1, kept)?;
    }
    Ok(())
}

// Whether nothing is asked of the instance of a call that wasn't asked of that of the call before: past Bits that is so where
// both are of one node and their bases have one word.
fn comes_again(kept: &Kept, sites: &[CallSite], words: &[Word], places: usize, call: usize) -> bool
    requires call { call < length sites.now }
    requires word { places + 1 + call < length words.now }
    ensures past { IsTrue result → limit_number lim.Bits < kept.now.bits }
    ensures alike { IsTrue result → AreCallsAlike sites.now words.now places call }
{
    if call == 0 {
        return false;
    }
    if !is_past(kept) {
        return false;
    }
    let before = sites[call - 1].node;
    let node = sites[call].node;
    if before != node {
        return false;
    }
    words[places + call].same(&words[places + 1 + call])
}

// Puts the drafts of the instance of a call of an instance, and of those inside it, unless they come again.
#[cycle(put_instance)]
fn put_call(
    alloc: Global,
    program: Program<'_>,
    node: u32,
    of: Instance<'_>,
    call: usize,
    kept: &mut Kept,
) -> Result<(), FlatError>
    requires program { CanBeFlattened program.placed.now.nodes program.clocks.now program.sizes.now }
    requires of { (path : List ℕ) × (is : IsInstance program.placed.now.nodes program.clocks.now path of) × (is.index ≡ node) }
    requires base { IsShortest of.base.now }
    requires call { call < length of.node.now.calls }
    ensures ok { (path : List ℕ) (old : List One) (is : IsInstance program.entry.placed.now.nodes program.entry.clocks.now path of.entry) → is.index ≡ node →
        AreKeptSoFar program.entry.placed.now.nodes program.entry.clocks.now path of.entry.node.now call old kept.old →
        OnOk result (AreKeptSoFar program.entry.placed.now.nodes program.entry.clocks.now path of.entry.node.now (call + 1) old kept.new) }
    ensures refused { IfErr result (λ e. (e ≡ err.OutOfMemory) ⊎ ((e ≡ err.Limit lim.Word) × NetWordIsTooLong program.entry.placed.now.nodes program.entry.clocks.now)) }
{
    let places = of.node.places.list().len();
    let sites = of.node.calls.list();
    let words = of.clock.words.list();
    if comes_again(kept, sites, words, places, call) {
        return Ok(());
    }
    let site = &sites[call];
    let base = sampled(alloc, of.base, &words[places + 1 + call])?;
    let caller = Some(Caller {
        begin: of.begin,
        args: site.args.list(),
    });
    let put = put_instance(
        alloc,
        program,
        site.node,
        &base,
        caller,
        of.inner[call],
        kept,
    );
    drop(base);
    put
}

// Puts the drafts of an instance of the node of a number, and of those inside it.
#[cycle(put_instance)]
fn put_inside(
    alloc: Global,
    program: Program<'_>,
    node: u32,
    of: Instance<'_>,
    kept: &mut Kept,
) -> Result<(), FlatError>
    requires program { CanBeFlattened program.placed.now.nodes program.clocks.now program.sizes.now }
    requires of { (path : List ℕ) × (is : IsInstance program.placed.now.nodes program.clocks.now path of) × (is.index ≡ node) }
    requires base { IsShortest of.base.now }
    ensures ok { (path : List ℕ) (old : List One) (is : IsInstance program.entry.placed.now.nodes program.entry.clocks.now path of.entry) → is.index ≡ node → AreKept old kept.old →
        OnOk result (IsInstanceKept program.entry.placed.now.nodes program.entry.clocks.now path node old kept.new) }
    ensures refused { IfErr result (λ e. (e ≡ err.OutOfMemory) ⊎ ((e ≡ err.Limit lim.Word) × NetWordIsTooLong program.entry.placed.now.nodes program.entry.clocks.now)) }
{
    put_places(alloc, program, of, kept)?;
    let count = of.node.calls.list().len();
    'calls: for call in 0..count {
        put_call(alloc, program, node, of, call, kept)?;
    }
    Ok(())
}

/// Puts the drafts of the instance of a node that begins there, and of those inside it.
#[cycle(put_instance)]
pub(crate) fn put_instance(
    alloc: Global,
    program: Program<'_>,
    node: u32,
    base: &Word,
    caller: Option<Caller<'_>>,
    begin: u32,
    kept: &mut Kept,
) -> Result<(), FlatError>
    requires program { CanBeFlattened program.placed.now.nodes program.clocks.now program.sizes.now }
    requires node { node < length program.placed.now.nodes }
    requires at { (path : List ℕ) × IsInstanceAt program.placed.now.nodes program.clocks.now path node begin base.now caller }
    requires base { IsShortest base.now }
    requires few { begin + size_of program.placed.now.nodes node < 2 ^ 32 }
    ensures ok { (path : List ℕ) (old : List One) → IsInstanceAt program.entry.placed.now.nodes program.entry.clocks.now path node begin base.now caller.entry → AreKept old kept.old →
        OnOk result (IsInstanceKept program.entry.placed.now.nodes program.entry.clocks.now path node old kept.new) }
    ensures refused { IfErr result (λ e. (e ≡ err.OutOfMemory) ⊎ ((e ≡ err.Limit lim.Word) × NetWordIsTooLong program.entry.placed.now.nodes program.entry.clocks.now)) }
{
    let found = program.placed.node(node);
    let clock = &program.clocks[node as usize];
    let places = found.places.list().len();
    let sites = found.calls.list();
    let inner = begins(alloc, program.sizes, begin + places as u32, sites)?;
    let of = Instance {
        node: found,
        clock,
        base,
        caller,
        begin,
        inner: &inner,
    };
    put_inside(alloc, program, node, of, kept)
}
