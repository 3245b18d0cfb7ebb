// The clocks of nodes, one by one.
ghost use Rattle.std.specs.Prelude.{◌≡◌, ◌⊎◌, ◌+◌, ◌<◌, ◌≤◌, ◌∷◌, ◌++◌, [], ℕ, Some, false, length, take, drop, slice_get, IfOk, IfErr, OnOk};
ghost use Rattle.lucy_word.specs.Stored.{IsStored};
ghost use Rattle.lucy_place.specs.declared.placed.PlacedNode.{PlacedNode as Node};
ghost use Rattle.lucy_place.specs.Proper.{AreProper};
ghost use Rattle.lucy_clock.specs.Clocks.{AreSignatures};
ghost use Rattle.lucy_clock.specs.NodeClocks.{signatures};
ghost use Rattle.lucy_place.specs.WrittenNodes.{IsWritten};
ghost use Rattle.lucy_program.specs.declared.options.Options.{Options as Choices};
ghost use Rattle.lucy_program.specs.Inferring.{AreOptions};
ghost use Rattle.lucy_program.specs.Clocked.{AreClocksOf, IsClocked};
ghost use Rattle.lucy_front.specs.Sizes.{need_count, buffer_sizes};
ghost use Rattle.lucy_front.specs.Clocking.{HasNoClocks, IsFirstUnclocked};

use crate::fault::{NoClocks, NodeFault, Unclocked, check_fault, inference_fault};
use lucy_check::check;
use lucy_clock::{NodeClock, Numbers64, Signature, Words, needs, ports, written};
use lucy_inference::infer;
use lucy_place::{Placed, PlacedNode};
use lucy_program::Options;
use lucy_word::Word;
use std::alloc::{AllocError, Global};

/// One more entry of a list.
pub(crate) fn push<T: Drop>(list: &mut Vec<T>, next: T) -> Result<(), AllocError>
    ensures { OnOk result (list.new.items ≡ list.old.items ++ next ∷ []) }
{
    list.push(next)?;
    Ok(())
}

// The sizes behind those of a buffer with this bound, or without one.
fn behind<'s>(sizes: &'s [u64], most: &Option<u64>) -> &'s [u64]
    ensures { result.now ≡ drop (need_count most.now) sizes.now }
{
    let count = match most {
        None => 1,
        Some(_) => 2,
    };
    if count < sizes.len() {
        &sizes[count..]
    } else {
        &[]
    }
}

// The sizes of buffers with these bounds, in order, of the sizes of all needs.
fn buffer_sizes(
    alloc: Global,
    bounds: &[Option<u64>],
    sizes: &[u64],
) -> Result<Vec<u64>, AllocError>
    ensures { IfOk result (λ v. v.items ≡ buffer_sizes bounds.now sizes.now) }
{
    let mut found = Vec::new(alloc);
    let mut rest = sizes;
    'each: for most in bounds {
        push(&mut found, rest.first().copied().unwrap_or(0))?;
        rest = behind(rest, most);
    }
    Ok(found)
}

// The clocks of a node, by its words and the sizes of its needs.
fn clock_of(
    alloc: Global,
    node: &PlacedNode,
    words: Vec<Word>,
    sizes: &[u64],
) -> Result<NodeClock, AllocError>
    ensures words { IfOk result (λ c. c.words ≡ words.items) }
    ensures sizes { IfOk result (λ c. c.sizes ≡ buffer_sizes node.now.bounds sizes.now) }
{
    let sizes = buffer_sizes(alloc, node.bounds.list(), sizes)?;
    Ok(NodeClock {
        words: Words::new(words),
        sizes: Numbers64::new(sizes),
    })
}

// The clocks of a written node with these signatures of the nodes above it: the words that it hands down, and the sizes of its
// buffers.
fn handed_clock(
    alloc: Global,
    placed: &Placed,
    node: u32,
    above: &[Signature],
) -> Result<NodeClock, NoClocks>
    requires proper { AreProper placed.now.nodes }
    requires node { node < length placed.now.nodes }
    requires signatures { AreSignatures (take node placed.now.nodes) above.now }
    requires written { (n : Node) → slice_get placed.now.nodes node ≡ Some n → IsWritten n }
    ensures ok { (o : Choices) (n : Node) → slice_get placed.now.nodes node ≡ Some n → IfOk result (IsClocked o above.now n) }
    ensures refused { (o : Choices) (n : Node) → slice_get placed.now.nodes node ≡ Some n → IfErr result (HasNoClocks o placed.now node above.now n) }
{
    let needs = needs(alloc, placed, node, above)?;
    let words = written(alloc, placed, node)?;
    match check(alloc, &needs, &words) {
        Ok(sizes) => Ok(clock_of(alloc, placed.node(node), words, &sizes)?),
        Err(fault) => Err(check_fault(needs, fault)),
    }
}

// Those of another node, which are inferred from its needs.
fn inferred_clock(
    alloc: Global,
    placed: &Placed,
    node: u32,
    above: &[Signature],
    options: &Options,
) -> Result<NodeClock, NoClocks>
    requires options { AreOptions options.now }
    requires proper { AreProper placed.now.nodes }
    requires node { node < length placed.now.nodes }
    requires signatures { AreSignatures (take node placed.now.nodes) above.now }
    requires allowed { options.now.written_only ≡ false }
    requires unwritten { (n : Node) → slice_get placed.now.nodes node ≡ Some n → IsWritten n → ⊥ }
    ensures ok { (n : Node) → slice_get placed.now.nodes node ≡ Some n → IfOk result (IsClocked options.now above.now n) }
    ensures refused { (n : Node) → slice_get placed.now.nodes node ≡ Some n → IfErr result (HasNoClocks options.now placed.now node above.now n) }
{
    let needs = needs(alloc, placed, node, above)?;
    match infer(alloc, &needs, options.scale, options.lead) {
        Ok(found) => Ok(clock_of(alloc, placed.node(node), found.words, &found.sizes)?),
        Err(why) => Err(inference_fault(needs, why)),
    }
}

// The clocks of a node with these signatures of the nodes above it.
fn node_clock(
    alloc: Global,
    placed: &Placed,
    node: u32,
    above: &[Signature],
    options: &Options,
) -> Result<NodeClock, NoClocks>
    requires options { AreOptions options.now }
    requires proper { AreProper placed.now.nodes }
    requires node { node < length placed.now.nodes }
    requires signatures { AreSignatures (take node placed.now.nodes) above.now }
    ensures ok { (n : Node) → slice_get placed.now.nodes node ≡ Some n → IfOk result (IsClocked options.now above.now n) }
    ensures refused { (n : Node) → slice_get placed.now.nodes node ≡ Some n → IfErr result (HasNoClocks options.now placed.now node above.now n) }
{
    match placed.first_unwritten(node) {
        None => handed_clock(alloc, placed, node, above),
        Some(span) => {
            if options.written_only {
                return Err(NoClocks::Fault(NodeFault::NotWritten(span)));
            }
            inferred_clock(alloc, placed, node, above, options)
        }
    }
}

// The clocks of the next node, put behind those of the nodes above it.
fn next_clock(
    alloc: Global,
    placed: &Placed,
    node: u32,
    options: &Options,
    above: &mut Vec<Signature>,
    clocks: &mut Vec<NodeClock>,
) -> Result<(), NoClocks>
    requires options { AreOptions options.now }
    requires proper { AreProper placed.now.nodes }
    requires node { node < length placed.now.nodes }
    requires clocked { AreClocksOf options.now (take node placed.now.nodes) clocks.old.items }
    requires signatures { above.old.items ≡ signatures (take node placed.now.nodes) clocks.old.items }
    ensures clocked { OnOk result (AreClocksOf options.now (take (node + 1) placed.now.nodes) clocks.new.items) }
    ensures signatures { OnOk result (above.new.items ≡ signatures (take (node + 1) placed.now.nodes) clocks.new.items) }
    ensures refused { (n : Node) → slice_get placed.now.nodes node ≡ Some n → IfErr result (HasNoClocks options.now placed.now node above.old.items n) }
{
    let clock = node_clock(alloc, placed, node, above, options)?;
    let ports = ports(alloc, placed.node(node), &clock)?;
    push(above, ports)?;
    push(clocks, clock)?;
    Ok(())
}

/// The clocks of all nodes with these options, or the first node that has none.
pub(crate) fn node_clocks(
    alloc: Global,
    placed: &Placed,
    options: &Options,
) -> Result<Vec<NodeClock>, Unclocked>
    requires { AreOptions options.now }
    ensures ok { IfOk result (λ clocks. AreClocksOf options.now placed.now.nodes clocks.items) }
    ensures refused { IfErr result (IsFirstUnclocked options.now placed.now) }
{
    let mut above = Vec::new(alloc);
    let mut clocks = Vec::new(alloc);
    let nodes = placed.nodes();
    'each: for node in 0..nodes {
        match next_clock(alloc, placed, node, options, &mut above, &mut clocks) {
            Ok(()) => {}
            Err(why) => return Err(Unclocked { node, why }),
        }
    }
    Ok(clocks)
}
