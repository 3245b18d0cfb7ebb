// The least size of one buffer of an accepted program.
ghost use Rattle.std.specs.Prelude.{ℕ, List, ◌≡◌, ◌⊎◌, ◌<◌, ◌≤◌, Some, length, take, slice_get, IfOk, IfErr, MatchResult};
ghost use Rattle.lucy_host.specs.Operators.{Operator};
ghost use Rattle.lucy_word.specs.Adaptable.{IsSize};
ghost use Rattle.lucy_need.specs.Meeting.{Assignment, assigned};
ghost use Rattle.lucy_place.specs.declared.placed.PlacedNode.{PlacedNode as Node};
ghost use Rattle.lucy_place.specs.declared.entry.PlaceKind.TheVariants.{Buffer};
ghost use Rattle.lucy_place.specs.Standing.{at_one, bound_of, Stands};
ghost use Rattle.lucy_place.specs.WrittenNodes.{IsWritten};
ghost use Rattle.lucy_clock.specs.NodeClocks.{signatures};
ghost use Rattle.lucy_clock.specs.WellClocked.{IsWellClocked};
ghost use Rattle.lucy_shape.specs.Fitting.{FitsShape};
ghost use Rattle.lucy_program.specs.Inferring.{AreOptions};
ghost use Rattle.lucy_program.specs.Accepting.{IsAccepted};
ghost use Rattle.lucy_tight.specs.Tightening.{TheBuffer, IsTightened, RefusesTight};
ghost use Rattle.lucy_tight.specs.declared.answer.TightError.{TightError as Refusal};
ghost use Rattle.lucy_tight.specs.declared.answer.TightError.TheVariants as error;

use crate::finding::least_size;
use crate::measuring::clocks_at;
use crate::shaping::shape_node;
use crate::spot::{Spot, spot_of};
use crate::{Least, TightError};
use lucy_need::needs_have_words;
use lucy_program::{Accepted, Options};
use std::alloc::Global;

// That of a buffer of a node that isn't written.
fn tighten_inferred(
    alloc: Global,
    accepted: &Accepted,
    options: &Options,
    node: u32,
    buffer: u32,
    at: Spot,
) -> Result<Least, TightError>
    requires options { AreOptions options.now }
    requires accepted { (ops : List Operator) × (text : List ℕ) × IsAccepted ops options.now text accepted.now }
    requires node { node < length accepted.now.placed.nodes }
    requires unwritten { (n : Node) → slice_get accepted.now.placed.nodes node ≡ Some n → IsWritten n → ⊥ }
    requires at { (of : TheBuffer accepted.now node buffer) × (at.from ≡ of.from) × (at.to ≡ of.to) × (at.printed ≡ of.size) }
    ensures tightened { IfOk result (IsTightened accepted.now options.now node buffer) }
    ensures refused { IfErr result (λ e. (e ≡ error.OutOfMemory) ⊎ RefusesTight accepted.now options.now node buffer e) }
    ensures within { IfOk result (λ t. t.least ≤ t.printed) }
    ensures reached { IfOk result (λ t. at_one t.clocks.sizes buffer ≡ Some t.least) }
    ensures clocked { (n : Node) → slice_get accepted.now.placed.nodes node ≡ Some n →
        IfOk result (λ t. IsWellClocked (signatures (take node accepted.now.placed.nodes) (take node accepted.now.clocks.items)) n (assigned t.clocks.words)) }
    ensures fits { IfOk result (λ t. FitsShape (assigned t.clocks.words) t.shape) }
    ensures smallest { (n : Node) → slice_get accepted.now.placed.nodes node ≡ Some n →
        IfOk result (λ t. (w : Assignment) (from to size : ℕ) → at_one n.buffers buffer ≡ Some to → Stands n to (Buffer buffer from) →
        IsWellClocked (signatures (take node accepted.now.placed.nodes) (take node accepted.now.clocks.items)) n w → FitsShape w t.shape → IsSize (w from) (w to) size → t.least ≤ size) }
    ensures bounded { (n : Node) → slice_get accepted.now.placed.nodes node ≡ Some n →
        IfOk result (λ t. (k most size : ℕ) → bound_of n k ≡ Some most → at_one t.clocks.sizes k ≡ Some size → size ≤ most) }
{
    let made = shape_node(alloc, accepted, options, node)?;
    needs_have_words(&made.needs);
    let found = least_size(alloc, &made.needs, &made.shape, at.from, at.to, at.printed)?;
    let clocks = clocks_at(alloc, accepted.placed.node(node), found.words)?;
    Ok(Least {
        printed: at.printed,
        least: found.least,
        clocks,
        needs: made.needs,
        shape: made.shape,
        diffs: found.diffs,
        cycle: found.cycle,
    })
}

/// The least size of a buffer of an accepted program, by the number of its node from 0 and its own from 1, with the options under
/// which the program was accepted. The nodes above keep their printed clocks. `Fixed` comes exactly where the node is written, with
/// the printed size; else `Limit(Inequalities)` exactly where the inequalities of a size, as many for each, pass that limit; else
/// `Limit(Word)`, and then `Limit(Bits)`, exactly where the words of the earliest clocks for the least size pass them.
pub fn tighten(
    alloc: Global,
    accepted: &Accepted,
    options: &Options,
    node: u32,
    buffer: u32,
) -> Result<Least, TightError>
    requires options { AreOptions options.now }
    requires accepted { (ops : List Operator) × (text : List ℕ) × IsAccepted ops options.now text accepted.now }
    requires there { (n : Node) × (slice_get accepted.now.placed.nodes node ≡ Some n) × (1 ≤ buffer) × (buffer ≤ length n.buffers) }
    ensures tightened { IfOk result (IsTightened accepted.now options.now node buffer) }
    ensures refused { IfErr result (λ e. (e ≡ error.OutOfMemory) ⊎ RefusesTight accepted.now options.now node buffer e) }
    ensures only { (e : Refusal) → RefusesTight accepted.now options.now node buffer e → MatchResult result (λ _. ⊥) (λ f. (f ≡ error.OutOfMemory) ⊎ (f ≡ e)) }
    ensures within { IfOk result (λ t. t.least ≤ t.printed) }
    ensures reached { IfOk result (λ t. at_one t.clocks.sizes buffer ≡ Some t.least) }
    ensures clocked { (n : Node) → slice_get accepted.now.placed.nodes node ≡ Some n →
        IfOk result (λ t. IsWellClocked (signatures (take node accepted.now.placed.nodes) (take node accepted.now.clocks.items)) n (assigned t.clocks.words)) }
    ensures fits { IfOk result (λ t. FitsShape (assigned t.clocks.words) t.shape) }
    ensures smallest { (n : Node) → slice_get accepted.now.placed.nodes node ≡ Some n →
        IfOk result (λ t. (w : Assignment) (from to size : ℕ) → at_one n.buffers buffer ≡ Some to → Stands n to (Buffer buffer from) →
        IsWellClocked (signatures (take node accepted.now.placed.nodes) (take node accepted.now.clocks.items)) n w → FitsShape w t.shape → IsSize (w from) (w to) size → t.least ≤ size) }
    ensures bounded { (n : Node) → slice_get accepted.now.placed.nodes node ≡ Some n →
        IfOk result (λ t. (k most size : ℕ) → bound_of n k ≡ Some most → at_one t.clocks.sizes k ≡ Some size → size ≤ most) }
{
    let at = spot_of(accepted, node, buffer);
    if accepted.placed.is_written(node) {
        return Err(TightError::Fixed(at.printed));
    }
    tighten_inferred(alloc, accepted, options, node, buffer, at)
}
