// Why a program is refused, and why a buffer is as full as it is.
ghost use Rattle.std.specs.Prelude.{length, IfOk, IfSome, IfNone, List, ◌<◌, ◌≡◌, ◌≤◌};
ghost use Rattle.lucy_program.specs.declared.accepted.Accepted.{Accepted as Program};
ghost use Rattle.lucy_program.specs.Accepting.{IsAccepted};
ghost use Rattle.lucy_front.specs.Refusing.{Refuses};
ghost use Rattle.lucy_program.specs.Inferring.{AreOptions};
ghost use Rattle.lucy_explain.specs.Begins.{BeginsAs};
ghost use Rattle.lucy_explain.specs.Spans.{AreWithin};
ghost use Rattle.lucy_host.specs.Operators.{Operator};
ghost use Rattle.lucy_explain.specs.Waits.{HasBuffer, AreWaits};
ghost use Rattle.lucy_solve.specs.System.{value};
ghost use Rattle.lucy_explain.specs.Chains.{IsChain, ChainSumLaw, LeastLaw, IsReasonFor, ReasonLaw};
ghost use Rattle.lucy_shape.specs.Fitting.{variable_count, IsShapeFor};
ghost use Rattle.lucy_front.specs.Refusals.{AreBelow};
ghost use Rattle.lucy_explain.specs.Folded.{IsFolded};
ghost use Rattle.lucy_explain.specs.Folds.{FollowsLaw, SumLaw};

use lucy_explain::{Explained, Filling, Folded, Reason};
use lucy_host::Ops;
use lucy_need::Needs;
use lucy_program::{Accepted, Options};
use lucy_shape::Shape;
use lucy_solve::Diffs;
use lucy_word::Word;
use std::alloc::{AllocError, Global};

/// Pins `lucy_explain::explain`.
pub fn explain(
    alloc: Global,
    text: &[u8],
    ops: &Ops,
    options: &Options,
) -> Result<Explained, AllocError>
    requires { AreOptions options.now }
    ensures accepted { IfOk result (λ e. IfNone e.refusal ((a : Program) × IsAccepted ops.now options.now text.now a)) }
    ensures refused { IfOk result (λ e. IfSome e.refusal (λ r. Refuses ops.now options.now text.now r)) }
    ensures begins { IfOk result (λ e. IfSome e.refusal (λ r. BeginsAs r e.text.items)) }
    ensures spans { IfOk result (λ e. AreWithin (length text.now) e.spans.items) }
{
    lucy_explain::explain(alloc, text, ops, options)
}

/// Pins `lucy_explain::why`.
pub fn why(
    alloc: Global,
    text: &[u8],
    accepted: &Accepted,
    options: &Options,
    node: u32,
    buffer: u32,
) -> Result<Option<Filling>, AllocError>
    requires options { AreOptions options.now }
    requires accepted { (ops : List Operator) × IsAccepted ops options.now text.now accepted.now }
    requires node { node < length accepted.now.placed.nodes }
    ensures some { IfOk result (λ found. IfSome found (λ f. HasBuffer accepted.now.placed.nodes node buffer)) }
    ensures none { IfOk result (λ found. IfNone found (HasBuffer accepted.now.placed.nodes node buffer → ⊥)) }
    ensures spans { IfOk result (λ found. IfSome found (λ f. AreWithin (length text.now) f.spans.items)) }
{
    lucy_explain::why(alloc, text, accepted, options, node, buffer)
}

/// Pins `lucy_explain::chain_to`.
pub fn chain_to(
    alloc: Global,
    diffs: &Diffs,
    values: &[i64],
    variable: u32,
) -> Result<Option<Vec<u32>>, AllocError>
    ensures { IfOk result (λ chain. IfSome chain (λ c. IsChain diffs.now.list 0 c.items variable (value values.now variable))) }
{
    lucy_explain::chain_to(alloc, diffs, values, variable)
}

/// Pins `lucy_explain::chains_are_least`.
pub fn chains_are_least()
    ensures sum { ChainSumLaw }
    ensures least { LeastLaw }
{
    lucy_explain::chains_are_least();
}

/// Pins `lucy_explain::fold_evidence`.
pub fn fold_evidence(
    alloc: Global,
    needs: &Needs,
    shape: &Shape,
    diffs: &Diffs,
    cycle: &[u32],
) -> Result<Folded, AllocError>
    requires clocks { length shape.now.clocks ≡ needs.now.clocks }
    requires variables { diffs.now.count ≡ variable_count shape.now.clocks }
    requires there { AreBelow (length diffs.now.list) cycle.now }
    ensures { IfOk result (IsFolded needs.now shape.now diffs.now cycle.now) }
{
    lucy_explain::fold_evidence(alloc, needs, shape, diffs, cycle)
}

/// Pins `lucy_explain::fold_chain`.
pub fn fold_chain(
    alloc: Global,
    needs: &Needs,
    shape: &Shape,
    diffs: &Diffs,
    chain: &[u32],
) -> Result<Folded, AllocError>
    requires clocks { length shape.now.clocks ≡ needs.now.clocks }
    requires variables { diffs.now.count ≡ variable_count shape.now.clocks }
    requires there { AreBelow (length diffs.now.list) chain.now }
    ensures folded { IfOk result (IsFolded needs.now shape.now diffs.now chain.now) }
    ensures same { IfOk result (λ f. f.cycle.items ≡ chain.now) }
{
    lucy_explain::fold_chain(alloc, needs, shape, diffs, chain)
}

/// Pins `lucy_explain::reason_for`.
pub fn reason_for(
    alloc: Global,
    needs: &Needs,
    shape: &Shape,
    variable: u32,
) -> Result<Option<Reason>, AllocError>
    requires { IsShapeFor needs.now shape.now }
    ensures variable { IfOk result (λ found. IfSome found (λ r. r.variable ≡ variable)) }
    ensures reason { IfOk result (λ found. IfSome found (IsReasonFor needs.now shape.now)) }
{
    lucy_explain::reason_for(alloc, needs, shape, variable)
}

/// Pins `lucy_explain::reasons_are_least`.
pub fn reasons_are_least()
    ensures { ReasonLaw }
{
    lucy_explain::reasons_are_least();
}

/// Pins `lucy_explain::waits_of`.
pub fn waits_of(
    alloc: Global,
    write: &Word,
    read: &Word,
    items: u64,
) -> Result<Vec<u64>, AllocError>
    ensures waits { IfOk result (λ v. AreWaits write.now read.now v.items) }
    ensures few { IfOk result (λ v. length v.items ≤ items) }
{
    lucy_explain::waits_of(alloc, write, read, items)
}

/// Pins `lucy_explain::lines_follow`.
pub fn lines_follow()
    ensures follows { FollowsLaw }
    ensures sum { SumLaw }
{
    lucy_explain::lines_follow();
}
