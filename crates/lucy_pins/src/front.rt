// What a text is accepted as, or why it is refused, and what is printed of a refusal.
ghost use Rattle.std.specs.Prelude.{◌≡◌, ◌⊎◌, IfOk, IfErr, MatchResult, ◌<◌, Some, length, slice_get};
ghost use Rattle.lucy_program.specs.declared.accepted.Accepted.{Accepted as Program};
ghost use Rattle.lucy_front.specs.declared.refusal.Refusal.{Refusal as Reason};
ghost use Rattle.lucy_front.specs.declared.refusal.Refusal.TheVariants as reason;
ghost use Rattle.lucy_program.specs.Accepting.{IsAccepted};
ghost use Rattle.lucy_front.specs.Refusing.{Refuses};
ghost use Rattle.lucy_program.specs.Inferring.{AreOptions};
ghost use Rattle.lucy_front.specs.OneAnswer.{AreAlike, HaveOneProgram, AreNotRefused, HaveOneAcceptance, AcceptedAreNotRefused, AreRefusedInOneWay};
ghost use Rattle.lucy_front.specs.Refusals.{IsTellable, AreBelow};
ghost use Rattle.lucy_place.specs.declared.placed.PlacedNode.{PlacedNode as Node};
ghost use Rattle.lucy_clock.specs.Clocks.{clocks_of};
ghost use Rattle.lucy_shape.specs.Fitting.{variable_count};
ghost use Rattle.lucy_front.specs.Evidence as evidence;
ghost use Rattle.lucy_front.specs.Refusals as refusals;

use lucy_front::Refusal;
use lucy_host::Ops;
use lucy_program::{Accepted, Options};
use lucy_shape::Shape;
use lucy_solve::Diffs;
use std::alloc::{AllocError, Global};

/// Pins `lucy_front::accept`.
pub fn accept(alloc: Global, text: &[u8], ops: &Ops, options: &Options) -> Result<Accepted, Refusal>
    requires { AreOptions options.now }
    ensures ok { IfOk result (IsAccepted ops.now options.now text.now) }
    ensures refused { IfErr result (Refuses ops.now options.now text.now) }
    ensures accepted { (a : Program) → IsAccepted ops.now options.now text.now a → IfErr result (λ e. e ≡ reason.OutOfMemory) }
    ensures rejected { (r : Reason) → Refuses ops.now options.now text.now r → (r ≡ reason.OutOfMemory → ⊥) → MatchResult result (λ _. ⊥) (λ e. (e ≡ reason.OutOfMemory) ⊎ AreAlike r e) }
    ensures tellable { IfErr result IsTellable }
{
    lucy_front::accept(alloc, text, ops, options)
}

/// Pins `lucy_front::cycle_text`.
pub fn cycle_text(
    alloc: Global,
    accepted: &Accepted,
    node: u32,
    shape: &Shape,
    diffs: &Diffs,
    cycle: &[u32],
) -> Result<Vec<u8>, AllocError>
    requires node { node < length accepted.now.placed.nodes }
    requires clocks { (n : Node) → slice_get accepted.now.placed.nodes node ≡ Some n → length shape.now.clocks ≡ clocks_of n }
    requires variables { diffs.now.count ≡ variable_count shape.now.clocks }
    requires there { AreBelow (length diffs.now.list) cycle.now }
    ensures { (n : Node) → slice_get accepted.now.placed.nodes node ≡ Some n →
        IfOk result (λ v. v.items ≡ evidence.cycle_lines (evidence.variable_names n shape.now.clocks) diffs.now.list cycle.now) }
{
    lucy_front::cycle_text(alloc, accepted, node, shape, diffs, cycle)
}

/// Pins `lucy_front::refusal_text`.
pub fn refusal_text(alloc: Global, refusal: &Refusal) -> Result<Vec<u8>, AllocError>
    requires { refusals.IsTellable refusal.now }
    ensures { IfOk result (λ v. v.items ≡ refusals.refusal_text refusal.now) }
{
    lucy_front::refusal_text(alloc, refusal)
}

/// Pins `lucy_front::texts_have_one_program`.
pub fn texts_have_one_program()
    ensures one { HaveOneProgram }
    ensures never_both { AreNotRefused }
{
    lucy_front::texts_have_one_program();
}

/// Pins `lucy_front::texts_have_one_answer`.
pub fn texts_have_one_answer()
    ensures one { HaveOneAcceptance }
    ensures never_both { AcceptedAreNotRefused }
    ensures one_refusal { AreRefusedInOneWay }
{
    lucy_front::texts_have_one_answer();
}
