// Acceptance, phase by phase.
ghost use Rattle.std.specs.Prelude.{◌≡◌, ◌⊎◌, ◌<◌, length, IfOk, IfErr, MatchResult};
ghost use Rattle.lucy_program.specs.declared.accepted.Accepted.{Accepted as Program};
ghost use Rattle.lucy_front.specs.declared.refusal.Refusal.{Refusal as Reason};
ghost use Rattle.lucy_front.specs.declared.refusal.Refusal.TheVariants.{OutOfMemory};
ghost use Rattle.lucy_program.specs.Accepting.{IsClockedText, IsAccepted};
ghost use Rattle.lucy_front.specs.Refusing.{RefusesPhases, Refuses};
ghost use Rattle.lucy_program.specs.Inferring.{AreOptions};
ghost use Rattle.lucy_front.specs.OneAnswer.{AreAlike};
ghost use Rattle.lucy_front.specs.Refusals.{IsTellable};
ghost use Rattle.lucy_front.specs.Clocking.{clock_refusal};

use crate::clocked::Clocked;
use crate::clocking::node_clocks;
use crate::fault::{NoClocks, Unclocked};
use crate::refusal::Refusal;
use crate::scheduling::scheduled;
use lucy_host::Ops;
use lucy_naming::place;
use lucy_place::Placed;
use lucy_program::{Accepted, Options};
use lucy_syntax::parse;
use lucy_types::{TypeError, types};
use std::alloc::Global;

// The refusal of the program where a node of it has no clocks.
fn refusal(placed: Placed, unclocked: Unclocked) -> Refusal
    ensures { result ≡ clock_refusal placed unclocked }
{
    let node = unclocked.node;
    match unclocked.why {
        NoClocks::Fault(fault) => Refusal::Node {
            placed,
            node,
            fault,
        },
        NoClocks::Limit(limit) => Refusal::Limit(limit),
        NoClocks::OutOfMemory => Refusal::OutOfMemory,
    }
}

// The phases in order, up to the first that refuses.
fn phases(alloc: Global, text: &[u8], ops: &Ops, options: &Options) -> Result<Clocked, Refusal>
    requires { AreOptions options.now }
    ensures ok { IfOk result (λ c. IsClockedText ops.now options.now text.now c.placed c.typed c.clocks.items) }
    ensures refused { IfErr result (RefusesPhases ops.now options.now text.now) }
{
    let program = parse(alloc, text)?;
    let placed = place(alloc, &program, ops)?;
    let typed = match types(alloc, &placed) {
        Ok(typed) => typed,
        Err(TypeError::OutOfMemory) => return Err(Refusal::OutOfMemory),
        Err(TypeError::Clash { node, path }) => {
            return Err(Refusal::Types { placed, node, path });
        }
    };
    match node_clocks(alloc, &placed, options) {
        Ok(clocks) => Ok(Clocked {
            placed,
            typed,
            clocks,
        }),
        Err(unclocked) => Err(refusal(placed, unclocked)),
    }
}

// The phases, and then the net and its schedule.
fn planned(alloc: Global, text: &[u8], ops: &Ops, options: &Options) -> Result<Accepted, Refusal>
    requires { AreOptions options.now }
    ensures ok { IfOk result (IsAccepted ops.now options.now text.now) }
    ensures refused { IfErr result (Refuses ops.now options.now text.now) }
{
    scheduled(alloc, phases(alloc, text, ops, options)?)
}

/// The program of a text, where the host has these operators, with the types of its places and the clocks of its nodes, its
/// flat net with a schedule, and its inputs and outputs; or why it is refused: first for its length and its syntax, then for
/// its names, then for the types of all nodes; then node by node, where it has to be written and isn't, else where its needs
/// pass a limit; a written node then where a word that it hands down passes one, else where these words don't meet a need or
/// where the checker passes a limit; another node where its rates pass a limit, else where they don't agree, else where its
/// positions or inequalities pass one, else where there are no clocks of its shape, else where their words pass one; then for
/// the limits of the net, in the order `Actors`, `Rings`, `Slots`, `Word`, `Bits`; then for those of the schedule, `Schedule`
/// before `Events`; and at last where an item of the net reaches itself.
///
/// The options say whether each node has to be written, and in which shape the clocks of the others are inferred.
pub fn accept(alloc: Global, text: &[u8], ops: &Ops, options: &Options) -> Result<Accepted, Refusal>
    requires { AreOptions options.now }
    ensures ok { IfOk result (IsAccepted ops.now options.now text.now) }
    ensures refused { IfErr result (Refuses ops.now options.now text.now) }
    ensures accepted { (a : Program) → IsAccepted ops.now options.now text.now a → IfErr result (λ e. e ≡ OutOfMemory) }
    ensures rejected { (r : Reason) → Refuses ops.now options.now text.now r → (r ≡ OutOfMemory → ⊥) → MatchResult result (λ _. ⊥) (λ e. (e ≡ OutOfMemory) ⊎ AreAlike r e) }
    ensures tellable { IfErr result IsTellable }
{
    planned(alloc, text, ops, options)
}
