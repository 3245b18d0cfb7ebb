// The program that a command works on.
ghost use Rattle.std.specs.Prelude.{◌≡◌, ◌<◌, None, length, IfOk, IfErr, IfSome};
ghost use Rattle.std.specs.Option.{option_map};
ghost use Rattle.lucy_program.specs.Accepting.{IsAccepted};
ghost use Rattle.lucy_program.specs.Inferring.{AreOptions};
ghost use Rattle.lucy_app.specs.Check.{RefusesCheck};
ghost use Rattle.lucy_asking.specs.Asks.{AreFactors};
ghost use Rattle.lucy_views.specs.Meets as spec;
ghost use Rattle.lucy_views.specs.Owes as owed;
ghost use Rattle.lucy_views.specs.Owes.{HasNode};
ghost use Rattle.lucy_views.specs.Failures.{RefusesProgram, Tellable};

use crate::failure::Failure;
use lucy_app::{inferring, node_named};
use lucy_asking::FileWords;
use lucy_front::accept;
use lucy_host::Ops;
use lucy_place::Placed;
use lucy_program::{Accepted, Options};
use std::alloc::Global;

/// How the clocks of a program are found.
pub(crate) fn options(words: FileWords<'_>) -> Options
    requires { AreFactors words }
    ensures is { result ≡ spec.options_of words.entry }
    ensures within { AreOptions result }
{
    inferring(words.scale, words.lead)
}

/// The program of a text, or why it isn't accepted.
pub(crate) fn accepted(
    alloc: Global,
    words: FileWords<'_>,
    ops: &Ops,
    text: &[u8],
) -> Result<Accepted, Failure>
    requires { AreFactors words }
    ensures ok { IfOk result (IsAccepted ops.now (spec.options_of words.entry) text.now) }
    ensures refused { IfErr result (RefusesProgram (RefusesCheck ops.now (spec.options_of words.entry) text.now)) }
    ensures told { IfErr result Tellable }
{
    match accept(alloc, text, ops, &options(words)) {
        Ok(accepted) => Ok(accepted),
        Err(reason) => Err(Failure::from(reason)),
    }
}

// The number of the node that is asked for, or of all nodes where there is none.
fn number_of(placed: &Placed, name: Option<&str>) -> u32
    ensures { result ≡ owed.node_asked placed.now.nodes (option_map (λ s. s.now) name.entry) }
{
    match name {
        Some(name) => node_named(placed, name.as_bytes()),
        None => placed.nodes() - 1,
    }
}

/// The number of the node that is asked for, from 0: of the first of this name, or of main where none is given.
pub(crate) fn node_asked(placed: &Placed, name: Option<&str>) -> Option<u32>
    ensures some { IfSome result (λ node. HasNode placed.now.nodes (option_map (λ s. s.now) name.entry)
        × (node ≡ owed.node_asked placed.now.nodes (option_map (λ s. s.now) name.entry))) }
    ensures none { result ≡ None → HasNode placed.now.nodes (option_map (λ s. s.now) name.entry) → ⊥ }
    ensures within { IfSome result (λ node. node < length placed.now.nodes) }
{
    let node = number_of(placed, name);
    if node >= placed.nodes() {
        return None;
    }
    Some(node)
}
