// The command `tighten`: the least size of one buffer of the program of a file.
ghost use Rattle.std.specs.Prelude.{ℕ, List, ◌≡◌, ◌∷◌, [], ◌≤◌, length, slice_get, Some, None, Ok, IfSome, IfErr};
ghost use Rattle.lucy_place.specs.declared.placed.PlacedNode.{PlacedNode as Node};
ghost use Rattle.lucy_host.specs.Operators.{Operator};
ghost use Rattle.lucy_text.specs.Sources.{Unread};
ghost use Rattle.lucy_program.specs.Inferring.{AreOptions};
ghost use Rattle.lucy_program.specs.Accepting.{IsAccepted};
ghost use Rattle.lucy_command.specs.Named.{tighten_named, IsWithin};
ghost use Rattle.lucy_app.specs.Commands.{inferring_options};
ghost use Rattle.lucy_app.specs.Check.{RefusesCheck};
ghost use Rattle.lucy_app.specs.Programs.{OwesText};
ghost use Rattle.lucy_app.specs.Tighten as spec;
ghost use Rattle.lucy_app.specs.Tighten.{HasBuffer, OwesSize, OwesBuffer};
ghost use Rattle.lucy_app.specs.Outcomes.{bytes_of, IsOwedOutcome, Tellable, OwesNamed};

use crate::options::inferring;
use crate::refusal::Refusal;
use lucy_command::TightenWords;
use lucy_front::accept;
use lucy_host::Ops;
use lucy_place::Placed;
use lucy_program::{Accepted, Options};
use lucy_text::ShelfError;
use lucy_tight::{TightError, report_fixed, report_tight, tighten};
use std::alloc::Global;

/// The number of the first node of this name, from 0, or of all nodes where none has it.
pub fn node_named(placed: &Placed, name: &[u8]) -> u32
    ensures is { result ≡ spec.node_named placed.now.nodes name.now }
    ensures within { result ≤ length placed.now.nodes }
{
    let count = placed.nodes();
    let mut node = 0;
    'nodes: while node < count {
        if placed.node(node).name.text.bytes() == name {
            return node;
        }
        node += 1;
    }
    count
}

// The number of the node of this name, where it has a buffer of this number.
fn node_with(placed: &Placed, name: &[u8], buffer: u32) -> Option<u32>
    ensures some { IfSome result (λ node. HasBuffer placed.now.nodes name.now buffer × (node ≡ spec.node_named placed.now.nodes name.now)) }
    ensures none { result ≡ None → HasBuffer placed.now.nodes name.now buffer → ⊥ }
{
    let node = node_named(placed, name);
    if node == placed.nodes() {
        return None;
    }
    let buffers = placed.node(node).buffers.list().len();
    if buffer == 0 || buffers < buffer as usize {
        return None;
    }
    Some(node)
}

// What is printed of a buffer that is there, or why nothing is.
fn print_of(
    alloc: Global,
    accepted: &Accepted,
    options: &Options,
    node: u32,
    buffer: u32,
) -> Result<Vec<u8>, Refusal>
    requires options { AreOptions options.now }
    requires accepted { (ops : List Operator) × (text : List ℕ) × IsAccepted ops options.now text accepted.now }
    requires there { (n : Node) × (slice_get accepted.now.placed.nodes node ≡ Some n) × (1 ≤ buffer) × (buffer ≤ length n.buffers) }
    ensures outcome { IsOwedOutcome (OwesSize accepted.now options.now node buffer) result }
    ensures tellable { IfErr result Tellable }
{
    match tighten(alloc, accepted, options, node, buffer) {
        Ok(tight) => Ok(report_tight(alloc, accepted, node, buffer, &tight)?),
        Err(TightError::Fixed(size)) => Ok(report_fixed(alloc, accepted, node, buffer, size)?),
        Err(TightError::Limit(limit)) => {
            Err(Refusal::Program(lucy_front::Refusal::Limit(limit)))
        }
        Err(TightError::OutOfMemory) => Err(Refusal::OutOfMemory),
    }
}

// What is printed of the buffer of a program, or why nothing is.
fn buffer_of(
    alloc: Global,
    accepted: &Accepted,
    options: &Options,
    name: &[u8],
    buffer: u32,
) -> Result<Vec<u8>, Refusal>
    requires options { AreOptions options.now }
    requires accepted { (ops : List Operator) × (text : List ℕ) × IsAccepted ops options.now text accepted.now }
    ensures outcome { IsOwedOutcome (OwesBuffer accepted.now options.now name.now buffer) result }
    ensures tellable { IfErr result Tellable }
{
    let Some(node) = node_with(&accepted.placed, name, buffer) else {
        return Err(Refusal::NoBuffer);
    };
    print_of(alloc, accepted, options, node, buffer)
}

// What is printed of a text, or why nothing is.
fn text_of(
    alloc: Global,
    text: &[u8],
    ops: &Ops,
    options: &Options,
    name: &[u8],
    buffer: u32,
) -> Result<Vec<u8>, Refusal>
    requires { AreOptions options.now }
    ensures outcome { IsOwedOutcome (OwesText (RefusesCheck ops.now options.now)
        (OwesNamed ops.now options.now name.now buffer) Unread (Ok text.now ∷ [])) result }
    ensures tellable { IfErr result Tellable }
{
    let accepted = match accept(alloc, text, ops, options) {
        Ok(accepted) => accepted,
        Err(reason) => return Err(Refusal::from(reason)),
    };
    buffer_of(alloc, &accepted, options, name, buffer)
}

/// What `tighten` prints of what the fetch gave, where the host has these operators, or why it has no answer.
pub(crate) fn answer(
    alloc: Global,
    fetched: Result<Vec<u8>, ShelfError>,
    ops: &Ops,
    words: TightenWords<'_>,
) -> Result<Vec<u8>, Refusal>
    requires { IsWithin (tighten_named words) }
    ensures outcome { IsOwedOutcome (OwesText (RefusesCheck ops.now (inferring_options words.entry.scale words.entry.lead))
        (OwesNamed ops.now (inferring_options words.entry.scale words.entry.lead) words.entry.node.now words.entry.buffer)
        Unread (bytes_of fetched ∷ [])) result }
    ensures tellable { IfErr result Tellable }
{
    let text = match fetched {
        Ok(text) => text,
        Err(error) => return Err(Refusal::from(error)),
    };
    let options = inferring(words.scale, words.lead);
    text_of(
        alloc,
        &text,
        ops,
        &options,
        words.node.as_bytes(),
        words.buffer,
    )
}
