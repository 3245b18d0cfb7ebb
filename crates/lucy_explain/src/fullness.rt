// Why a buffer of an accepted program is as full as it is, and how long its items wait.
ghost use Rattle.std.specs.Prelude.{ℕ, List, ◌≡◌, ◌<◌, true, false, length, IfOk, IfSome, IfNone};
ghost use Rattle.lucy_host.specs.Operators.{Operator};
ghost use Rattle.lucy_program.specs.Accepting.{IsAccepted};
ghost use Rattle.lucy_program.specs.Inferring.{AreOptions};
ghost use Rattle.lucy_explain.specs.Spans.{AreWithin};
ghost use Rattle.lucy_explain.specs.Waits.{HasBuffer};

use crate::spans::within;
use crate::tell::filled;
use lucy_place::Placed;
use lucy_program::{Accepted, Options};
use lucy_tree::Span;
use std::alloc::{AllocError, Global};

/// What is told of a buffer, line by line, and the spans of the text of which is told, in the order in which they are named.
#[derive(Drop)]
pub struct Filling {
    pub text: Vec<u8>,
    pub spans: Vec<Span>,
}

// Whether a node has a buffer of a number.
fn has_buffer(placed: &Placed, node: u32, buffer: u32) -> bool
    requires { node < length placed.now.nodes }
    ensures some { result ≡ true → HasBuffer placed.now.nodes node buffer }
    ensures none { result ≡ false → HasBuffer placed.now.nodes node buffer → ⊥ }
{
    let found = placed.node(node);
    buffer > 0 && buffer as usize <= found.buffers.list().len()
}

/// Why a buffer of a node of an accepted program is as full as it is, by the number of the node from 0 and its own from 1: its words, the
/// first instant at which it is fullest, how long items wait, the inequalities that let the first item that waits then be read no earlier
/// (a written node has none), and the sizes of all buffers of the program together. The options are those under which the program was
/// accepted. None, exactly where the node has no such buffer.
pub fn why(
    alloc: Global,
    text: &[u8],
    accepted: &Accepted,
    options: &Options,
    node: u32,
    buffer: u32,
) -> Result<Option<Filling>, AllocError>
    requires options { AreOptions options.now }
    requires accepted { (ops : List Operator) × IsAccepted ops options.now text.now accepted.now }
    requires node { node < length accepted.now.placed.nodes }
    ensures some { IfOk result (λ found. IfSome found (λ f. HasBuffer accepted.now.placed.nodes node buffer)) }
    ensures none { IfOk result (λ found. IfNone found (HasBuffer accepted.now.placed.nodes node buffer → ⊥)) }
    ensures spans { IfOk result (λ found. IfSome found (λ f. AreWithin (length text.now) f.spans.items)) }
{
    if !has_buffer(&accepted.placed, node, buffer) {
        return Ok(None);
    }
    let (told, spans) = filled(alloc, text, accepted, options, node, buffer)?;
    let spans = within(alloc, &spans, text.len())?;
    Ok(Some(Filling { text: told, spans }))
}
