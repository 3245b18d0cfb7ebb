// Why a program is refused, for people.
ghost use Rattle.std.specs.Prelude.{ℕ, ◌≡◌, ◌≢◌, ◌<◌, ◌≤◌, ◌∷◌, ◌++◌, length, slice_index, IfOk, IfSome, IfNone};
ghost use Rattle.lucy_program.specs.declared.accepted.Accepted.{Accepted as Program};
ghost use Rattle.lucy_front.specs.declared.refusal.Refusal.{Refusal as Reason};
ghost use Rattle.lucy_program.specs.Accepting.{IsAccepted};
ghost use Rattle.lucy_front.specs.Refusing.{Refuses};
ghost use Rattle.lucy_program.specs.Inferring.{AreOptions};
ghost use Rattle.lucy_front.specs.Refusals.{IsTellable, refusal_text};
ghost use Rattle.lucy_explain.specs.Begins.{first_line, BeginsAs};
ghost use Rattle.lucy_explain.specs.Spans.{AreWithin};

use crate::spans::within;
use crate::tell::told;
use lucy_front::{Refusal, accept, refusal_text};
use lucy_host::Ops;
use lucy_program::Options;
use lucy_tree::Span;
use std::alloc::{AllocError, Global};

/// An explanation: the refusal, unless the program is accepted, what is told of it, line by line, and the spans of the text of which is
/// told, in the order in which they are named, as an editor marks them.
#[derive(Drop)]
pub struct Explained {
    pub refusal: Option<Refusal>,
    pub text: Vec<u8>,
    pub spans: Vec<Span>,
}

// Where the first line of a text ends.
fn line_end(text: &[u8]) -> usize
    ensures within { result ≤ length text.now }
    ensures front { (k : ℕ) → k < result → slice_index text.now k ≢ 10 }
    ensures end { result < length text.now → slice_index text.now result ≡ 10 }
{
    'each: for (i, byte) in text.iter().enumerate() {
        if *byte == b'\n' {
            return i;
        }
    }
    text.len()
}

// A text up to its first line feed.
fn first_line(text: &[u8]) -> &[u8]
    ensures { result.now ≡ first_line text.now }
{
    let end = line_end(text);
    &text[..end]
}

// Two texts, one on lines behind the line that the other is.
fn joined(alloc: Global, first: &[u8], more: &[u8]) -> Result<Vec<u8>, AllocError>
    ensures { IfOk result (λ v. v.items ≡ first.now ++ 10 ∷ more.now) }
{
    let mut text = first.to_vec(alloc)?;
    text.push(b'\n')?;
    text.extend_from_slice(more)?;
    Ok(text)
}

// The text that begins with a refusal's first line, and has more on lines behind it.
fn headed(alloc: Global, refusal: &Refusal, more: &[u8]) -> Result<Vec<u8>, AllocError>
    requires { IsTellable refusal.now }
    ensures { IfOk result (λ v. BeginsAs refusal.now v.items) }
{
    let lines = refusal_text(alloc, refusal)?;
    joined(alloc, first_line(&lines), more)
}

// What is told of a refusal, and the spans of the text of which is told.
fn telling(
    alloc: Global,
    text: &[u8],
    ops: &Ops,
    refusal: &Refusal,
) -> Result<(Vec<u8>, Vec<Span>), AllocError>
    requires { IsTellable refusal.now }
    ensures begins { IfOk result (λ t. BeginsAs refusal.now t.0.items) }
    ensures spans { IfOk result (λ t. AreWithin (length text.now) t.1.items) }
{
    let (more, spans) = told(alloc, text, ops, refusal)?;
    let spans = within(alloc, &spans, text.len())?;
    let told = headed(alloc, refusal, &more)?;
    Ok((told, spans))
}

// An explanation of a refusal.
fn refused(alloc: Global, text: &[u8], ops: &Ops, refusal: Refusal) -> Result<Explained, AllocError>
    requires { IsTellable refusal }
    ensures refusal { IfOk result (λ e. IfSome e.refusal (λ r. r ≡ refusal)) }
    ensures some { IfOk result (λ e. IfNone e.refusal ⊥) }
    ensures begins { IfOk result (λ e. BeginsAs refusal e.text.items) }
    ensures spans { IfOk result (λ e. AreWithin (length text.now) e.spans.items) }
{
    match telling(alloc, text, ops, &refusal) {
        Ok((text, spans)) => Ok(Explained {
            refusal: Some(refusal),
            text,
            spans,
        }),
        Err(_) => {
            drop(refusal);
            Err(AllocError)
        }
    }
}

// What is told of an accepted program.
fn accepted(alloc: Global) -> Result<Explained, AllocError>
    ensures none { IfOk result (λ e. IfSome e.refusal (λ r. ⊥)) }
    ensures spans { IfOk result (λ e. (bytes : ℕ) → AreWithin bytes e.spans.items) }
{
    let text = b"lucy_view: nothing to explain: the program is accepted\n".to_vec(alloc)?;
    Ok(Explained {
        refusal: None,
        text,
        spans: Vec::new(alloc),
    })
}

/// Why the text is no program, where the host has these operators and clocks are found with these options, for people: on the first line
/// what `refusal_text` says of the refusal on its first line, and then what it rests on, with what stands in the text at the places that
/// are named, and what helps. An accepted program has no refusal, and a line says so. Where memory ran out, nothing is told.
pub fn explain(
    alloc: Global,
    text: &[u8],
    ops: &Ops,
    options: &Options,
) -> Result<Explained, AllocError>
    requires { AreOptions options.now }
    ensures accepted { IfOk result (λ e. IfNone e.refusal ((a : Program) × IsAccepted ops.now options.now text.now a)) }
    ensures refused { IfOk result (λ e. IfSome e.refusal (λ r. Refuses ops.now options.now text.now r)) }
    ensures begins { IfOk result (λ e. IfSome e.refusal (λ r. BeginsAs r e.text.items)) }
    ensures spans { IfOk result (λ e. AreWithin (length text.now) e.spans.items) }
{
    match accept(alloc, text, ops, options) {
        Ok(program) => {
            drop(program);
            accepted(alloc)
        }
        Err(Refusal::OutOfMemory) => Err(AllocError),
        Err(refusal) => refused(alloc, text, ops, refusal),
    }
}
