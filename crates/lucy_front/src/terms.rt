// How clocks, terms and needs are named in print.
ghost use Rattle.std.specs.Prelude.{◌≡◌, ◌++◌, IfOk, OnOk};
ghost use Rattle.lucy_word.specs.Spelling.{text_of};
ghost use Rattle.lucy_front.specs.Needs as spec;

use lucy_need::{Need, Term};
use lucy_place::PlacedNode;
use lucy_program::{bytes, place_name};
use lucy_text::Text;
use lucy_word::Word;
use std::alloc::{AllocError, Global};

/// A clock of a node: its base, a place, or the base of a call.
pub(crate) fn clock_name(alloc: Global, node: &PlacedNode, clock: u32) -> Result<Text, AllocError>
    ensures { IfOk result (λ text. text ≡ spec.clock_name node.now clock) }
{
    let places = node.places.list().len();
    if clock == 0 {
        Ok(Text::new(alloc, b"base")?)
    } else if clock as usize <= places {
        place_name(alloc, node, clock)
    } else {
        let call = clock as usize - places;
        Ok(Text::new(alloc, format!(in alloc; "call{call}")?.as_bytes())?)
    }
}

// The text of a word.
fn word_text(alloc: Global, word: &Word) -> Result<Vec<u8>, AllocError>
    ensures { IfOk result (λ v. v.items ≡ text_of word.now) }
{
    let mut text = Vec::new(alloc);
    word.print(alloc, &mut text)?;
    Ok(text)
}

// A term, on its word but for (1).
fn term_text(
    alloc: Global,
    node: &PlacedNode,
    term: &Term,
    out: &mut Vec<u8>,
) -> Result<(), AllocError>
    ensures { OnOk result (out.new.items ≡ out.old.items ++ spec.term_text node.now term.now) }
{
    let clock = clock_name(alloc, node, term.clock)?;
    let word = word_text(alloc, &term.word)?;
    bytes(clock.bytes(), out)?;
    if word.as_slice() == b"(1)".as_slice() {
        return Ok(());
    }
    bytes(b" on ", out)?;
    bytes(&word, out)
}

/// Puts a need of a node last.
pub(crate) fn need_text(
    alloc: Global,
    node: &PlacedNode,
    need: &Need,
    out: &mut Vec<u8>,
) -> Result<(), AllocError>
    ensures { OnOk result (out.new.items ≡ out.old.items ++ spec.need_text node.now need.now) }
{
    match need {
        Need::Equal(first, second) => {
            term_text(alloc, node, first, out)?;
            bytes(b" = ", out)?;
            term_text(alloc, node, second, out)
        }
        Need::Adapt(first, second) => {
            term_text(alloc, node, first, out)?;
            bytes(b" <: ", out)?;
            term_text(alloc, node, second, out)
        }
    }
}
