// The labels of a drawing, and the texts of words in them.
ghost use Rattle.std.specs.Prelude.{◌≡◌, ◌<◌, ◌++◌, length, take, map, slice_get, codes, OnOk, IfOk};
ghost use Rattle.lucy_flat.specs.Instances.{words_in};
ghost use Rattle.lucy_graphviz.specs.Labels as spec;
ghost use Rattle.lucy_graphviz.specs.Graphs.{label_text, head_text, label_at};

use crate::quote::put_quoted;
use lucy_picture::words_at;
use lucy_program::Accepted;
use lucy_text::Text;
use lucy_word::Word;
use std::alloc::{AllocError, Global};

// How many bytes of a text are shown, where it has more.
const SHOWN: usize = 60;

/// Puts these bytes last.
pub(crate) fn put(out: &mut Vec<u8>, bytes: &[u8]) -> Result<(), AllocError>
    ensures { OnOk result (out.new.items ≡ out.old.items ++ bytes.now) }
{
    out.extend_from_slice(bytes)?;
    Ok(())
}

/// Puts a label last, as an attribute.
pub(crate) fn put_label(label: &[u8], out: &mut Vec<u8>) -> Result<(), AllocError>
    ensures { OnOk result (out.new.items ≡ out.old.items ++ label_text label.now) }
{
    put(out, b"label=")?;
    put_quoted(label, out)
}

/// Puts the first lines of a drawing last.
pub(crate) fn put_head(name: &[u8], out: &mut Vec<u8>) -> Result<(), AllocError>
    ensures { OnOk result (out.new.items ≡ out.old.items ++ head_text name.now) }
{
    put(out, b"digraph ")?;
    put_quoted(name, out)?;
    put(out, b" {\n  graph [labeljust=l];\n  node [shape=box];\n")
}

// The front of a text that is shown, where it has more.
fn front_of(alloc: Global, text: &[u8]) -> Result<Vec<u8>, AllocError>
    requires { 60 < length text.now }
    ensures { IfOk result (λ front. front.items ≡ take 60 text.now ++ codes "..") }
{
    let mut front = Vec::new(alloc);
    put(&mut front, &text[..SHOWN])?;
    put(&mut front, b"..")?;
    Ok(front)
}

// A text, cut off where it is long.
fn cut(alloc: Global, text: &[u8]) -> Result<Text, AllocError>
    ensures { IfOk result (λ t. t ≡ spec.cut_text text.now) }
{
    if text.len() <= SHOWN {
        return Ok(Text::new(alloc, text)?);
    }
    Ok(Text::new(alloc, &front_of(alloc, text)?)?)
}

/// The text of a word, cut off where it is long.
pub(crate) fn word_label(alloc: Global, word: &Word) -> Result<Text, AllocError>
    ensures { IfOk result (λ text. text ≡ spec.word_label word.now) }
{
    let mut text = Vec::new(alloc);
    word.print(alloc, &mut text)?;
    cut(alloc, &text)
}

/// The texts of the words of a node's clocks, by their numbers.
pub(crate) fn word_labels(
    alloc: Global,
    accepted: &Accepted,
    node: u32,
) -> Result<Vec<Text>, AllocError>
    ensures { IfOk result (λ v. v.items ≡ map spec.word_label (words_in (slice_get accepted.now.clocks.items node))) }
{
    let mut labels = Vec::new(alloc);
    let words = words_at(&accepted.clocks, node);
    'each: for word in words {
        labels.push(word_label(alloc, word)?)?;
    }
    Ok(labels)
}

/// The text of a clock's word.
pub(crate) fn label_at(labels: &[Text], clock: u32) -> &[u8]
    ensures { result.now ≡ label_at labels.now clock }
{
    match labels.get(clock as usize) {
        Some(label) => label.bytes(),
        None => b"",
    }
}
