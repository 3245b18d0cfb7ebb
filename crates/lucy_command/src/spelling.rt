// The one list of words that has these texts: every option as one word, in order, and then both operands.
ghost use Rattle.std.specs.Prelude.{◌≡◌, ◌++◌, ◌∷◌, [], OnOk, map, string_bytes};
ghost use Rattle.lucy_command.specs.Seen as spec;
ghost use Rattle.lucy_command.specs.Seen.{seen, seen_text};

use crate::texts::Texts;
use std::alloc::{AllocError, Global};

// The text, or the empty one.
fn or_empty(text: Option<&str>) -> &str
    ensures { result.now ≡ spec.or_empty (seen_text text.entry) }
{
    match text {
        Some(text) => text,
        None => "",
    }
}

// One word more: what it begins with, and then the text, where there is one.
fn add(
    alloc: Global,
    words: &mut Vec<String>,
    front: &str,
    text: Option<&str>,
) -> Result<(), AllocError>
    ensures { OnOk result (map string_bytes words.new.items ≡ map string_bytes words.old.items ++ ((front.now ++ spec.or_empty (seen_text text.entry)) ∷ [])) }
{
    let text = or_empty(text);
    words.push(format!(in alloc; "{front}{text}")?)?;
    Ok(())
}

/// Spells the texts into a list of words, which is empty before. What isn't there is spelled as an empty text.
pub(crate) fn spell(
    alloc: Global,
    texts: &Texts<'_>,
    words: &mut Vec<String>,
) -> Result<(), AllocError>
    requires { words.old.items ≡ [] }
    ensures { OnOk result (map string_bytes words.new.items ≡ spec.canonical (seen texts.now)) }
{
    add(alloc, words, "lucy", None)?;
    add(alloc, words, "--scale=", texts.scale)?;
    add(alloc, words, "--lead=", texts.lead)?;
    add(alloc, words, "--instants=", texts.instants)?;
    add(alloc, words, "--workers=", texts.workers)?;
    add(alloc, words, "--block=", texts.block)?;
    add(alloc, words, "--", None)?;
    add(alloc, words, "", texts.first)?;
    add(alloc, words, "", texts.second)
}
