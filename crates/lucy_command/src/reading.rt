// The command that a list of words names.
ghost use Rattle.std.specs.Prelude.{◌≡◌, ◌≢◌, [], None, IfOk, IfErr, IfSome, map, string_bytes};
ghost use Rattle.std.specs.Option.{option_map, option_and_then};
ghost use Rattle.lucy_command.specs.Commands as spec;
ghost use Rattle.lucy_command.specs.Seen.{seen, AreFull};
ghost use Rattle.lucy_command.specs.Named.{named, IsWithin};

use crate::command::{Command, command_with};
use crate::folding::texts_of;
use crate::matching::texts_in;
use crate::names::{Name, name_of};
use crate::spelling::spell;
use crate::texts::Texts;
use std::alloc::{AllocError, Global};

// The command's name and the texts of the words, where they fit it.
fn judged(words: &[String]) -> Option<(Name, Texts<'_>)>
    ensures is { option_and_then (λ found. spec.command_with found.0 (seen found.1)) result ≡ spec.command_of (map string_bytes words.now) }
    ensures fits { IfSome result (λ found. spec.command_with found.0 (seen found.1) ≢ None) }
    ensures full { IfSome result (λ found. AreFull (seen found.1)) }
{
    let (word, behind) = words.split_first()?;
    let name = name_of(word.as_str())?;
    let texts = texts_of(name, behind)?;
    if command_with(name, &texts).is_none() {
        return None;
    }
    Some((name, texts))
}

/// The command that the words name, or none. The words are judged first, so that those that name none are never refused for want of
/// memory. Where they name one, the texts of its options and of its operands are spelled into the list `spelled`, which is empty
/// before, and `clap` reads them there.
pub fn read<'a>(
    alloc: Global,
    words: &[String],
    spelled: &'a mut Vec<String>,
) -> Result<Option<Command<'a>>, AllocError>
    requires { spelled.old.items ≡ [] }
    ensures ok { IfOk result (λ command. option_map named command ≡ spec.command_of (map string_bytes words.now)) }
    ensures within { IfOk result (λ command. IfSome command (λ c. IsWithin (named c))) }
    // Words that name no command are never refused for want of memory.
    ensures err { IfErr result (λ _. spec.command_of (map string_bytes words.now) ≢ None) }
{
    let Some((name, texts)) = judged(words) else {
        return Ok(None);
    };
    spell(alloc, &texts, spelled)?;
    let found = texts_in(alloc, spelled)?;
    Ok(command_with(name, &found))
}
