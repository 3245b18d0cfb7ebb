// Which command words name.
ghost use Rattle.std.specs.Prelude.{◌≡◌, ◌≢◌, [], None, IfOk, IfErr, IfSome, map, string_bytes};
ghost use Rattle.std.specs.Option.{option_map};
ghost use Rattle.lucy_command.specs.Commands as commands;
ghost use Rattle.lucy_command.specs.Named.{named, IsWithin, IsBlock};
ghost use Rattle.lucy_command.specs.Named as parts;

use lucy_command::Command;
use std::alloc::{AllocError, Global};

/// Pins `lucy_command::read`.
pub fn read<'a>(
    alloc: Global,
    words: &[String],
    spelled: &'a mut Vec<String>,
) -> Result<Option<Command<'a>>, AllocError>
    requires { spelled.old.items ≡ [] }
    ensures ok { IfOk result (λ command. option_map named command ≡ commands.command_of (map string_bytes words.now)) }
    ensures within { IfOk result (λ command. IfSome command (λ c. IsWithin (named c))) }
    ensures err { IfErr result (λ _. commands.command_of (map string_bytes words.now) ≢ None) }
{
    lucy_command::read(alloc, words, spelled)
}

/// Pins `lucy_command::block_or_default`.
pub fn block_or_default(given: Option<u64>) -> u64
    ensures is { result ≡ parts.block_or_default given }
    ensures within { IfSome given IsBlock → IsBlock result }
{
    lucy_command::block_or_default(given)
}
