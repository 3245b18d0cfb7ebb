// The texts as `clap` reads them in the canonical list of words.
ghost use Rattle.std.specs.Prelude.{◌≡◌, ℕ, List, Some, false, IfOk, IfErr, map, string_bytes};
ghost use Rattle.clap.specs.Values.{kind_of};
ghost use Rattle.clap.specs.Matches.{found_of, first_value};
ghost use Rattle.clap.specs.Walk.{rule_of};
ghost use Rattle.clap.specs.Simple.{app_of};
ghost use Rattle.lucy_command.specs.Parts as parts;
ghost use Rattle.lucy_command.specs.Seen.{seen, seen_text, canonical, if_full, option_rule, app, AreFull, Holds};

use crate::texts::Texts;
use clap::error::ErrorKind;
use clap::{Arg, ArgMatches, Command, Error};
use std::alloc::{AllocError, Global};

// An option of this name.
fn option<'a>(alloc: Global, name: &'a str) -> Arg<'a>
    ensures rule { rule_of result ≡ option_rule name.entry.now }
    ensures local { result.global ≡ false }
{
    Arg::new(alloc, name).long(name)
}

// All options, and both operands.
fn command_line<'a>(alloc: Global) -> Result<Command<'a>, AllocError>
    ensures { IfOk result (λ command. app_of command ≡ app) }
{
    let all = vec![in alloc;
        option(alloc, "scale"),
        option(alloc, "lead"),
        option(alloc, "instants"),
        option(alloc, "workers"),
        option(alloc, "block"),
        Arg::new(alloc, "first"),
        Arg::new(alloc, "second"),
    ]?;
    Command::new(alloc, "lucy").args(all)
}

// What `clap` finds: each option has a text, and each operand too.
fn matches_of(alloc: Global, words: &[String]) -> Result<ArgMatches<'_>, Error>
    ensures found { (t : parts.Texts) → map string_bytes words.entry.now ≡ canonical t → IfOk result (λ m. Holds m t) }
    // Only memory can be wanting.
    ensures err { (t : parts.Texts) → map string_bytes words.entry.now ≡ canonical t → IfErr result (λ e. kind_of e ≡ ErrorKind.OutOfMemory) }
{
    let command = command_line(alloc)?;
    command.try_get_matches_from(words)
}

// The text of this name, where it is not empty.
fn text<'a>(matches: &ArgMatches<'a>, name: &str) -> Option<&'a str>
    ensures { (t : List ℕ) → first_value (found_of matches.now) name.now ≡ Some t → seen_text result ≡ if_full t }
{
    let text = matches.get_str(name)?;
    if text.is_empty() { None } else { Some(text) }
}

/// The texts that were spelled so.
pub(crate) fn texts_in(alloc: Global, words: &[String]) -> Result<Texts<'_>, AllocError>
    ensures { (t : parts.Texts) → AreFull t → map string_bytes words.now ≡ canonical t → IfOk result (λ found. seen found ≡ t) }
{
    let matches = match matches_of(alloc, words) {
        Ok(matches) => matches,
        Err(_) => return Err(AllocError),
    };
    Ok(Texts {
        scale: text(&matches, "scale"),
        lead: text(&matches, "lead"),
        instants: text(&matches, "instants"),
        workers: text(&matches, "workers"),
        block: text(&matches, "block"),
        first: text(&matches, "first"),
        second: text(&matches, "second"),
    })
}
