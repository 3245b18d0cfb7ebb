// What the words say, as `clap` reads them.
ghost use Rattle.std.specs.Prelude.{◌≡◌, ◌≤◌, ◌⊎◌, [], None, IfOk, IfErr, IfSome, IfNone, codes, map, string_bytes};
ghost use Rattle.std.specs.Option.{option_map};
ghost use Rattle.clap.specs.Walk.{rows_of, first_of};
ghost use Rattle.lucy_fields.specs.Numbers.{number_of};
ghost use Rattle.lucy_command.specs.Named.{IsScale};
ghost use Rattle.lucy_command.specs.Names.{most_buffer};
ghost use Rattle.lucy_command.specs.Parts.{halves_at};
ghost use Rattle.clap.specs.Simple.{subcommand_rows_of};
ghost use Rattle.clap.specs.Matches.{found_of};
ghost use Rattle.clap.specs.Faults.{fault_of};
ghost use Rattle.clap.specs.Kinds.{HasKind};
ghost use Rattle.lucy_word.specs.Limits.{limit_number};
ghost use Rattle.lucy_word.specs.declared.limit.Limit.TheVariants as limit;
ghost use Rattle.lucy_asking.specs.declared.name.Name.TheVariants as names;
ghost use Rattle.lucy_asking.specs.declared.ask.Ask.{Ask as Asked};
ghost use Rattle.lucy_asking.specs.declared.ask.Sought.TheVariants as aim;
ghost use Rattle.lucy_asking.specs.CommandLine.{line};
ghost use Rattle.lucy_asking.specs.Asks as spec;
ghost use Rattle.lucy_asking.specs.Asks.{asked_name, SaysProgram, Says, AsksBy, Asks, AreFactors, IsWithin};
ghost use Rattle.lucy_asking.specs.Saying.{IsSaid, IsLacking};

use crate::ask::{
    Ask, FileWords, NetWords, PageWords, Picture, Sought, TimeWords, WaveWords, WhereWords,
    WhyWords,
};
use crate::commands::command;
use crate::name::{Name, name_of};
use clap::{ArgMatches, Error};
use lucy_word::Limit;
use std::alloc::Global;

// The greatest number of a buffer.
const MOST_BUFFER: u64 = 9_999_999;

// The text of an operand.
fn text<'a>(matches: &ArgMatches<'a>, operand: &str) -> Option<&'a str>
    ensures { spec.HasOperand operand.now (rows_of (found_of matches.now)) result }
{
    matches.get_str(operand)
}

// The number of an option.
fn number(matches: &ArgMatches<'_>, option: &str) -> Option<u64>
    ensures { spec.HasNumber option.now (rows_of (found_of matches.now)) result }
{
    matches.get_one::<u64>(option)
}

// Whether a word stands there.
fn flag(matches: &ArgMatches<'_>, flag: &str) -> bool
    ensures { spec.HasFlag flag.now (rows_of (found_of matches.now)) result }
{
    matches.get_flag(flag)
}

// A number from 1 to 64, which is 1 where none is given.
fn factor(matches: &ArgMatches<'_>, option: &str) -> u64
    ensures is { spec.HasFactor option.now (rows_of (found_of matches.now)) result }
    ensures within { IsScale result }
{
    number(matches, option).unwrap_or(1).max(1u64).min(64u64)
}

// How many instants a run is given, which the words keep within the limit.
fn instants(matches: &ArgMatches<'_>) -> Option<u64>
    ensures is { spec.HasInstants (rows_of (found_of matches.now)) result }
    ensures few { IfSome result (λ n. n ≤ limit_number limit.Instants) }
{
    Some(number(matches, "instants")?.min(Limit::Instants.number()))
}

// What the words of a command on a program say.
fn file_words<'a>(matches: &ArgMatches<'a>) -> Option<FileWords<'a>>
    ensures says { IfSome result (SaysProgram (rows_of (found_of matches.now))) }
    ensures within { IfSome result AreFactors }
    ensures none { result ≡ None → first_of (codes "FILE") (rows_of (found_of matches.now)) ≡ None }
{
    Some(FileWords {
        file: text(matches, "FILE")?,
        scale: factor(matches, "scale"),
        lead: factor(matches, "lead"),
    })
}

// What those behind `time` say.
fn time<'a>(matches: &ArgMatches<'a>) -> Option<Picture<'a>>
    ensures says { IfSome result (IsSaid names.Time (rows_of (found_of matches.now))) }
    ensures none { result ≡ None → IsLacking names.Time (rows_of (found_of matches.now)) }
{
    Some(Picture::Time(TimeWords {
        program: file_words(matches)?,
        node: text(matches, "NODE"),
        instants: number(matches, "instants"),
        svg: flag(matches, "svg"),
    }))
}

// What those behind `net` say.
fn net<'a>(matches: &ArgMatches<'a>) -> Option<Picture<'a>>
    ensures says { IfSome result (IsSaid names.Net (rows_of (found_of matches.now))) }
    ensures none { result ≡ None → IsLacking names.Net (rows_of (found_of matches.now)) }
{
    Some(Picture::Net(NetWords {
        program: file_words(matches)?,
        node: text(matches, "NODE"),
        flat: flag(matches, "flat"),
    }))
}

// The number of a place.
fn place_number(text: &str) -> Option<u32>
    ensures { spec.Spells 32 text.now result }
{
    text.parse().ok()
}

// An offset.
fn offset(text: &str) -> Option<u64>
    ensures { spec.Spells 64 text.now result }
{
    text.parse().ok()
}

// A place by its number, where there is one.
fn place_sought(number: Option<u32>) -> Option<Sought>
    ensures { result ≡ option_map aim.Place number }
{
    Some(Sought::Place(number?))
}

// An offset, where there is one.
fn offset_sought(number: Option<u64>) -> Option<Sought>
    ensures { result ≡ option_map aim.Offset number }
{
    Some(Sought::Offset(number?))
}

// What a word looks for: an offset, or a place by `#` and its number.
fn sought(word: &str) -> Option<Sought>
    ensures { spec.Seeks word.now result }
{
    match word.strip_prefix('#') {
        Some(number) => place_sought(place_number(number)),
        None => offset_sought(offset(word)),
    }
}

// What those behind `where` say.
fn place<'a>(matches: &ArgMatches<'a>) -> Option<Picture<'a>>
    ensures says { IfSome result (IsSaid names.Where (rows_of (found_of matches.now))) }
    ensures none { result ≡ None → IsLacking names.Where (rows_of (found_of matches.now)) }
{
    Some(Picture::Where(WhereWords {
        file: text(matches, "FILE")?,
        sought: sought(text(matches, "AT")?),
        node: text(matches, "NODE"),
    }))
}

// What those behind `page` say.
fn page<'a>(matches: &ArgMatches<'a>) -> Option<Picture<'a>>
    ensures says { IfSome result (IsSaid names.Page (rows_of (found_of matches.now))) }
    ensures none { result ≡ None → IsLacking names.Page (rows_of (found_of matches.now)) }
{
    Some(Picture::Page(PageWords {
        program: file_words(matches)?,
        instants: number(matches, "instants"),
    }))
}

// What stands before the first `.` of a word, and behind it.
fn parted(word: &str) -> Option<(&str, &str)>
    ensures { option_map (λ h. (h.0.now, h.1.now)) result ≡ halves_at 46 word.now }
{
    word.split_once('.')
}

// The number of a buffer, which one to seven digits spell.
fn buffer_number(digits: &str) -> Option<u64>
    ensures is { result ≡ number_of 7 0 most_buffer digits.now }
    ensures most { IfSome result (λ n. n ≤ most_buffer) }
{
    lucy_fields::number(digits.as_bytes(), 7, 0, MOST_BUFFER)
}

// The name of a node and the number of a buffer, as `lucy tighten` takes them.
fn buffer_named(word: &str) -> Option<(&str, u32)>
    ensures { option_map (λ b. (b.0.now, b.1)) result ≡ spec.buffer_in word.now }
{
    let (name, digits) = parted(word)?;
    let number = buffer_number(digits)? as u32;
    Some((name, number))
}

// What those behind `why` say.
fn why<'a>(matches: &ArgMatches<'a>) -> Option<Picture<'a>>
    ensures says { IfSome result (IsSaid names.Why (rows_of (found_of matches.now))) }
    ensures none { result ≡ None → IsLacking names.Why (rows_of (found_of matches.now)) }
{
    Some(Picture::Why(WhyWords {
        program: file_words(matches)?,
        buffer: buffer_named(text(matches, "BUFFER")?),
    }))
}

// What those behind the name of a picture's command say.
fn pictured<'a>(name: Name, matches: &ArgMatches<'a>) -> Option<Picture<'a>>
    ensures says { IfSome result (IsSaid name (rows_of (found_of matches.now))) }
    ensures none { result ≡ None → (name ≡ names.Wave) ⊎ IsLacking name (rows_of (found_of matches.now)) }
{
    match name {
        Name::Time => time(matches),
        Name::Net => net(matches),
        Name::Wave => None,
        Name::Where => place(matches),
        Name::Page => page(matches),
        Name::Explain => Some(Picture::Explain(file_words(matches)?)),
        Name::Why => why(matches),
        Name::Freeze => Some(Picture::Freeze(file_words(matches)?)),
    }
}

// What those behind the name of a command ask for.
fn asked<'a>(name: Name, matches: &ArgMatches<'a>) -> Option<Ask<'a>>
    ensures name { IfSome result (λ ask. asked_name ask ≡ name) }
    ensures says { IfSome result (Says (rows_of (found_of matches.now))) }
    ensures within { IfSome result IsWithin }
    ensures none { result ≡ None → IsLacking name (rows_of (found_of matches.now)) }
{
    if let Name::Wave = name {
        return Some(Ask::Wave(WaveWords {
            program: file_words(matches)?,
            instants: instants(matches),
        }));
    }
    Some(Ask::Picture(pictured(name, matches)?))
}

// What `clap` has found.
fn found<'a>(matches: &ArgMatches<'a>) -> Option<Ask<'a>>
    ensures asks { IfSome result (AsksBy (subcommand_rows_of matches.now)) }
    ensures within { IfSome result IsWithin }
    ensures none { result ≡ None → (a : Asked) → AsksBy (subcommand_rows_of matches.now) a → ⊥ }
{
    let (word, matches) = matches.subcommand()?;
    asked(name_of(word)?, matches)
}

/// What the words ask for, the first of which is the program's own name, or nothing where `clap` takes them and they name no command with its
/// operands. An error is the text that goes out instead: the help, the version, or what is wrong with the words; also that memory ran out.
pub fn read(alloc: Global, words: &[String]) -> Result<Option<Ask<'_>>, Error>
    ensures taken { IfOk result (λ asked. fault_of line (map string_bytes words.now) ≡ []) }
    ensures asks { IfOk result (λ asked. IfSome asked (Asks (map string_bytes words.now))) }
    ensures within { IfOk result (λ asked. IfSome asked IsWithin) }
    ensures none { IfOk result (λ asked. IfNone asked ((a : Asked) → Asks (map string_bytes words.now) a → ⊥)) }
    ensures refused { IfErr result (HasKind (fault_of line (map string_bytes words.now))) }
{
    let matches = command(alloc)?.try_get_matches_from(words)?;
    Ok(found(&matches))
}
