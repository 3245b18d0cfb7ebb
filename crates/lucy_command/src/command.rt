// The commands.
ghost use Rattle.std.specs.Prelude.{◌≡◌, ◌≤◌, IfSome};
ghost use Rattle.std.specs.Option.{option_map};
ghost use Rattle.lucy_command.specs.Commands as spec;
ghost use Rattle.lucy_command.specs.declared.names.Name.TheVariants as Name;
ghost use Rattle.lucy_command.specs.Named.{named, clocks_named, kahn_named, AreStages, IsOf, IsWithin};
ghost use Rattle.lucy_command.specs.Names.{most_buffer};
ghost use Rattle.lucy_command.specs.Parts.{halves_at};
ghost use Rattle.lucy_command.specs.Seen.{seen, seen_text};

use crate::names::{Name, Setting};
use crate::numbers::number;
use crate::texts::Texts;
use crate::words::{
    ClocksWords, KahnWords, MakeWords, ReplayWords, RunWords, TightenWords, TraceWords,
};
use lucy_token::is_name;

/// A command, with what it works on.
#[derive(Clone, Copy)]
pub enum Command<'a> {
    Order,
    /// With the name of its file.
    Show(&'a str),
    /// With the name of its file.
    Types(&'a str),
    /// With the name of its file.
    Check(&'a str),
    Clocks(ClocksWords<'a>),
    Run(RunWords<'a>),
    Kahn(KahnWords<'a>),
    Make(MakeWords),
    Tighten(TightenWords<'a>),
    Replay(ReplayWords<'a>),
    Trace(TraceWords<'a>),
}

/// The most stages.
const MOST_STAGES: u64 = 256;

/// The greatest number of a buffer: that of seven digits.
const MOST_BUFFER: u64 = 9_999_999;

/// The scale, and the lead, where none is given.
const SCALE: u64 = 1;

/// The workers where none are given.
const WORKERS: u32 = 4;

// The number of an option, where one stands there.
fn given(setting: Setting, text: Option<&str>) -> Option<Option<u64>>
    ensures is { result ≡ spec.given setting (seen_text text.entry) }
    ensures within { IfSome result (λ n. IfSome n (IsOf setting)) }
{
    match text {
        None => Some(None),
        Some(text) => Some(Some(number(text, setting.least(), setting.most())?)),
    }
}

// The scale, or the lead.
fn scale_of(setting: Setting, text: Option<&str>) -> Option<u64>
    requires { IsOf setting 1 }
    ensures is { result ≡ spec.given_or 1 setting (seen_text text.entry) }
    ensures within { IfSome result (IsOf setting) }
{
    match text {
        None => Some(SCALE),
        Some(text) => number(text, setting.least(), setting.most()),
    }
}

// The workers.
fn workers_of(text: Option<&str>) -> Option<u32>
    ensures is { result ≡ spec.given_or 4 Setting.Workers (seen_text text.entry) }
    ensures within { IfSome result (IsOf Setting.Workers) }
{
    match text {
        None => Some(WORKERS),
        Some(text) => {
            let setting = Setting::Workers;
            Some(number(text, setting.least(), setting.most())? as u32)
        }
    }
}

// The workers, and the instants of a block.
fn playing_of(texts: &Texts<'_>) -> Option<(u32, Option<u64>)>
    ensures is { result ≡ spec.playing_of (seen texts.now) }
    ensures within { IfSome result (λ p. IsOf Setting.Workers p.0 × IfSome p.1 (IsOf Setting.Block)) }
{
    let workers = workers_of(texts.workers)?;
    let block = given(Setting::Block, texts.block)?;
    Some((workers, block))
}

// The stages.
fn stages_of(operand: Option<&str>) -> Option<u64>
    ensures is { result ≡ spec.stages_of (seen_text operand.entry) }
    ensures within { IfSome result AreStages }
{
    number(operand?, 1, MOST_STAGES)
}

// The operand, where there is no second one.
fn operand_of<'a>(texts: &Texts<'a>) -> Option<&'a str>
    ensures { seen_text result ≡ spec.operand_of (seen texts.now) }
{
    match texts.second {
        None => texts.first,
        Some(_) => None,
    }
}

// The file, and the scale and the lead.
fn clocks_with<'a>(operand: Option<&'a str>, texts: &Texts<'a>) -> Option<ClocksWords<'a>>
    ensures is { option_map clocks_named result ≡ spec.clocks_with (seen_text operand.entry) (seen texts.now) }
    ensures within { IfSome result (λ w. IsOf Setting.Scale w.scale × IsOf Setting.Lead w.lead) }
{
    let file = operand?;
    let scale = scale_of(Setting::Scale, texts.scale)?;
    let lead = scale_of(Setting::Lead, texts.lead)?;
    Some(ClocksWords { file, scale, lead })
}

// `clocks` of these texts.
fn clocks_command<'a>(texts: &Texts<'a>) -> Option<Command<'a>>
    ensures is { option_map named result ≡ spec.command_with Name.Clocks (seen texts.now) }
    ensures within { IfSome result (λ command. IsWithin (named command)) }
{
    Some(Command::Clocks(clocks_with(operand_of(texts), texts)?))
}

// The file, the scale and the lead, and the instants.
fn program_with<'a>(operand: Option<&'a str>, texts: &Texts<'a>) -> Option<KahnWords<'a>>
    ensures is { option_map kahn_named result ≡ spec.program_with (seen_text operand.entry) (seen texts.now) }
    ensures within { IfSome result (λ w. IsWithin (spec.Kahn (kahn_named w))) }
{
    let ClocksWords { file, scale, lead } = clocks_with(operand, texts)?;
    let instants = given(Setting::Instants, texts.instants)?;
    Some(KahnWords {
        file,
        scale,
        lead,
        instants,
    })
}

// What `kahn` works on.
fn kahn_words<'a>(texts: &Texts<'a>) -> Option<KahnWords<'a>>
    ensures is { option_map kahn_named result ≡ spec.program_words (seen texts.now) }
    ensures within { IfSome result (λ w. IsWithin (spec.Kahn (kahn_named w))) }
{
    program_with(operand_of(texts), texts)
}

// `run` of these texts.
fn run_command<'a>(texts: &Texts<'a>) -> Option<Command<'a>>
    ensures is { option_map named result ≡ spec.command_with Name.Run (seen texts.now) }
    ensures within { IfSome result (λ command. IsWithin (named command)) }
{
    let KahnWords {
        file,
        scale,
        lead,
        instants,
    } = kahn_words(texts)?;
    let (workers, block) = playing_of(texts)?;
    Some(Command::Run(RunWords {
        file,
        scale,
        lead,
        instants,
        workers,
        block,
    }))
}

// `make` of these texts.
fn make_command<'a>(texts: &Texts<'a>) -> Option<Command<'a>>
    ensures is { option_map named result ≡ spec.command_with Name.Make (seen texts.now) }
    ensures within { IfSome result (λ command. IsWithin (named command)) }
{
    let stages = stages_of(operand_of(texts))?;
    let (workers, block) = playing_of(texts)?;
    Some(Command::Make(MakeWords {
        stages,
        workers,
        block,
    }))
}

// What stands before the first `.` of a text, and behind it.
fn parted(text: &str) -> Option<(&str, &str)>
    ensures { option_map (λ h. (h.0.now, h.1.now)) result ≡ halves_at 46 text.now }
{
    text.split_once('.')
}

// The name of a node and the number of a buffer.
fn buffer_of(text: &str) -> Option<(&str, u32)>
    ensures is { option_map (λ b. (b.0.now, b.1)) result ≡ spec.buffer_of text.now }
    ensures within { IfSome result (λ b. b.1 ≤ most_buffer) }
{
    let (node, number_text) = parted(text)?;
    if !is_name(node.as_bytes()) {
        return None;
    }
    let buffer = number(number_text, 0, MOST_BUFFER)? as u32;
    Some((node, buffer))
}

// `tighten` of these texts.
fn tighten_command<'a>(texts: &Texts<'a>) -> Option<Command<'a>>
    ensures is { option_map named result ≡ spec.command_with Name.Tighten (seen texts.now) }
    ensures within { IfSome result (λ command. IsWithin (named command)) }
{
    let ClocksWords { file, scale, lead } = clocks_with(texts.first, texts)?;
    let (node, buffer) = buffer_of(texts.second?)?;
    Some(Command::Tighten(TightenWords {
        file,
        node,
        buffer,
        scale,
        lead,
    }))
}

// `replay` of these texts.
fn replay_command<'a>(texts: &Texts<'a>) -> Option<Command<'a>>
    ensures is { option_map named result ≡ spec.command_with Name.Replay (seen texts.now) }
    ensures within { IfSome result (λ command. IsWithin (named command)) }
{
    let KahnWords {
        file,
        scale,
        lead,
        instants,
    } = program_with(texts.first, texts)?;
    let log = texts.second?;
    Some(Command::Replay(ReplayWords {
        file,
        log,
        scale,
        lead,
        instants,
    }))
}

// `trace` of these texts.
fn trace_command<'a>(texts: &Texts<'a>) -> Option<Command<'a>>
    ensures is { option_map named result ≡ spec.command_with Name.Trace (seen texts.now) }
    ensures within { IfSome result (λ command. IsWithin (named command)) }
{
    let KahnWords {
        file,
        scale,
        lead,
        instants,
    } = kahn_words(texts)?;
    let workers = workers_of(texts.workers)?;
    Some(Command::Trace(TraceWords {
        file,
        scale,
        lead,
        instants,
        workers,
    }))
}

/// The command of this name with these texts, where they fit it.
pub(crate) fn command_with<'a>(name: Name, texts: &Texts<'a>) -> Option<Command<'a>>
    ensures is { option_map named result ≡ spec.command_with name (seen texts.now) }
    ensures within { IfSome result (λ command. IsWithin (named command)) }
{
    match name {
        Name::Order => match texts.first {
            None => Some(Command::Order),
            Some(_) => None,
        },
        Name::Show => Some(Command::Show(operand_of(texts)?)),
        Name::Types => Some(Command::Types(operand_of(texts)?)),
        Name::Check => Some(Command::Check(operand_of(texts)?)),
        Name::Clocks => clocks_command(texts),
        Name::Run => run_command(texts),
        Name::Kahn => Some(Command::Kahn(kahn_words(texts)?)),
        Name::Make => make_command(texts),
        Name::Tighten => tighten_command(texts),
        Name::Replay => replay_command(texts),
        Name::Trace => trace_command(texts),
    }
}
