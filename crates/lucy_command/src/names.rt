// The names of commands; their options, and the numbers of these.
ghost use Rattle.std.specs.Prelude.{◌≡◌};
ghost use Rattle.lucy_command.specs.Names as spec;

use lucy_word::Limit;

/// A command's name.
#[derive(Clone, Copy)]
pub(crate) enum Name {
    Order,
    Show,
    Types,
    Check,
    Clocks,
    Run,
    Kahn,
    Make,
    Tighten,
    Replay,
    Trace,
}

/// An option. Each takes a number.
#[derive(Clone, Copy)]
pub(crate) enum Setting {
    Scale,
    Lead,
    Instants,
    Workers,
    Block,
}

/// The command that a word names, in full.
pub(crate) fn name_of(word: &str) -> Option<Name>
    ensures { result ≡ spec.name_of word.now }
{
    match word {
        "order" => Some(Name::Order),
        "show" => Some(Name::Show),
        "types" => Some(Name::Types),
        "check" => Some(Name::Check),
        "clocks" => Some(Name::Clocks),
        "run" => Some(Name::Run),
        "kahn" => Some(Name::Kahn),
        "make" => Some(Name::Make),
        "tighten" => Some(Name::Tighten),
        "replay" => Some(Name::Replay),
        "trace" => Some(Name::Trace),
        _ => None,
    }
}

// The option that a word is.
fn setting_of(word: &str) -> Option<Setting>
    ensures { result ≡ spec.setting_of word.now }
{
    match word {
        "--scale" => Some(Setting::Scale),
        "--lead" => Some(Setting::Lead),
        "--instants" => Some(Setting::Instants),
        "--workers" => Some(Setting::Workers),
        "--block" => Some(Setting::Block),
        _ => None,
    }
}

/// The greatest scale, and the greatest lead.
const MOST_SCALE: u64 = 64;

/// The most workers.
const MOST_WORKERS: u64 = 64;

impl Setting {
    /// Its least number.
    pub(crate) fn least(self) -> u64
        ensures { result ≡ spec.least_of self }
    {
        match self {
            Setting::Scale => 1,
            Setting::Lead => 1,
            Setting::Instants => 0,
            Setting::Workers => 1,
            Setting::Block => 1,
        }
    }

    /// Its greatest number.
    pub(crate) fn most(self) -> u64
        ensures { result ≡ spec.most_of self }
    {
        match self {
            Setting::Scale => MOST_SCALE,
            Setting::Lead => MOST_SCALE,
            Setting::Instants => Limit::Instants.number(),
            Setting::Workers => MOST_WORKERS,
            Setting::Block => Limit::Instants.number(),
        }
    }
}

// Whether the command takes this option.
fn allows(name: Name, setting: Setting) -> bool
    ensures { result ≡ spec.allows name setting }
{
    match (name, setting) {
        (Name::Clocks, Setting::Scale) => true,
        (Name::Clocks, Setting::Lead) => true,
        (Name::Run, _) => true,
        (Name::Kahn, Setting::Scale) => true,
        (Name::Kahn, Setting::Lead) => true,
        (Name::Kahn, Setting::Instants) => true,
        (Name::Make, Setting::Workers) => true,
        (Name::Make, Setting::Block) => true,
        (Name::Tighten, Setting::Scale) => true,
        (Name::Tighten, Setting::Lead) => true,
        (Name::Replay, Setting::Scale) => true,
        (Name::Replay, Setting::Lead) => true,
        (Name::Replay, Setting::Instants) => true,
        (Name::Trace, Setting::Scale) => true,
        (Name::Trace, Setting::Lead) => true,
        (Name::Trace, Setting::Instants) => true,
        (Name::Trace, Setting::Workers) => true,
        _ => false,
    }
}

/// The option of the command that a word is.
pub(crate) fn allowed(name: Name, word: &str) -> Option<Setting>
    ensures { result ≡ spec.allowed name word.now }
{
    let setting = setting_of(word)?;
    if allows(name, setting) {
        Some(setting)
    } else {
        None
    }
}
