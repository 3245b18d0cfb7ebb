// The names of the commands.
ghost use Rattle.std.specs.Prelude.{◌≡◌};
ghost use Rattle.lucy_asking.specs.Asks as spec;

/// A command's name.
#[derive(Clone, Copy)]
pub enum Name {
    Time,
    Net,
    Wave,
    Where,
    Page,
    Explain,
    Why,
    Freeze,
}

/// The command that a word names, in full.
pub(crate) fn name_of(word: &str) -> Option<Name>
    ensures { result ≡ spec.name_of word.now }
{
    if word == "time" {
        return Some(Name::Time);
    }
    if word == "net" {
        return Some(Name::Net);
    }
    if word == "wave" {
        return Some(Name::Wave);
    }
    if word == "where" {
        return Some(Name::Where);
    }
    if word == "page" {
        return Some(Name::Page);
    }
    if word == "explain" {
        return Some(Name::Explain);
    }
    if word == "why" {
        return Some(Name::Why);
    }
    if word == "freeze" {
        return Some(Name::Freeze);
    }
    None
}
