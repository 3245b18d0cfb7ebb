// The judgement of the words: a fold over them, which takes no memory.
ghost use Rattle.std.specs.Prelude.{◌≡◌, ◌≤◌, IfSome, map, length, string_bytes};
ghost use Rattle.std.specs.Option.{option_map};
ghost use Rattle.lucy_command.specs.Parts as spec;
ghost use Rattle.lucy_command.specs.Seen.{seen, seen_text, with_named, given_first, first_part, IsFull, AreFull};

use crate::names::{Name, Setting, allowed};
use crate::texts::Texts;

// Whether a word that begins with `-` is longer than that.
fn is_dashed(word: &str) -> bool
    ensures { result ≡ spec.is_dashed word.now }
{
    match word.as_bytes() {
        [] => false,
        [_] => false,
        [first, _, ..] => *first == b'-',
    }
}

// What stands before the first `=` of a word, and behind it.
fn halves(word: &str) -> Option<(&str, &str)>
    ensures { option_map (λ h. (h.0.now, h.1.now)) result ≡ spec.halves word.now }
{
    word.split_once('=')
}

// A text that is not empty, where none has stood before.
fn once<'a>(before: Option<&'a str>, text: &'a str) -> Option<&'a str>
    ensures is { seen_text result ≡ spec.once (seen_text before.entry) text.now }
    ensures full { IfSome (seen_text result) IsFull }
{
    match before {
        Some(_) => None,
        None => { if text.is_empty() { None } else { Some(text) } }
    }
}

impl<'a> Texts<'a> {
    // Those of no words.
    fn new() -> Texts<'a>
        ensures is { seen result ≡ spec.no_texts }
        ensures full { AreFull (seen result) }
    {
        Texts {
            scale: None,
            lead: None,
            instants: None,
            workers: None,
            block: None,
            first: None,
            second: None,
        }
    }

    // With the text of an operand, where one is free.
    fn with_operand(self, text: &'a str) -> Option<Texts<'a>>
        requires { AreFull (seen self) }
        ensures is { option_map seen result ≡ spec.with_part (seen self.entry) (spec.Operand text.now) }
        ensures full { IfSome result (λ t. AreFull (seen t)) }
    {
        match self.first {
            None => {
                let first = Some(once(None, text)?);
                Some(Texts { first, ..self })
            }
            Some(_) => {
                let second = Some(once(self.second, text)?);
                Some(Texts { second, ..self })
            }
        }
    }

    // With the text of an option.
    fn with_option(self, setting: Setting, text: &'a str) -> Option<Texts<'a>>
        requires { AreFull (seen self) }
        ensures is { option_map seen result ≡ spec.with_part (seen self.entry) (spec.Given setting text.now) }
        ensures full { IfSome result (λ t. AreFull (seen t)) }
    {
        match setting {
            Setting::Scale => {
                let scale = Some(once(self.scale, text)?);
                Some(Texts { scale, ..self })
            }
            Setting::Lead => {
                let lead = Some(once(self.lead, text)?);
                Some(Texts { lead, ..self })
            }
            Setting::Instants => {
                let instants = Some(once(self.instants, text)?);
                Some(Texts { instants, ..self })
            }
            Setting::Workers => {
                let workers = Some(once(self.workers, text)?);
                Some(Texts { workers, ..self })
            }
            Setting::Block => {
                let block = Some(once(self.block, text)?);
                Some(Texts { block, ..self })
            }
        }
    }

    // With those of words that are all operands.
    fn with_operands(self, words: &'a [String]) -> Option<Texts<'a>>
        requires { AreFull (seen self) }
        ensures is { option_map seen result ≡ spec.with_parts (seen self.entry) (map spec.Operand (map string_bytes words.now)) }
        ensures full { IfSome result (λ t. AreFull (seen t)) }
    {
        let mut texts = self;
        'each: for word in words {
            texts = texts.with_operand(word.as_str())?;
        }
        Some(texts)
    }
}

// The texts with that of the option of the command which a word is.
fn with_named<'a>(name: Name, texts: Texts<'a>, option: &str, text: &'a str) -> Option<Texts<'a>>
    requires { AreFull (seen texts) }
    ensures is { option_map seen result ≡ with_named name (seen texts.entry) option.now text.now }
    ensures full { IfSome result (λ t. AreFull (seen t)) }
{
    let setting = allowed(name, option)?;
    texts.with_option(setting, text)
}

// The texts with that of an option, as one word with it or as the next one, and how many words of the rest it takes.
fn with_given<'a>(
    name: Name,
    texts: Texts<'a>,
    word: &'a str,
    rest: &'a [String],
) -> Option<(Texts<'a>, usize)>
    requires { AreFull (seen texts) }
    ensures is { option_map (λ found. (seen found.0, found.1)) result
        ≡ given_first name (seen texts.entry) word.now (spec.halves word.now) (map string_bytes rest.now) }
    ensures full { IfSome result (λ found. AreFull (seen found.0)) }
    ensures within { IfSome result (λ found. found.1 ≤ length rest.now) }
{
    match halves(word) {
        Some((option, text)) => Some((with_named(name, texts, option, text)?, 0)),
        None => {
            let (text, _) = rest.split_first()?;
            Some((with_named(name, texts, word, text.as_str())?, 1))
        }
    }
}

// The texts with that of the part that begins with this word, which is not `--`, and how many words of the rest it takes.
fn with_first<'a>(
    name: Name,
    texts: Texts<'a>,
    word: &'a str,
    rest: &'a [String],
) -> Option<(Texts<'a>, usize)>
    requires { AreFull (seen texts) }
    ensures is { option_map (λ found. (seen found.0, found.1)) result ≡ first_part name (seen texts.entry) word.now (map string_bytes rest.now) }
    ensures full { IfSome result (λ found. AreFull (seen found.0)) }
    ensures within { IfSome result (λ found. found.1 ≤ length rest.now) }
{
    if is_dashed(word) {
        with_given(name, texts, word, rest)
    } else {
        Some((texts.with_operand(word)?, 0))
    }
}

/// The texts of the words behind the name of a command: each option once at most, at most two operands, and none is empty.
pub(crate) fn texts_of(name: Name, words: &[String]) -> Option<Texts<'_>>
    ensures is { option_map seen result ≡ spec.texts_of name (map string_bytes words.now) }
    ensures full { IfSome result (λ t. AreFull (seen t)) }
{
    let mut texts = Texts::new();
    let mut at = 0;
    'each: while at < words.len() {
        let word = words[at].as_str();
        let rest = &words[at + 1..];
        if word == "--" {
            return texts.with_operands(rest);
        }
        let (more, taken) = with_first(name, texts, word, rest)?;
        texts = more;
        at += 1 + taken;
    }
    Some(texts)
}
