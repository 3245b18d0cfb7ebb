// What stands at the front of a text.
ghost use Rattle.std.specs.Prelude.{◌≡◌, ◌==◌, ◌&&◌, ◌+◌, ◌<◌, ◌≤◌, length, drop, IfSome};
ghost use Rattle.std.specs.List.{prefix_len};
ghost use Rattle.lucy_word.specs.Stages.{is_decimal};
ghost use Rattle.lucy_token.specs.Steps.{front_in};
ghost use Rattle.lucy_token.specs.Fronts as spec;
ghost use Rattle.lucy_token.specs.Scans as scan;

use crate::mark::{KEYWORDS, Mark, SIGNS};
use crate::state::{Context, wants_word};
use crate::token::Kind;
use lucy_fields::is_blank;
use lucy_word::Stage;

/// What stands at the front of a text: so many bytes between tokens, a token of a kind and a number of bytes, or, after
/// so many bytes, one that can't stand there.
#[derive(Clone, Copy)]
pub enum Front {
    Gap(usize),
    Token(Kind, usize),
    Bad(usize),
}

/// Whether it is a letter or `_`.
pub(crate) fn is_letter(c: u8) -> bool
    ensures { result ≡ spec.is_letter c }
{
    (b'a' <= c && c <= b'z') || (b'A' <= c && c <= b'Z') || c == b'_'
}

fn is_decimal(c: u8) -> bool
    ensures { result ≡ is_decimal c }
{
    b'0' <= c && c <= b'9'
}

fn is_name_byte(c: u8) -> bool
    ensures { result ≡ spec.is_name_byte c }
{
    is_letter(c) || is_decimal(c)
}

/// How many bytes at the front a name may have.
pub(crate) fn name_len(text: &[u8]) -> usize
    ensures value { result ≡ prefix_len spec.is_name_byte text.now }
    ensures within { result ≤ length text.now }
{
    text.iter().take_while(|c| is_name_byte(**c)).count()
}

fn number_len(text: &[u8]) -> usize
    ensures value { result ≡ prefix_len is_decimal text.now }
    ensures within { result ≤ length text.now }
{
    text.iter().take_while(|c| is_decimal(**c)).count()
}

/// The first byte, 0 where there is none.
pub(crate) fn head(text: &[u8]) -> u8
    ensures { result ≡ spec.head text.now }
{
    match text.first() {
        Some(c) => *c,
        None => 0,
    }
}

// The text without its first bytes, nothing where there are fewer.
pub(crate) fn skip(text: &[u8], n: usize) -> &[u8]
    ensures { result.now ≡ drop n text.now }
{
    if n <= text.len() {
        &text[n..]
    } else {
        &text[text.len()..]
    }
}

fn closes(c: u8, more: &[u8]) -> bool
    ensures { result ≡ (c == 42 && spec.head more.now == 41) }
{
    c == b'*' && head(more) == b')'
}

// How many bytes there are to the end of the first `*)`.
fn close(text: &[u8]) -> Option<usize>
    ensures value { result ≡ spec.close_of text.now }
    ensures within { IfSome result (λ n. n ≤ length text.now) }
{
    let mut rest = text;
    let mut n = 0;
    'bytes: while let Some((c, more)) = rest.split_first() {
        if closes(*c, more) {
            return Some(n + 2);
        }
        n += 1;
        rest = more;
    }
    None
}

#[tactic(auto, unfolding(crate::specs::Fronts::gap_of))]
fn gap(text: &[u8]) -> Front
    ensures { result ≡ spec.gap_of text.now }
{
    if is_blank(head(text)) {
        return Front::Gap(1);
    }
    match close(skip(text, 2)) {
        Some(n) => Front::Gap(n + 2),
        None => Front::Bad(0),
    }
}

/// The one of these that the bytes spell, else a name.
pub(crate) fn named_in(marks: &[Mark], bytes: &[u8]) -> Kind
    ensures { result ≡ spec.named_in marks.now bytes.now }
{
    for mark in marks {
        if bytes == mark.text().as_bytes() {
            return Kind::Mark(*mark);
        }
    }
    Kind::Name
}

// The first of these with which the text begins.
fn sign_in(marks: &[Mark], text: &[u8]) -> Front
    ensures { result ≡ spec.sign_in marks.now text.now }
{
    for mark in marks {
        let sign = mark.text().as_bytes();
        if text.starts_with(sign) {
            return Front::Token(Kind::Mark(*mark), sign.len());
        }
    }
    Front::Bad(0)
}

// A word where all of its form was read, else what breaks the form, behind so many bytes.
fn word_end(n: usize, stage: Stage) -> Front
    ensures { result ≡ scan.word_end n stage }
{
    match stage {
        Stage::Closed => Front::Token(Kind::Word, n),
        _ => Front::Bad(n),
    }
}

#[tactic(auto, unfolding(crate::specs::Scans::word_front))]
fn word(text: &[u8]) -> Front
    ensures { result ≡ scan.word_front text.now }
{
    let mut stage = Stage::begin();
    let mut rest = text;
    let mut length = 0;
    'bytes: while let Some((c, more)) = rest.split_first() {
        let Some(then) = stage.next(*c) else {
            return word_end(length, stage);
        };
        stage = then;
        rest = more;
        length += 1;
    }
    word_end(length, stage)
}

// How many bytes before the digits belong to a number.
fn minus(operand: bool, text: &[u8]) -> usize
    ensures value { result ≡ spec.minus_of operand text.now }
    ensures within { result ≤ 1 }
{
    if operand && head(text) == b'-' && is_decimal(head(skip(text, 1))) {
        1
    } else {
        0
    }
}

#[tactic(auto, unfolding(crate::specs::Fronts::plain_front))]
fn plain(operand: bool, text: &[u8]) -> Front
    ensures { result ≡ spec.plain_front operand text.now }
{
    if is_letter(head(text)) {
        let n = name_len(text);
        return Front::Token(named_in(&KEYWORDS, &text[..n]), n);
    }
    let minus = minus(operand, text);
    let digits = skip(text, minus);
    if is_decimal(head(digits)) {
        Front::Token(Kind::Number, minus + number_len(digits))
    } else {
        sign_in(&SIGNS, text)
    }
}

fn begins_gap(text: &[u8]) -> bool
    ensures { result ≡ spec.begins_gap text.now }
{
    is_blank(head(text)) || (head(text) == b'(' && head(skip(text, 1)) == b'*')
}

// What stands at the front of a text that is not empty.
pub(crate) fn at_front(context: &Context, text: &[u8]) -> Front
    ensures { result ≡ front_in context.now text.now }
{
    if begins_gap(text) {
        gap(text)
    } else if wants_word(context.before()) {
        word(text)
    } else {
        plain(context.begins_operand(), text)
    }
}
