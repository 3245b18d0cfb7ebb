// A text that is no program: where, and what could stand there.
use crate::tell::page::Page;
use lucy_syntax::{SyntaxError, parse};
use lucy_tree::Span;
use lucy_word::{Limit, Word, WordError};
use std::alloc::{AllocError, Global};

// Fronts of more bytes aren't tried with what could follow.
const TRIED: usize = 65_536;

/// Tokens of a kind that have many spellings, with one that can be no other token.
const KINDS: [(&str, &str); 3] = [("a name", "z"), ("a number", "7"), ("a word", "0{2}(1)")];

// All other tokens: the keywords and the signs.
const MARKS: &str =
    "let node where rec and when whenot merge fby buffer at host if then else not true false int bool ( ) , : :: = == != < <= > >= + - * / % && ||";

// The signs of two bytes.
const SIGNS: [&str; 7] = ["::", "==", "!=", "<=", ">=", "&&", "||"];

// Whether a token may follow this front: then what is refused is no earlier than the end.
fn may_follow(alloc: Global, front: &[u8], token: &[u8]) -> Result<bool, AllocError> {
    let mut text = front.to_vec(alloc)?;
    text.push(b' ')?;
    text.extend_from_slice(token)?;
    match parse(alloc, &text) {
        Ok(_) => Ok(true),
        Err(SyntaxError::Unexpected(at)) => Ok(at >= text.len() as u64),
        Err(SyntaxError::OutOfMemory) => Err(AllocError),
        Err(_) => Ok(false),
    }
}

// Whether a token may follow this front, as far as memory lasts.
fn follows(page: &mut Page<'_>, front: &[u8], token: &[u8]) -> bool {
    match may_follow(page.alloc, front, token) {
        Ok(may) => may,
        Err(_) => {
            page.full = true;
            false
        }
    }
}

// Puts one that could stand here last.
fn put_one(page: &mut Page<'_>, begun: bool, text: &str, quoted: bool) {
    page.say(if begun { ", " } else { "here could stand: " });
    if quoted {
        page.quote(text.as_bytes())
    } else {
        page.say(text)
    }
}

// Puts those of many spellings last that may follow a front, and answers whether there are any.
fn put_kinds(page: &mut Page<'_>, front: &[u8]) -> bool {
    let mut begun = false;
    for (name, spelling) in KINDS {
        if follows(page, front, spelling.as_bytes()) {
            put_one(page, begun, name, false);
            begun = true;
        }
    }
    begun
}

// Puts the other tokens last that may, and answers whether there are any by now.
fn put_marks(page: &mut Page<'_>, front: &[u8], begun: bool) -> bool {
    let mut begun = begun;
    for mark in MARKS.split(' ') {
        if follows(page, front, mark.as_bytes()) {
            put_one(page, begun, mark, true);
            begun = true;
        }
    }
    begun
}

// Puts the tokens last that may follow a front.
fn put_followers(page: &mut Page<'_>, front: &[u8]) {
    let begun = put_kinds(page, front);
    if put_marks(page, front, begun) {
        page.put(b"\n");
    }
}

// Puts what stands where it can't last, and what could.
fn put_unexpected(page: &mut Page<'_>, at: usize) {
    let text = page.text;
    if at >= text.len() {
        page.say("the text ends here, and more is missing\n");
    }
    if at > TRIED {
        return page.say("what could stand here is not tried so far behind the begin of a text\n");
    }
    put_followers(page, &text[..at.min(text.len())])
}

// The bytes from here on.
fn rest_at(text: &[u8], at: usize) -> &[u8] {
    &text[at.min(text.len())..]
}

// The bytes from here up to the first parenthesis that closes.
fn word_at(text: &[u8], at: usize) -> &[u8] {
    let rest = rest_at(text, at);
    match rest.iter().position(|byte| *byte == b')') {
        Some(end) => &rest[..end.saturating_add(1).min(rest.len())],
        None => rest,
    }
}

// Whether a byte goes on with what begins with another one: letters of several bytes, a number behind its sign, or a name or a number.
fn goes_on(first: u8, byte: u8) -> bool {
    if first >= 128 {
        return byte >= 128;
    }
    if first == b'-' {
        return byte.is_ascii_digit();
    }
    byte.is_ascii_alphanumeric() || byte == b'_'
}

// How many bytes at the front of a text go on with this one.
fn run_of(first: u8, text: &[u8]) -> usize {
    'each: for (i, byte) in text.iter().enumerate() {
        if !goes_on(first, *byte) {
            return i;
        }
    }
    text.len()
}

// How many bytes at the front of a text are a sign: two, or else one.
fn sign_of(text: &[u8]) -> usize {
    for sign in SIGNS {
        if text.starts_with(sign.as_bytes()) {
            return 2;
        }
    }
    1
}

// How many bytes at the front of a text can't stand there: those of a name, a number, a sign or letters of several bytes, or one; none at the
// end of a line.
fn unit_of(text: &[u8]) -> usize {
    let Some((first, others)) = text.split_first() else {
        return 0;
    };
    match *first {
        b'\n' | b'\r' => 0,
        first if first == b'-' || goes_on(first, first) => run_of(first, others).saturating_add(1),
        _ => sign_of(text),
    }
}

// Whether the comment with which a text begins has an end.
fn has_end(text: &[u8]) -> bool {
    let mut star = false;
    'each: for (i, byte) in text.iter().enumerate() {
        if star && *byte == b')' {
            return true;
        }
        star = i > 1 && *byte == b'*';
    }
    false
}

// Puts the line of an offset last, with a mark below it, and keeps so many bytes from there on as those of which is told, if any.
fn show_wrong(page: &mut Page<'_>, at: usize, bytes: usize) {
    let end = at.saturating_add(bytes);
    if let (Ok(from), Ok(to)) = (u32::try_from(at), u32::try_from(end))
        && from < to
    {
        page.keep(Span { from, to });
    }
    page.show(at)
}

// Puts what is wrong with a word last.
fn put_word_fault(page: &mut Page<'_>, at: usize) {
    let text = page.text;
    match Word::read(page.alloc, word_at(text, at)) {
        Ok(_) => page.say(
            "the period has no zero, and `whenot` and `merge` take what comes at zeros\n",
        ),
        Err(WordError::NoOne) => {
            page.say("the period has no one: nothing would ever come\n");
            page.helps("a stream that ends isn't a program here: give each period a one")
        }
        Err(WordError::TooLong) => {
            page.say("the word has more bits than ");
            page.number(Limit::Written.number());
            page.say(", the most that is written\n");
            page.helps("clocks of lines, and not of frames, or `when` behind `when`")
        }
        Err(WordError::BadWord(_)) => page.say("a count is 0\n"),
        Err(WordError::OutOfMemory) => page.full = true,
    }
}

// Puts what stands where it can't last: a comment without its end, or a token or a byte.
fn put_unexpected_at(page: &mut Page<'_>, at: usize) {
    let rest = rest_at(page.text, at);
    if rest.starts_with(b"(*") && !has_end(rest) {
        show_wrong(page, at, 2);
        page.say("the comment that begins here has no end\n");
        return page.helps("`*)` where it ends");
    }
    show_wrong(page, at, unit_of(rest));
    put_unexpected(page, at)
}

/// Puts why a text is no program last.
pub(crate) fn put_syntax(page: &mut Page<'_>, error: SyntaxError) {
    match error {
        SyntaxError::Unexpected(at) => put_unexpected_at(page, at as usize),
        SyntaxError::BadNumber(at) => {
            show_wrong(page, at as usize, unit_of(rest_at(page.text, at as usize)));
            page.say("numbers are from -9223372036854775808 to 9223372036854775807\n");
            page.helps("scale the numbers")
        }
        SyntaxError::BadWord(at) => {
            show_wrong(page, at as usize, word_at(page.text, at as usize).len());
            put_word_fault(page, at as usize)
        }
        SyntaxError::TooLarge(_) | SyntaxError::OutOfMemory => {}
    }
}
