// Texts, cut into tokens.
use lucy_token::{Stop, SyntaxError, Tokens, What, tokens};
use lucy_word::Word;
use std::alloc::{AllocError, Global};
use std::{io, str};

fn print_word(rt: &(impl Print + AllocGlobal), word: &Word) -> io::Result<()> {
    let mut bytes = Vec::new(rt.alloc());
    let text = match word.print(rt.alloc(), &mut bytes) {
        Ok(()) => str::from_utf8(&bytes).unwrap_or("?"),
        Err(_) => "no memory",
    };
    print!(rt; "word {text}")
}

fn print_what(rt: &(impl Print + AllocGlobal), what: &What<'_>) -> io::Result<()> {
    match what {
        What::Mark(mark) => print!(rt; "{}", mark.text()),
        What::Name(name) => print!(rt; "name {}", str::from_utf8(name.bytes()).unwrap_or("?")),
        What::Number(n) => print!(rt; "number {n}"),
        What::Word(word) => match word.word(rt.alloc()) {
            Ok(word) => print_word(rt, &word),
            Err(_) => print!(rt; "word no memory"),
        },
    }
}

fn print_stop(rt: &impl Print, stop: Stop) -> io::Result<()> {
    match stop {
        Stop::End(n) => println!(rt; "end {n}"),
        Stop::Fault(SyntaxError::Unexpected(n)) => println!(rt; "unexpected {n}"),
        Stop::Fault(SyntaxError::BadNumber(n)) => println!(rt; "bad number {n}"),
        Stop::Fault(SyntaxError::BadWord(n)) => println!(rt; "bad word {n}"),
        Stop::Fault(SyntaxError::TooLarge(limit)) => println!(rt; "limit {}", limit.name()),
        Stop::Fault(SyntaxError::OutOfMemory) => println!(rt; "no memory"),
    }
}

// The tokens of the text, unless it is too long or memory runs out.
fn cut(alloc: Global, text: &str) -> Option<Tokens<'_>> {
    let bytes = text.as_bytes();
    if bytes.len() > 1_048_576 {
        return None;
    }
    tokens(alloc, bytes).ok()
}

/// Prints the text, its tokens, each with its span, and why they stop.
pub(crate) fn show(rt: &(impl Print + AllocGlobal), text: &str) -> io::Result<()> {
    println!(rt; "{text}")?;
    let Some(tokens) = cut(rt.alloc(), text) else {
        return println!(rt; "  no tokens");
    };
    for token in &tokens.list {
        print!(rt; "  ")?;
        print_what(rt, &token.what)?;
        println!(rt; " {}-{}", token.span.from, token.span.to)?;
    }
    print!(rt; "  ")?;
    print_stop(rt, tokens.stop)
}

// The front, the part so many times, and the back.
fn repeated(
    alloc: Global,
    front: &str,
    part: &str,
    count: u32,
    back: &str,
) -> Result<String, AllocError> {
    let mut text = String::from_str(alloc, front)?;
    for _ in 0..count {
        text.push_str(part)?;
    }
    text.push_str(back)?;
    Ok(text)
}

// The text that a line `FRONT|PART|COUNT|BACK` stands for.
fn spelled(alloc: Global, line: &str) -> Option<String> {
    let mut parts = line.split('|');
    let (front, part) = (parts.next()?, parts.next()?);
    let count: u32 = parts.next()?.parse().ok()?;
    repeated(alloc, front, part, count, parts.next()?).ok()
}

/// Prints the line, how many tokens its text has, and why they stop.
pub(crate) fn count(rt: &(impl Print + AllocGlobal), line: &str) -> io::Result<()> {
    let Some(text) = spelled(rt.alloc(), line) else {
        return println!(rt; "? {line}");
    };
    match cut(rt.alloc(), text.as_str()) {
        Some(tokens) => {
            print!(rt; "{line}: {} tokens, ", tokens.list.len())?;
            print_stop(rt, tokens.stop)
        }
        None => println!(rt; "{line}: no tokens"),
    }
}
