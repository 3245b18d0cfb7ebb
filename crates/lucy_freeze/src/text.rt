// The text with every clock written out. It is safe: the result is accepted again and compared.
mod bases;
mod cut;
mod forms;
mod nodes;
mod sheet;
mod writer;

use lucy_program::Accepted;
use lucy_syntax::parse;
use lucy_token::{Token, tokens};
use lucy_word::Limit;
use nodes::put_nodes;
use sheet::Sheet;
use std::alloc::{AllocError, Global};
use writer::{Lexeme, Writer};

/// Why no text is made.
#[derive(Clone, Copy)]
pub(crate) enum Unwritten {
    /// A word has more bits than a written one may have.
    Word,
    /// Memory ran out.
    OutOfMemory,
}

impl From<AllocError> for Unwritten {
    fn from(_: AllocError) -> Self {
        Unwritten::OutOfMemory
    }
}

// One more token.
fn add(lexemes: &mut Vec<Lexeme>, token: &Token<'_>) -> Result<(), AllocError> {
    lexemes.push(Lexeme {
        kind: token.what.kind(),
        from: token.span.from as usize,
        to: token.span.to as usize,
    })?;
    Ok(())
}

// The tokens of a text, without what they say.
fn lexemes_of(alloc: Global, text: &[u8]) -> Result<Vec<Lexeme>, AllocError> {
    let mut lexemes = Vec::new(alloc);
    if text.len() as u64 > Limit::Text.number() {
        return Ok(lexemes);
    }
    for token in &tokens(alloc, text)?.list {
        add(&mut lexemes, token)?;
    }
    Ok(lexemes)
}

/// The text of an accepted program with its clocks written out.
pub(crate) fn frozen_text(
    alloc: Global,
    text: &[u8],
    program: &Accepted,
) -> Result<Vec<u8>, Unwritten> {
    let (Ok(tree), Ok(lexemes)) = (parse(alloc, text), lexemes_of(alloc, text)) else {
        return Err(Unwritten::OutOfMemory);
    };
    let mut writer = Writer::new(alloc, text, &lexemes);
    put_nodes(&mut writer, &tree, program);
    writer.copy_rest();
    let Writer { sheet, .. } = writer;
    let Sheet {
        bytes,
        full,
        long,
        ..
    } = sheet;
    if full {
        return Err(Unwritten::OutOfMemory);
    }
    if long {
        return Err(Unwritten::Word);
    }
    Ok(bytes)
}
