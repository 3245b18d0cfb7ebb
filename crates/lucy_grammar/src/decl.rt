// Writes declarations and names.
ghost use Rattle.std.specs.Prelude.{◌≡◌, map};
ghost use Rattle.lucy_grammar.specs.PrintTokens.{spaced_text, spaced, parens, commas, typing, clock, name_token, printed_decl, printed_left};
ghost use Rattle.lucy_grammar.specs.Sheets.{Adds};

use crate::sheet::{Sheet, type_mark};
use lucy_host::DataType;
use lucy_token::Mark;
use lucy_tree::{Decl, Name};
use lucy_word::Word;

// ` : int` or ` : bool`, where the type is written.
fn typing(holds: Option<DataType>, out: &mut Sheet)
    ensures { Adds (spaced_text (spaced (typing holds))) out.old out.new }
{
    let Some(holds) = holds else {
        return;
    };
    out.between(Mark::Colon);
    out.mark(type_mark(holds));
}

// ` :: W`, where the word is written.
fn clock(base: &Option<Word>, out: &mut Sheet)
    ensures { Adds (spaced_text (spaced (clock base.now))) out.old out.new }
{
    let Some(base) = base else {
        return;
    };
    out.between(Mark::Colons);
    out.word(base);
}

// `NAME`, with its type and with the word of its clock where they are written.
fn decl(decl: &Decl, out: &mut Sheet)
    ensures { Adds (spaced_text (printed_decl decl.now)) out.old out.new }
{
    out.name(&decl.name);
    typing(decl.holds, out);
    clock(&decl.word, out);
}

// Declarations with commas between.
fn separated(list: &[Decl], out: &mut Sheet)
    ensures { Adds (spaced_text (commas (map printed_decl list.now))) out.old out.new }
{
    let Some((first, more)) = list.split_first() else {
        return;
    };
    decl(first, out);
    'more: for next in more {
        out.comma();
        decl(next, out);
    }
}

/// Declarations in parentheses.
pub(crate) fn decls(list: &[Decl], out: &mut Sheet)
    ensures { Adds (spaced_text (parens (commas (map printed_decl list.now)))) out.old out.new }
{
    out.mark(Mark::Open);
    separated(list, out);
    out.mark(Mark::Close);
}

/// The left side of a definition: one declaration alone, several in parentheses.
pub(crate) fn left(list: &[Decl], out: &mut Sheet)
    ensures { Adds (spaced_text (printed_left list.now)) out.old out.new }
{
    match list {
        [only] => decl(only, out),
        _ => decls(list, out),
    }
}

// Names with commas between.
fn separated_names(list: &[Name], out: &mut Sheet)
    ensures { Adds (spaced_text (commas (map name_token list.now))) out.old out.new }
{
    let Some((first, more)) = list.split_first() else {
        return;
    };
    out.name(first);
    'more: for next in more {
        out.comma();
        out.name(next);
    }
}

/// Names in parentheses.
pub(crate) fn names(list: &[Name], out: &mut Sheet)
    ensures { Adds (spaced_text (parens (commas (map name_token list.now)))) out.old out.new }
{
    out.mark(Mark::Open);
    separated_names(list, out);
    out.mark(Mark::Close);
}
