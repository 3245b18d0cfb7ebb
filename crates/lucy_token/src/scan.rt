// A text cut into tokens.
ghost use Rattle.std.specs.Prelude.{◌≡◌, ◌+◌, ◌<◌, ◌≤◌, List, [], length, IfOk};
ghost use Rattle.lucy_word.specs.Limits.{limit_number};
ghost use Rattle.lucy_token.specs.Contents as contents;
ghost use Rattle.lucy_token.specs.declared.token.Kind as kind;
ghost use Rattle.lucy_token.specs.States.{state_of};
ghost use Rattle.lucy_token.specs.Cuts.{Cuts};
ghost use Rattle.lucy_token.specs.Steps.{IsScanStep};

use crate::content::content;
use crate::front::{Front, at_front, skip};
use crate::state::Context;
use crate::stop::{Stop, SyntaxError};
use crate::token::{Kind, Piece, Token, Tokens, What};
use lucy_tree::Span;
use lucy_word::Limit;
use std::alloc::{AllocError, Global};

// One step in the cutting of a text: so many bytes between tokens; a token, of a kind and so many bytes, after which it
// goes on; one after which it stops, and why; or why it stops here.
#[derive(Drop)]
enum Step<'a> {
    Gap(usize),
    Token(Token<'a>, Kind, usize),
    Last(Token<'a>, SyntaxError),
    Stopped(SyntaxError),
}

// A token past the last entry of a list, of which only the kind counts.
fn unread<'a>(kind: Kind, bytes: &'a [u8]) -> What<'a>
    ensures { result ≡ contents.unread kind bytes.now }
{
    match kind {
        Kind::Mark(mark) => What::Mark(mark),
        Kind::Name => What::Name(Piece::new(bytes)),
        Kind::Number | Kind::Word | Kind::End => What::Number(0),
    }
}

fn next_step<'a>(context: &Context, text: &'a [u8], from: usize) -> Step<'a>
    requires some { 0 < length text.now }
    requires short { from + length text.now ≤ limit_number Limit.Text }
    ensures { (ks : List kind.Kind) → context.now ≡ state_of ks → IsScanStep from ks text.now result }
{
    let (kind, n) = match at_front(context, text) {
        Front::Gap(n) => return Step::Gap(n),
        Front::Bad(n) => return Step::Stopped(SyntaxError::Unexpected((from + n) as u64)),
        Front::Token(kind, n) => (kind, n),
    };
    if let Some(limit) = context.limit_passed(kind) {
        return Step::Stopped(SyntaxError::TooLarge(limit));
    }
    let bytes = &text[..n];
    let span = Span {
        from: from as u32,
        to: (from + n) as u32,
    };
    if context.is_past_last(kind) {
        let what = unread(kind, bytes);
        let error = SyntaxError::TooLarge(Limit::Names);
        return Step::Last(Token { what, span }, error);
    }
    match content(context.before(), kind, bytes, from as u64) {
        Ok(what) => Step::Token(Token { what, span }, kind, n),
        Err(error) => Step::Stopped(error),
    }
}

/// The tokens of a program text, which has at most 1,048,576 bytes, and why they stop: at the text's end, or at the first
/// byte or token that can't stand where it stands.
pub fn tokens<'a>(alloc: Global, text: &'a [u8]) -> Result<Tokens<'a>, AllocError>
    requires { length text.now ≤ limit_number Limit.Text }
    ensures { IfOk result (λ t. Cuts 0 [] text.now t.list.items t.stop) }
{
    let mut list = Vec::new(alloc);
    let mut context = Context::start(alloc);
    let mut from = 0;
    'text: while from < text.len() {
        match next_step(&context, skip(text, from), from) {
            Step::Gap(n) => from += n,
            Step::Token(token, kind, n) => {
                list.push(token)?;
                context.pass(kind)?;
                from += n;
            }
            Step::Last(token, error) => {
                list.push(token)?;
                return Ok(Tokens {
                    list,
                    stop: Stop::Fault(error),
                });
            }
            Step::Stopped(error) => {
                return Ok(Tokens {
                    list,
                    stop: Stop::Fault(error),
                });
            }
        }
    }
    Ok(Tokens {
        list,
        stop: Stop::End(from as u64),
    })
}
