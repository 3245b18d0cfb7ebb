// Reads a text.
ghost use Rattle.std.specs.Prelude.{◌≡◌, ◌⊎◌, ◌≤◌, IfOk, IfErr, Err, List, length, map};
ghost use Rattle.std.specs.Result.{IsOkAnd};
ghost use Rattle.lucy_word.specs.Limits.{limit_number};
ghost use Rattle.lucy_tree.specs.Shaped.{IsShapedProgram};
ghost use Rattle.lucy_tree.specs.View.{ProgramTree, program_tree, node_tree};
ghost use Rattle.lucy_token.specs.declared.stop.SyntaxError.TheVariants as error;
ghost use Rattle.lucy_grammar.specs.Texts as spec;
ghost use Rattle.lucy_grammar.specs.Texts.{HasTree, IsRefused};
ghost use Rattle.lucy_grammar.specs.Why.{IsUnexpected, IsStopped, IsWholeProgram};

use crate::program::nodes;
use crate::refusal::Refusal;
use lucy_token::{Stop, SyntaxError, Token, tokens};
use lucy_tree::{Node, Nodes, Program};
use lucy_word::Limit;
use std::alloc::Global;

// The nodes of tokens that stop here.
fn whole(alloc: Global, ts: &[Token], stop: Stop) -> Result<Vec<Node>, SyntaxError>
    ensures ok { IfOk result (λ list. IsWholeProgram ts.now stop (map node_tree list.items)) }
    ensures refused { IfErr result (λ e. (e ≡ error.OutOfMemory) ⊎ IsUnexpected ts.now e ⊎ IsStopped ts.now stop e) }
{
    let (list, rest) = match nodes(alloc, ts) {
        Ok(read) => read,
        Err(Refusal::At(rest)) => return Err(error_at(rest, stop)),
        Err(Refusal::OutOfMemory) => return Err(SyntaxError::OutOfMemory),
    };
    if !rest.is_empty() {
        return Err(error_at(rest, stop));
    }
    match stop {
        Stop::End(_) => Ok(list),
        Stop::Fault(error) => Err(error),
    }
}

// The error where the first of these tokens doesn't fit, or where they stop.
fn error_at(rest: &[Token], stop: Stop) -> SyntaxError
    ensures { result ≡ spec.error_at rest.now stop }
{
    match rest.first() {
        Some(t) => SyntaxError::Unexpected(u64::from(t.span.from)),
        None => match stop {
            Stop::End(length) => SyntaxError::Unexpected(length),
            Stop::Fault(error) => error,
        },
    }
}

/// The program of a text, or why it has none: `TooLarge(Text)` for a text of more than 1,048,576 bytes; else the error of
/// the first token that can't follow what stands before it, or of the limit or the malformed token met before one.
pub fn parse(alloc: Global, text: &[u8]) -> Result<Program, SyntaxError>
    ensures ok { IfOk result (λ program. HasTree text.now (program_tree program)) }
    ensures shaped { IfOk result (λ program. IsShapedProgram (program_tree program)) }
    ensures refused { IfErr result (λ e. (e ≡ error.OutOfMemory) ⊎ IsRefused text.now e) }
    ensures accepted { (p : ProgramTree) → HasTree text.now p → (result ≡ Err error.OutOfMemory) ⊎ IsOkAnd result (λ program. program_tree program ≡ p) }
    ensures rejected { (e : SyntaxError) → IsRefused text.now e → (result ≡ Err error.OutOfMemory) ⊎ (result ≡ Err e) }
{
    if text.len() as u64 > Limit::Text.number() {
        return Err(SyntaxError::TooLarge(Limit::Text));
    }
    let Ok(cut) = tokens(alloc, text) else {
        return Err(SyntaxError::OutOfMemory);
    };
    let list = whole(alloc, &cut.list, cut.stop)?;
    Ok(Program {
        nodes: Nodes::new(list),
    })
}
