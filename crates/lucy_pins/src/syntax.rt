// The program of a text, or its one refusal.
ghost use Rattle.std.specs.Prelude.{◌≡◌, ◌⊎◌, IfOk, IfErr, Err};
ghost use Rattle.std.specs.Result.{IsOkAnd};
ghost use Rattle.lucy_tree.specs.Shaped.{IsShapedProgram};
ghost use Rattle.lucy_tree.specs.View.{ProgramTree, program_tree};
ghost use Rattle.lucy_token.specs.declared.stop.SyntaxError.TheVariants as error;
ghost use Rattle.lucy_grammar.specs.Texts.{HasTree, IsRefused};

use lucy_token::SyntaxError;
use lucy_tree::Program;
use std::alloc::Global;

/// Pins `lucy_syntax::parse`.
pub fn parse(alloc: Global, text: &[u8]) -> Result<Program, SyntaxError>
    ensures ok { IfOk result (λ program. HasTree text.now (program_tree program)) }
    ensures shaped { IfOk result (λ program. IsShapedProgram (program_tree program)) }
    ensures refused { IfErr result (λ e. (e ≡ error.OutOfMemory) ⊎ IsRefused text.now e) }
    ensures accepted { (p : ProgramTree) → HasTree text.now p → (result ≡ Err error.OutOfMemory) ⊎ IsOkAnd result (λ program. program_tree program ≡ p) }
    ensures rejected { (e : SyntaxError) → IsRefused text.now e → (result ≡ Err error.OutOfMemory) ⊎ (result ≡ Err e) }
{
    lucy_syntax::parse(alloc, text)
}
