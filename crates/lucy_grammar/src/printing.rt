// Prints a program.
ghost use Rattle.std.specs.Prelude.{◌≡◌, ◌≤◌, ◌++◌, ℕ, List, IfOk, length};
ghost use Rattle.lucy_word.specs.Limits.{limit_number};
ghost use Rattle.lucy_word.specs.declared.limit.Limit.TheVariants as limit;
ghost use Rattle.lucy_tree.specs.View.{ProgramTree, program_tree};
ghost use Rattle.lucy_grammar.specs.Print.{program_text};
ghost use Rattle.lucy_grammar.specs.PrintTokens.{line, printed_program, spaced_text};
ghost use Rattle.lucy_grammar.specs.Spans.{IsAlike};
ghost use Rattle.lucy_grammar.specs.Texts.{HasTree};

use crate::program::{line, nodes};
use crate::sheet::Sheet;
use lucy_tree::Program;
use std::alloc::{AllocError, Global};

// The bytes of a program's tokens in print, and the end of the last line.
fn written(alloc: Global, program: &Program) -> Result<Vec<u8>, AllocError>
    ensures { IfOk result (λ text. text.items ≡ spaced_text (printed_program (program_tree program.now)) ++ line) }
{
    let mut out = Sheet::new(alloc);
    nodes(program.nodes.list(), &mut out);
    line(&mut out);
    out.text()
}

/// The text of a program: a node after another, each definition on a line of its own, every operand but a literal or a
/// name in parentheses.
pub fn print(alloc: Global, program: &Program) -> Result<Vec<u8>, AllocError>
    ensures text { IfOk result (λ text. text.items ≡ program_text (program_tree program.now)) }

    // The text of a program that was read, where it is no longer than a program may be, is read as that program again, but
    // for places.
    ensures again { (from : List ℕ) → HasTree from (program_tree program.now) → IfOk result (λ text. length text.items ≤ limit_number limit.Text →
        (q : ProgramTree) × HasTree text.items q × IsAlike q (program_tree program.now)) }
{
    written(alloc, program)
}
