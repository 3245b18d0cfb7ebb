// The text of a program, and what the productions determine.
ghost use Rattle.std.specs.Prelude.{◌≡◌, ◌≤◌, ℕ, List, IfOk, length};
ghost use Rattle.lucy_word.specs.Limits.{limit_number};
ghost use Rattle.lucy_word.specs.declared.limit.Limit.TheVariants as limit;
ghost use Rattle.lucy_tree.specs.View.{ProgramTree, program_tree};
ghost use Rattle.lucy_grammar.specs.Print.{program_text};
ghost use Rattle.lucy_grammar.specs.Spans.{IsAlike};
ghost use Rattle.lucy_grammar.specs.Texts.{HasTree};
ghost use Rattle.lucy_grammar.specs.Laws.{PrintedAgain, ReadAgain, TextsHaveOneAnswer};

use lucy_tree::Program;
use std::alloc::{AllocError, Global};

/// Pins `lucy_grammar::print`.
pub fn print(alloc: Global, program: &Program) -> Result<Vec<u8>, AllocError>
    ensures text { IfOk result (λ text. text.items ≡ program_text (program_tree program.now)) }
    ensures again { (from : List ℕ) → HasTree from (program_tree program.now) → IfOk result (λ text. length text.items ≤ limit_number limit.Text →
        (q : ProgramTree) × HasTree text.items q × IsAlike q (program_tree program.now)) }
{
    lucy_grammar::print(alloc, program)
}

/// Pins `lucy_grammar::printed_again`.
pub fn printed_again()
    ensures { PrintedAgain }
{
    lucy_grammar::printed_again();
}

/// Pins `lucy_grammar::read_again`.
pub fn read_again()
    ensures { ReadAgain }
{
    lucy_grammar::read_again();
}

/// Pins `lucy_grammar::texts_have_one_answer`.
pub fn texts_have_one_answer()
    ensures { TextsHaveOneAnswer }
{
    lucy_grammar::texts_have_one_answer();
}
