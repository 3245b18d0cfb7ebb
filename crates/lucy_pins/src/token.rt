// How a text is cut into tokens, what a name is, and how marks are spelled.
ghost use Rattle.std.specs.Prelude.{◌≤◌, [], length, IfOk, ◌≡◌, ◌↔◌, IsTrue, ℕ, List};
ghost use Rattle.lucy_word.specs.Limits.{limit_number};
ghost use Rattle.lucy_token.specs.Cuts.{Cuts};
ghost use Rattle.lucy_token.specs.Written.{IsNameText, is_name_text};
ghost use Rattle.lucy_token.specs.Marks as marks;
ghost use Rattle.lucy_token.specs.Tokens as kinds;
ghost use Rattle.lucy_token.specs.Laws.{TextsHaveOneCut, OldTextsMeanTheSame};
ghost use Rattle.lucy_token.specs.Fronts.{IsWordFront};
ghost use Rattle.lucy_token.specs.Scans.{word_front};

use lucy_host::Op;
use lucy_token::{Kind, Mark, Tokens, What};
use lucy_word::Limit;
use std::alloc::{AllocError, Global};

/// Pins `lucy_token::tokens`.
pub fn tokens<'a>(alloc: Global, text: &'a [u8]) -> Result<Tokens<'a>, AllocError>
    requires { length text.now ≤ limit_number Limit.Text }
    ensures { IfOk result (λ t. Cuts 0 [] text.now t.list.items t.stop) }
{
    lucy_token::tokens(alloc, text)
}

/// Pins `lucy_token::is_name`.
pub fn is_name(bytes: &[u8]) -> bool
    ensures is { result ≡ is_name_text bytes.now }
    ensures name { IsTrue result ↔ IsNameText bytes.now }
{
    lucy_token::is_name(bytes)
}

/// Pins `lucy_token::Mark::text`.
pub fn spelled(mark: &Mark) -> &'static str
    ensures { result.now ≡ marks.spelling mark.now }
{
    mark.text()
}

/// Pins `lucy_token::op_mark`.
pub fn op_mark(op: Op) -> Mark
    ensures { result ≡ marks.op_mark op }
{
    lucy_token::op_mark(op)
}

/// Pins `lucy_token::sign_of`.
pub fn sign_of(op: Op) -> &'static str
    ensures { result.now ≡ marks.spelling (marks.op_mark op) }
{
    lucy_token::sign_of(op)
}

/// Pins `lucy_token::What::kind`.
pub fn kind_of<'a>(what: &What<'a>) -> Kind
    ensures { result ≡ kinds.kind_of what.now }
{
    what.kind()
}

/// Pins `lucy_token::texts_have_one_cut`.
pub fn texts_have_one_cut()
    ensures { TextsHaveOneCut }
{
    lucy_token::texts_have_one_cut();
}

/// Pins `lucy_token::words_end_with_their_form`.
pub fn words_end_with_their_form()
    ensures { (text : List ℕ) → IsWordFront text (word_front text) }
{
    lucy_token::words_end_with_their_form();
}

/// Pins `lucy_token::old_texts_mean_the_same`.
pub fn old_texts_mean_the_same()
    ensures { OldTextsMeanTheSame }
{
    lucy_token::old_texts_mean_the_same();
}
