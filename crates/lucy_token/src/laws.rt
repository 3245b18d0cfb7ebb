ghost use Rattle.std.specs.Prelude.{ℕ, List};
ghost use Rattle.lucy_token.specs.Fronts.{IsWordFront};
ghost use Rattle.lucy_token.specs.Scans.{word_front};
ghost use Rattle.lucy_token.specs.Laws.{TextsHaveOneCut, OldTextsMeanTheSame};

use lucy_word::digits_spell_words;

/// A text has one cut into tokens: at most one, and none is without one. The places of its tokens rise within the text.
/// Where nothing is wrong, the tokens are as they may be written, and they end where the text ends.
pub fn texts_have_one_cut()
    ensures { TextsHaveOneCut }
{}

/// Where a word is due stands one whose form is whole, or the first byte that can't follow those before it in any form.
#[tactic(auto, using(crate::proofs::FormFronts::word_front_so))]
pub fn words_end_with_their_form()
    ensures { (text : List ℕ) → IsWordFront text (word_front text) }
{}

/// An old text means the same, both ways: where no count stands, bytes are the form of a word, begin one, or are what stands where a word
/// is due, exactly where they are so by their digits alone, one bit for each, so words are cut, or refused, as before there were counts. They
/// are read as a word where they were, and besides from 4,097 to 65,536 bits, which were too many. It says nothing of trees or of what is
/// printed.
pub fn old_texts_mean_the_same()
    ensures { OldTextsMeanTheSame }
{
    digits_spell_words();
}
