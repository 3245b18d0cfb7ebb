// How many instants the items of the inputs allow.
ghost use Rattle.std.specs.Prelude.{◌≡◌, ◌≤◌, ◌<◌, ◌+◌, ◌^◌, ◌↔◌, ℕ, ℤ, List, length, slice_index, IsTrue};
ghost use Rattle.lucy_word.specs.Bits.{ones_to};
ghost use Rattle.lucy_stream.specs.Items.{list_at};
ghost use Rattle.lucy_kahn.specs.Horizons.{Suffice, IsHorizon};

use lucy_word::Word;

// The last instant, up to the most, up to which the word has no more ones than there are items.
fn last_within(word: &Word, items: u64, most: u64) -> u64
    ensures within { result ≤ most }
    ensures exact { (t : ℕ) → t ≤ most → (ones_to word.now t ≤ items) ↔ (t ≤ result) }
{
    if items >= most {
        return most;
    }
    match word.index(items + 1) {
        Some(place) => most.min(place - 1),
        None => most,
    }
}

/// The horizon: the greatest number of instants, up to the most, that inputs with so many items allow, a number for each word. It
/// takes one step for each input.
pub fn horizon(words: &[Word], counts: &[u64], most: u64) -> u64
    requires { length counts.now ≡ length words.now }
    ensures { (inputs : List (List ℤ)) → ((i : ℕ) → slice_index counts.now i ≡ length (list_at inputs i)) → IsHorizon words.now inputs most result }
{
    let mut last = most;
    'each: for (i, word) in words.iter().enumerate() {
        last = last_within(word, counts[i], last);
    }
    last
}

/// Whether inputs with so many items, a number for each word, allow more instants than so many.
pub fn allows_more(words: &[Word], counts: &[u64], most: u64) -> bool
    requires counts { length counts.now ≡ length words.now }
    requires most { most + 1 < 2 ^ 64 }
    ensures { (inputs : List (List ℤ)) → ((i : ℕ) → slice_index counts.now i ≡ length (list_at inputs i)) → (IsTrue result ↔ Suffice words.now inputs (most + 1)) }
{
    horizon(words, counts, most + 1) > most
}
