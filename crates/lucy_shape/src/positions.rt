// Where the first ones of a word stand, so that no inequality looks for its own.
ghost use Rattle.std.specs.Prelude.{ℕ, ◌≡◌, ◌+◌, ◌<◌, ◌≤◌, ◌^◌, length, IfOk};
ghost use Rattle.lucy_word.specs.Bits.{ones_to, IsWord};
ghost use Rattle.lucy_shape.specs.Index.{index_of};
ghost use Rattle.lucy_shape.specs.Added.{AreFirsts};

use lucy_word::Word;
use std::alloc::{AllocError, Global};

// The position of its clock at which a term has its one of this number.
fn position(word: &Word, number: u64) -> u64
    requires fits { index_of word.now number < 2 ^ 64 }
    requires word { IsWord word.now }
    ensures { result ≡ index_of word.now number }
{
    match word.index(number) {
        Some(place) => place,
        None => 0,
    }
}

// How many ones a word has in its prefix and its first period.
fn first_ones(word: &Word) -> u64
    ensures { result ≡ ones_to word.now (length word.now.prefix + length word.now.period) }
{
    let (prefix, period) = word.lengths();
    word.ones(prefix + period)
}

// Sets the positions of the first ones, each of which is looked for.
fn find(list: &mut [u64], word: &Word, known: usize)
    requires word { IsWord word.now }
    requires fits { (k : ℕ) → k ≤ length list.old → index_of word.now k < 2 ^ 64 }
    requires within { known ≤ length list.old }
    ensures size { length list.new ≡ length list.old }
    ensures firsts { AreFirsts word.now known list.new }
{
    for k in 0..known {
        list[k] = position(word, k as u64 + 1);
    }
}

// Sets those of the further ones, each a period behind that which stands a period's ones before.
fn continue_from(list: &mut [u64], word: &Word, known: usize)
    requires word { IsWord word.now }
    requires fits { (k : ℕ) → k ≤ length list.old → index_of word.now k < 2 ^ 64 }
    requires enough { known < length list.old → ones_to word.now (length word.now.prefix + length word.now.period) ≤ known }
    requires firsts { AreFirsts word.now known list.old }
    ensures size { length list.new ≡ length list.old }
    ensures firsts { AreFirsts word.now (length list.old) list.new }
{
    let (ones, period) = word.rate();
    for k in known..list.len() {
        list[k] = list[k - ones as usize] + period;
    }
}

/// The positions of its clock at which a term has its first ones, so many of them.
pub(crate) fn positions(alloc: Global, word: &Word, count: u64) -> Result<Vec<u64>, AllocError>
    requires word { IsWord word.now }
    requires fits { (k : ℕ) → k ≤ count → index_of word.now k < 2 ^ 64 }
    ensures size { IfOk result (λ list. length list.items ≡ count) }
    ensures firsts { IfOk result (λ list. AreFirsts word.now count list.items) }
{
    let known = first_ones(word).min(count) as usize;
    let mut list = vec![in alloc; 0u64; count as usize]?;
    find(&mut list, word, known);
    continue_from(&mut list, word, known);
    Ok(list)
}
