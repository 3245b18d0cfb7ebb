ghost use Rattle.std.specs.Prelude.{◌≡◌, ◌≤◌};
ghost use Rattle.lucy_word.specs.Bits.{bit_count, most_bits};

use lucy_word::Word;

/// How many bits a word has.
pub(crate) fn bit_count(word: &Word) -> u64
    ensures count { result ≡ bit_count word.now }
    ensures few { result ≤ most_bits }
{
    let (prefix, period) = word.lengths();
    prefix + period
}
