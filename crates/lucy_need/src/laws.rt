// What needs say of the words of clocks. Each body is empty: the contract is a law.
ghost use Rattle.lucy_need.specs.Laws.{BitsLaw, EqualLaw, SampledLaw, AdaptLaw};

/// Whether an assignment of words meets a need depends on the bits of the words of its clocks alone, and not on how they are
/// spelled.
pub fn needs_are_of_bits()
    ensures { BitsLaw }
{}

/// Between clocks alone a need is equality of their words, or adaptability of the first to the second; and a clock equals
/// another on a word exactly where its word is that sampling.
pub fn plain_needs()
    ensures equal { EqualLaw }
    ensures sampled { SampledLaw }
    ensures adapt { AdaptLaw }
{}
