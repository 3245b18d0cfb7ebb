use lucy_word::Limit;

/// Why a text is no program. Offsets count bytes from 0.
#[derive(Clone, Copy)]
pub enum SyntaxError {
    /// The token, or the byte that is part of no token, at this offset can't follow what stands before it; at the text's
    /// length, more is missing.
    Unexpected(u64),
    /// The number that begins at this offset is no signed number of 64 bits.
    BadNumber(u64),
    /// The word that begins at this offset has a count that is 0, more than 65,536 bits, or no one in its period, or after
    /// `whenot` or `merge` no zero there.
    BadWord(u64),
    /// A limit is passed: Text, Tokens, Depth, Name, Names or Nodes.
    TooLarge(Limit),
    /// Memory ran out, which says nothing of the text.
    OutOfMemory,
}

/// Why the tokens of a text stop.
#[derive(Clone, Copy)]
pub enum Stop {
    /// The text ends here: its length in bytes.
    End(u64),
    /// Here stands what can't be a token, or one past a limit.
    Fault(SyntaxError),
}
