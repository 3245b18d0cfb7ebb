ghost use Rattle.lucy_grammar.specs.Laws.{OneTree, OneRefusal, PrintedAgain, ReadAgain, TextsHaveOneAnswer};

/// Tokens are at most one program.
pub fn one_tree()
    ensures { OneTree }
{}

/// Of tokens that are no program at most one is the first that doesn't fit, and of a program none is; a front of what begins
/// a program begins one.
pub fn one_refusal()
    ensures { OneRefusal }
{}

/// The bytes of a program's tokens in print, and the end of a line, are its printed text. Every program can be printed, by its
/// own tokens but for parentheses, and tokens that are the printed ones are that program again, but for places.
pub fn printed_again()
    ensures { PrintedAgain }
{}

/// The text that is printed of a program read from a text is cut into tokens up to its end, and they are that program
/// again, but for places.
pub fn read_again()
    ensures { ReadAgain }
{}

/// A text has at most one tree and at most one refusal, never both, and no text has neither.
pub fn texts_have_one_answer()
    ensures { TextsHaveOneAnswer }
{}
