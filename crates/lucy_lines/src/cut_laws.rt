// Laws of cuts, each on a function that does nothing.
ghost use Rattle.lucy_lines.specs.CutLaws.{OneCut, CutInPieces, InTurn, JudgedFirst, SomeCut};

/// Bytes have one cut.
pub fn one_cut()
    ensures { OneCut }
{}

/// Bytes that came in pieces have the cut of all of them.
pub fn cut_in_pieces()
    ensures { CutInPieces }
{}

/// Items that came in turn are those of the cut of all bytes taken.
pub fn items_in_turn()
    ensures { InTurn }
{}

/// Whatever is held has a cut.
pub fn some_cut()
    ensures { SomeCut }
{}

/// A line is judged at its end, or at the first byte with which it can no longer end within its
/// longest.
pub fn judged_first()
    ensures { JudgedFirst }
{}
