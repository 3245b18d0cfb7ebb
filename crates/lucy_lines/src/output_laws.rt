// Laws of output lines, each on a function that does nothing.
ghost use Rattle.lucy_lines.specs.OutputLaws.{InstantByInstant, TextsGrow, FrontsSuffice, BlockByBlock};

/// Up to instant 0 there is no line, and one more instant puts its lines behind.
pub fn instant_by_instant()
    ensures { InstantByInstant }
{}

/// The text of more instants begins with that of fewer.
pub fn texts_grow()
    ensures { TextsGrow }
{}

/// Of each list only as many items matter as the output's word has ones up to the last instant.
pub fn fronts_suffice()
    ensures { FrontsSuffice }
{}

/// The text of a run is that of its first instants, and then the lines of the others by what is left of the lists.
pub fn block_by_block()
    ensures { BlockByBlock }
{}
