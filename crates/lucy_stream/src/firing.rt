ghost use Rattle.lucy_stream.specs.Laws.{FiringsGiveTheItems};

/// What a firing gives, by the newest item of each operand, is in its form's list of all that was taken: the item after
/// those that were given before.
pub fn firings_give_the_items()
    ensures { FiringsGiveTheItems }
{}
