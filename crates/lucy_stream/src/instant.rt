ghost use Rattle.lucy_stream.specs.RunningLaws.{ActorsGoOnOrWait, AlikeCountsRunAlike};

/// Where an instant's counts are those of adaptable words, an actor that has something left to do in it can go on, or waits
/// for an item that another actor has still to give in it.
pub fn actors_go_on_or_wait()
    ensures { ActorsGoOnOrWait }
{}

/// Where the operations left and the numbers of items held are alike, the same events are a run, and are so after it.
pub fn alike_counts_run_alike()
    ensures { AlikeCountsRunAlike }
{}
