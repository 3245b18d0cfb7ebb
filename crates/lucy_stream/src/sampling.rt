ghost use Rattle.lucy_stream.specs.Laws.{SamplingsKeepTheOnes};

/// A sampling keeps the items whose number has a one, in their order, and no others.
pub fn samplings_keep_the_ones()
    ensures { SamplingsKeepTheOnes }
{}
