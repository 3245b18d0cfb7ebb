ghost use Rattle.lucy_stream.specs.RunningLaws.{TakenIsAFront, RunsKeepStates, RingsHoldWhatIsCounted, CountsDecide};

/// Whatever the events are, what was taken from a ring is a front of what was given to it: rings are first in, first out.
pub fn taken_is_a_front()
    ensures { TakenIsAFront }
{}

/// Every run leads to a state: the lists have as many items as the counts of the operations say, and each item given is its
/// actor's value of what the actor had taken by then.
pub fn runs_keep_states()
    ensures { RunsKeepStates }
{}

/// In every state a ring holds what the counts say, the items that were given and not taken, and at most its size and one more.
pub fn rings_hold_what_is_counted()
    ensures { RingsHoldWhatIsCounted }
{}

/// A state that a run reaches is determined by the numbers of operations done.
pub fn counts_decide()
    ensures { CountsDecide }
{}
