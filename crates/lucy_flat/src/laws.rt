// What holds of every flat net. The bodies are empty: the contracts are laws.
ghost use Rattle.lucy_flat.specs.Laws.{PlacesIterate, OutputsIterate, NetsAreCausal, OneNet, OneLimit, FlatOrRefused, FlatWouldBe, ActorsCounted, RingsCounted, SlotsCounted, LimitIsPassed};

/// The iterates of a program's flat net are those of the program, place by place. An output has the list that its result had
/// in the iterate before.
pub fn flat_nets_iterate_as_programs()
    ensures places { PlacesIterate }
    ensures outputs { OutputsIterate }
{}

/// A program's flat net is causal exactly where the program is.
pub fn flat_nets_are_causal_as_programs()
    ensures { NetsAreCausal }
{}

/// A program with clocks has one flat net, and passes at most one limit first; and a program that passes one has no flat net
/// within the limits.
pub fn programs_have_one_flat_net()
    ensures one_net { OneNet }
    ensures one_limit { OneLimit }
    ensures never_both { FlatOrRefused }
{}

/// A flat net has as many actors, rings and slots as are counted from its program's nodes and the sizes of their buffers. This
/// is so of the net that a program would have, were there no limits: it passes the limit for which it is refused.
pub fn flat_nets_are_counted()
    ensures would_be { FlatWouldBe }
    ensures actors { ActorsCounted }
    ensures rings { RingsCounted }
    ensures slots { SlotsCounted }
    ensures passes { LimitIsPassed }
{}
