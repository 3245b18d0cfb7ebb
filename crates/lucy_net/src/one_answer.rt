// That a net has one answer. The body is empty: the contract is a law.
ghost use Rattle.lucy_net.specs.OneAnswer.{OneLength, OneSchedule, OneRefusal, ScheduledOrRefused};

/// A net's schedule has one prefix and one period; a net that has one is refused for want of memory alone; and what is refused
/// is refused for one limit, or for cycles of one instant. The orders of an instant's events, and the cycle, may be others.
pub fn nets_have_one_answer()
    ensures one_length { OneLength }
    ensures one_schedule { OneSchedule }
    ensures one_refusal { OneRefusal }
    ensures never_both { ScheduledOrRefused }
{}
