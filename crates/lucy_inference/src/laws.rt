// What holds of inferred clocks. Each body is empty: the contract is a law.
ghost use Rattle.lucy_inference.specs.Laws.{OneInferenceLaw, OneOutcomeLaw, OneRefusalLaw, MetLaw, WithinLaw, BaseLaw};

/// Needs have one answer with a scale and a lead: words and sizes, or a reason why there are none.
pub fn one_inference()
    ensures one { OneInferenceLaw }
    ensures kept { OneOutcomeLaw }
    ensures alike { OneRefusalLaw }
{}

/// What is inferred meets the needs within the limits of the checker, whatever the scale and the lead, and has (1) for the base.
pub fn inference_meets()
    ensures met { MetLaw }
    ensures within { WithinLaw }
    ensures base { BaseLaw }
{}
