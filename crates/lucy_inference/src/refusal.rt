// Why no clocks are inferred.
ghost use Rattle.std.specs.Prelude.{◌≡◌};

use lucy_shape::{RateFault, Shape};
use lucy_solve::Diffs;
use lucy_word::Limit;
use std::alloc::AllocError;

/// Why no clocks are inferred for a node. Needs, and the inequalities of a cycle, count from 0.
#[derive(Drop)]
pub enum Uninferred {
    /// Needs whose rates don't agree: they lead from a clock back to it, and multiply its rate by another number than 1. The
    /// first is the first need that isn't balanced, from its first clock to its second.
    Rates(Vec<u32>),
    /// There are no clocks of this shape: the inequalities at the positions of the cycle among these follow one another in a
    /// circle, and their constants sum below 0. Clocks of another scale or lead there may be.
    Clocks {
        shape: Shape,
        diffs: Diffs,
        cycle: Vec<u32>,
    },
    /// A limit is passed: `Rate`, `Positions`, `Inequalities`, `Word`, `Bits` or `Compare`.
    Limit(Limit),
    /// Memory ran out, which says nothing of the needs.
    OutOfMemory,
}

impl From<RateFault> for Uninferred {
    ghost use Rattle.lucy_inference.specs.Stages.{of_rates};

    ghost from_gives = { λ fault e. e ≡ of_rates fault };

    fn from(fault: RateFault) -> Self {
        match fault {
            RateFault::Unequal(walk) => Uninferred::Rates(walk),
            RateFault::Limit(limit) => Uninferred::Limit(limit),
            RateFault::OutOfMemory => Uninferred::OutOfMemory,
        }
    }
}

impl From<AllocError> for Uninferred {
    ghost use Rattle.lucy_inference.specs.declared.refusal.Uninferred.TheVariants.{OutOfMemory};

    ghost from_gives = { λ _ e. e ≡ OutOfMemory };

    fn from(_: AllocError) -> Self {
        Uninferred::OutOfMemory
    }
}
