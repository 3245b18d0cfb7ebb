// Why a node is refused, and why it has no clocks.
ghost use Rattle.std.specs.Prelude.{◌≡◌};
ghost use Rattle.lucy_front.specs.Clocking as spec;
ghost use Rattle.lucy_front.specs.declared.fault.NoClocks.TheVariants.{Fault, OutOfMemory as NoMemory};
ghost use Rattle.lucy_front.specs.declared.fault.NodeFault.TheVariants.{Check};

use lucy_check::CheckFault;
use lucy_clock::ClockError;
use lucy_inference::Uninferred;
use lucy_need::Needs;
use lucy_shape::Shape;
use lucy_solve::Diffs;
use lucy_tree::Span;
use lucy_word::Limit;
use std::alloc::AllocError;

/// Why a node is refused. Its needs, and inequalities, count from 0.
#[derive(Drop)]
pub enum NodeFault {
    /// It has to be written and isn't, and this is the first span that keeps it from being so.
    NotWritten(Span),
    /// It isn't written, and its rates don't agree: these needs lead from a clock back to it, the first of them from its first
    /// clock to its second, and multiply the clock's rate by another number than 1.
    Rates {
        needs: Needs,
        walk: Vec<u32>,
    },
    /// It isn't written, and no clocks of this shape meet its needs: of the inequalities between their positions, those at the
    /// positions of the cycle follow one another in a circle, and their constants sum below 0.
    Clocks {
        needs: Needs,
        shape: Shape,
        diffs: Diffs,
        cycle: Vec<u32>,
    },
    /// It is written and not well clocked: the words that it hands down don't meet a need.
    Check {
        needs: Needs,
        fault: CheckFault,
    },
}

/// Why a node has no clocks.
#[derive(Drop)]
pub(crate) enum NoClocks {
    /// It is refused.
    Fault(NodeFault),
    /// It passes a limit.
    Limit(Limit),
    /// Memory ran out.
    OutOfMemory,
}

/// The first node that has no clocks, and why.
#[derive(Drop)]
pub(crate) struct Unclocked {
    pub node: u32,
    pub why: NoClocks,
}

impl From<ClockError> for NoClocks {
    ghost from_gives = { λ error e. e ≡ spec.clock_fault error };

    fn from(error: ClockError) -> Self {
        match error {
            ClockError::Limit(limit) => NoClocks::Limit(limit),
            ClockError::OutOfMemory => NoClocks::OutOfMemory,
        }
    }
}

impl From<AllocError> for NoClocks {
    ghost from_gives = { λ _ e. e ≡ NoMemory };

    fn from(_: AllocError) -> Self {
        NoClocks::OutOfMemory
    }
}

/// Why a node with these needs has no clocks where none are inferred.
pub(crate) fn inference_fault(needs: Needs, why: Uninferred) -> NoClocks
    ensures { result ≡ spec.inference_fault needs why }
{
    match why {
        Uninferred::Rates(walk) => NoClocks::Fault(NodeFault::Rates { needs, walk }),
        Uninferred::Clocks {
            shape,
            diffs,
            cycle,
        } => NoClocks::Fault(NodeFault::Clocks {
            needs,
            shape,
            diffs,
            cycle,
        }),
        Uninferred::Limit(limit) => NoClocks::Limit(limit),
        Uninferred::OutOfMemory => NoClocks::OutOfMemory,
    }
}

// The words of a node with these needs don't meet one.
fn unmet(needs: Needs, fault: CheckFault) -> NoClocks
    ensures { result ≡ Fault (Check needs fault) }
{
    NoClocks::Fault(NodeFault::Check { needs, fault })
}

/// Why a node has no clocks where the checker refuses its words.
pub(crate) fn check_fault(needs: Needs, fault: CheckFault) -> NoClocks
    ensures { result ≡ spec.check_fault needs fault }
{
    match fault {
        CheckFault::Limit { limit, .. } => NoClocks::Limit(limit),
        CheckFault::OutOfMemory => NoClocks::OutOfMemory,
        CheckFault::Differs { need, instant } => unmet(
            needs,
            CheckFault::Differs { need, instant },
        ),
        CheckFault::Rates { need } => unmet(needs, CheckFault::Rates { need }),
        CheckFault::Late { need, instant } => unmet(needs, CheckFault::Late { need, instant }),
    }
}
