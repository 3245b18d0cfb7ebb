// The shape of inferred clocks.
ghost use Rattle.std.specs.Prelude.{◌≡◌};

use lucy_word::Limit;
use std::alloc::{AllocError, AllocFailed};
use std::marker::Model;

/// The shape of a clock: past its first `lead` ones, `ones` ones further is one period later. A position is the number of a
/// one of the clock, counted from 1; those up to `lead + ones` have variables. A clock that isn't used has no positions.
#[derive(Clone, Copy)]
pub struct ClockShape {
    /// Whether the clock belongs to a place or a call, or is a base that some need names.
    pub used: bool,
    /// The ones before those that come again.
    pub lead: u64,
    /// The ones of each period.
    pub ones: u64,
    /// The variable of position 1; variable 0 is the origin.
    pub first: u32,
}

/// Shapes of clocks, by their numbers. Contracts see their list.
#[derive(Drop)]
pub struct ClockShapes {
    list: Vec<ClockShape>,
}

impl Model for ClockShapes {
    ghost use Rattle.std.specs.Prelude.{List};
    ghost use Rattle.lucy_shape.specs.declared.shape.ClockShape.{ClockShape};

    ghost Value = { List ClockShape };

    ghost view = { λ shapes. shapes.list.items };
}

impl ClockShapes {
    /// These shapes.
    pub fn new(list: Vec<ClockShape>) -> ClockShapes
        ensures { result ≡ list.items }
    {
        ClockShapes { list }
    }

    /// The shapes.
    pub fn list(&self) -> &[ClockShape]
        ensures { result.now ≡ self.now }
    {
        &self.list
    }
}

/// One period for all clocks of a node, in instants, and the shape of each.
#[derive(Drop)]
pub struct Shape {
    pub period: u64,
    pub clocks: ClockShapes,
}

/// Why needs have no shape, a shape no inequalities, or positions no words.
#[derive(Drop)]
pub enum RateFault {
    /// Needs, by their numbers from 0, that lead from a clock back to it and multiply its rate by another number than 1. Only
    /// needs have it as their fault.
    Unequal(Vec<u32>),
    /// A limit was passed.
    Limit(Limit),
    /// Memory ran out, which says nothing of the rest.
    OutOfMemory,
}

impl From<AllocError> for RateFault {
    ghost use Rattle.lucy_shape.specs.declared.shape.RateFault.TheVariants.{OutOfMemory};

    ghost from_gives = { λ _ e. e ≡ OutOfMemory };

    fn from(_: AllocError) -> Self {
        RateFault::OutOfMemory
    }
}

impl<T: Drop> From<AllocFailed<T>> for RateFault {
    ghost use Rattle.lucy_shape.specs.declared.shape.RateFault.TheVariants.{OutOfMemory};

    ghost from_gives = { λ _ e. e ≡ OutOfMemory };

    fn from(_: AllocFailed<T>) -> Self {
        RateFault::OutOfMemory
    }
}
