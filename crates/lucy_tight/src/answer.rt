// The least size of a buffer with its clocks and its evidence, and why it isn't told.
use lucy_clock::NodeClock;
use lucy_need::Needs;
use lucy_shape::Shape;
use lucy_solve::Diffs;
use lucy_word::{Limit, Word};
use std::alloc::AllocError;

/// The least size of one buffer of a node, the clocks of the node that have it, and why one less is too small.
#[derive(Drop)]
pub struct Least {
    /// The size at the printed clocks, in items.
    pub printed: u64,
    /// The least size, in items.
    pub least: u64,
    /// The earliest clocks of the node with this size, and the sizes of all its buffers at them.
    pub clocks: NodeClock,
    /// The needs of the node with the printed clocks of the nodes above it.
    pub needs: Needs,
    /// Their shape.
    pub shape: Shape,
    /// The inequalities of the size that is one less, or of size 0 where the least size is 0.
    pub diffs: Diffs,
    /// Positions of these inequalities, from 0, that follow one another in a circle by which their constants sum below 0; none
    /// where the least size is 0.
    pub cycle: Vec<u32>,
}

/// The least size of the buffer between two clocks of a shape.
#[derive(Drop)]
pub struct Tightest {
    /// In items.
    pub least: u64,
    /// The word of each clock by its number, the base first: those of the earliest clocks with this size.
    pub words: Vec<Word>,
    /// As in `Least`.
    pub diffs: Diffs,
    /// As in `Least`.
    pub cycle: Vec<u32>,
}

/// Why the least size of a buffer isn't told.
#[derive(Drop)]
pub enum TightError {
    /// The node is written, and so is this size, in items.
    Fixed(u64),
    /// A limit is passed: `Inequalities`, `Word` or `Bits`.
    Limit(Limit),
    /// Memory ran out, which says nothing of the buffer.
    OutOfMemory,
}

impl From<AllocError> for TightError {
    ghost use Rattle.std.specs.Prelude.{◌≡◌};
    ghost use Rattle.lucy_tight.specs.declared.answer.TightError.TheVariants.{OutOfMemory};

    ghost from_gives = { λ _ e. e ≡ OutOfMemory };

    fn from(_: AllocError) -> Self {
        TightError::OutOfMemory
    }
}
