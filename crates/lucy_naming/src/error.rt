// Why a program has no places.
ghost use Rattle.std.specs.Prelude.{◌≡◌};
ghost use Rattle.lucy_naming.specs.declared.error.NameError.TheVariants as error;

use lucy_tree::Span;
use lucy_word::Limit;
use std::alloc::{AllocError, AllocFailed};

/// Why a program has no places. A span is that of the name.
#[derive(Clone, Copy)]
pub enum NameError {
    /// No node has the name that is called, no operator of the host the name that is used, or no stream of the node the
    /// name that is read.
    Unknown(Span),
    /// The name of a node, of a stream of the node, or of a result stands a second time.
    Twice(Span),
    /// The result is neither a parameter nor a defined name.
    NoResult(Span),
    /// The node that is called has another number of parameters, or of results.
    Arity(Span),
    /// The node that is called stands no higher than its caller.
    LaterNode(Span),
    /// A node has more places than `Limit::Places`.
    TooMany(Limit),
    OutOfMemory,
}

impl From<AllocError> for NameError {
    ghost from_gives = { λ _ e. e ≡ error.OutOfMemory };

    fn from(_: AllocError) -> Self {
        NameError::OutOfMemory
    }
}

impl<T: Drop> From<AllocFailed<T>> for NameError {
    ghost from_gives = { λ _ e. e ≡ error.OutOfMemory };

    fn from(_: AllocFailed<T>) -> Self {
        NameError::OutOfMemory
    }
}
