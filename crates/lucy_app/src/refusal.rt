// Why a command has no answer.
ghost use Rattle.std.specs.Prelude.{◌≡◌, ◌≢◌, ◌≤◌};
ghost use Rattle.lucy_front.specs.Refusing.{syntax_refusal, names_refusal};
ghost use Rattle.lucy_app.specs.ProgramRefusals.{program_status};
ghost use Rattle.lucy_app.specs.Outcomes.{fetch_refusal, fetch_refusal_within, program_refusal, read_refusal, trace_refusal};
ghost use Rattle.lucy_app.specs.declared.refusal.Refusal.TheVariants.{OutOfMemory};

use crate::input_refusal::InputCause;
use lucy_naming::NameError;
use lucy_syntax::SyntaxError;
use lucy_text::{ReadError, ShelfError};
use lucy_trace::TraceError;
use lucy_word::Limit;
use std::alloc::AllocError;

/// Why a command has no answer.
#[derive(Drop)]
pub(crate) enum Refusal {
    /// The program is refused.
    Program(lucy_front::Refusal),
    /// The input is refused.
    Input(InputCause),
    /// The program's main has no inputs, and the words give no instants.
    NoInstants,
    /// The program has no buffer that is named so.
    NoBuffer,
    /// The log is refused.
    Log(TraceError),
    /// A fetch or a read failed, or no file has the name.
    ReadFault,
    /// Memory ran out.
    OutOfMemory,
}

/// The status that `lucy` ends with where a program is refused so: 1, 6 or 7.
pub fn program_status(refusal: &lucy_front::Refusal) -> u8
    ensures is { result ≡ program_status refusal.now }
    ensures known { result ≤ 7 }
    ensures fails { result ≢ 0 }
{
    match refusal {
        lucy_front::Refusal::Syntax(_) => 1,
        lucy_front::Refusal::Names(_) => 1,
        lucy_front::Refusal::Types { .. } => 1,
        lucy_front::Refusal::Node { .. } => 1,
        lucy_front::Refusal::Cause { .. } => 1,
        lucy_front::Refusal::Limit(_) => 6,
        lucy_front::Refusal::OutOfMemory => 7,
    }
}

/// Why there is no answer where the fetch of a file within this limit failed so.
pub(crate) fn unfetched(error: ShelfError, limit: Limit) -> Refusal
    ensures { result ≡ fetch_refusal_within limit error }
{
    match error {
        ShelfError::Failed | ShelfError::Missing => Refusal::ReadFault,
        ShelfError::TooLong => Refusal::Program(lucy_front::Refusal::Limit(limit)),
        ShelfError::OutOfMemory => Refusal::OutOfMemory,
    }
}

impl From<AllocError> for Refusal {
    ghost from_gives = { λ _ e. e ≡ OutOfMemory };

    fn from(_: AllocError) -> Self {
        Refusal::OutOfMemory
    }
}

impl From<ReadError> for Refusal {
    ghost from_gives = { λ error e. e ≡ read_refusal error };

    fn from(error: ReadError) -> Self {
        match error {
            ReadError::Failed => Refusal::ReadFault,
            ReadError::OutOfMemory => Refusal::OutOfMemory,
        }
    }
}

impl From<ShelfError> for Refusal {
    ghost from_gives = { λ error e. e ≡ fetch_refusal error };

    fn from(error: ShelfError) -> Self {
        unfetched(error, Limit::Text)
    }
}

impl From<TraceError> for Refusal {
    ghost from_gives = { λ error e. e ≡ trace_refusal error };

    fn from(error: TraceError) -> Self {
        match error {
            TraceError::OutOfMemory => Refusal::OutOfMemory,
            error => Refusal::Log(error),
        }
    }
}

impl From<lucy_front::Refusal> for Refusal {
    ghost from_gives = { λ refusal e. e ≡ program_refusal refusal };

    fn from(refusal: lucy_front::Refusal) -> Self {
        match refusal {
            lucy_front::Refusal::OutOfMemory => Refusal::OutOfMemory,
            refusal => Refusal::Program(refusal),
        }
    }
}

impl From<SyntaxError> for Refusal {
    ghost from_gives = { λ error e. e ≡ program_refusal (syntax_refusal error) };

    fn from(error: SyntaxError) -> Self {
        Refusal::from(lucy_front::Refusal::from(error))
    }
}

impl From<NameError> for Refusal {
    ghost from_gives = { λ error e. e ≡ program_refusal (names_refusal error) };

    fn from(error: NameError) -> Self {
        Refusal::from(lucy_front::Refusal::from(error))
    }
}
