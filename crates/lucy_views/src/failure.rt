// Why nothing is printed.
ghost use Rattle.std.specs.Prelude.{◌≡◌};
ghost use Rattle.lucy_front.specs.Refusing.{syntax_refusal, names_refusal};
ghost use Rattle.lucy_views.specs.Failures.{fetch_failure, program_failure};
ghost use Rattle.lucy_views.specs.declared.failure.Failure.TheVariants.{OutOfMemory};

use crate::missing::Missing;
use lucy_naming::NameError;
use lucy_syntax::SyntaxError;
use lucy_text::ShelfError;
use lucy_word::Limit;
use std::alloc::AllocError;

/// Why nothing is printed.
#[derive(Drop)]
pub(crate) enum Failure {
    /// The program is refused.
    Program(lucy_front::Refusal),
    /// What the words ask for isn't there.
    Lacks(Missing),
    /// A fetch failed, or no file has the name.
    ReadFault,
    /// Memory ran out.
    OutOfMemory,
}

impl From<AllocError> for Failure {
    ghost from_gives = { λ _ e. e ≡ OutOfMemory };

    fn from(_: AllocError) -> Self {
        Failure::OutOfMemory
    }
}

impl From<ShelfError> for Failure {
    ghost from_gives = { λ error e. e ≡ fetch_failure error };

    fn from(error: ShelfError) -> Self {
        match error {
            ShelfError::Failed | ShelfError::Missing => Failure::ReadFault,
            ShelfError::TooLong => Failure::Program(lucy_front::Refusal::Limit(Limit::Text)),
            ShelfError::OutOfMemory => Failure::OutOfMemory,
        }
    }
}

impl From<lucy_front::Refusal> for Failure {
    ghost from_gives = { λ refusal e. e ≡ program_failure refusal };

    fn from(refusal: lucy_front::Refusal) -> Self {
        match refusal {
            lucy_front::Refusal::OutOfMemory => Failure::OutOfMemory,
            refusal => Failure::Program(refusal),
        }
    }
}

impl From<SyntaxError> for Failure {
    ghost from_gives = { λ error e. e ≡ program_failure (syntax_refusal error) };

    fn from(error: SyntaxError) -> Self {
        Failure::from(lucy_front::Refusal::from(error))
    }
}

impl From<NameError> for Failure {
    ghost from_gives = { λ error e. e ≡ program_failure (names_refusal error) };

    fn from(error: NameError) -> Self {
        Failure::from(lucy_front::Refusal::from(error))
    }
}
