// What is shown of a program.
ghost use Rattle.std.specs.Prelude.{◌≡◌};
ghost use Rattle.lucy_views.specs.Failures.{shown_alone};

use crate::failure::Failure;
use lucy_front::Refusal;

/// What is printed, and why the program is refused, where that is told too.
#[derive(Drop)]
pub(crate) struct Shown {
    pub print: Vec<u8>,
    pub refusal: Option<Refusal>,
}

/// What is printed, and no refusal.
pub(crate) fn alone(print: Result<Vec<u8>, Failure>) -> Result<Shown, Failure>
    ensures { result ≡ shown_alone print }
{
    match print {
        Ok(print) => Ok(Shown {
            print,
            refusal: None,
        }),
        Err(failure) => Err(failure),
    }
}
