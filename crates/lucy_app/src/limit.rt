// The line of a limit that is passed.
ghost use Rattle.std.specs.Prelude.{◌≡◌, IfOk};
ghost use Rattle.lucy_front.specs.Refusals.{limit_line};

use lucy_front::{Refusal, refusal_text};
use lucy_word::Limit;
use std::alloc::{AllocError, Global};

/// The line on the fault sink.
pub(crate) fn limit_text(alloc: Global, limit: Limit) -> Result<Vec<u8>, AllocError>
    ensures { IfOk result (λ v. v.items ≡ limit_line limit) }
{
    let refusal = Refusal::Limit(limit);
    let text = refusal_text(alloc, &refusal);
    drop(refusal);
    text
}
