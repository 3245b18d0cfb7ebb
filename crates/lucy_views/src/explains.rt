// The command `explain`: why a program is refused, for people.
ghost use Rattle.std.specs.Prelude.{◌≡◌, ◌≢◌, false, Ok, Some, IfOk, IfErr, IfSome};
ghost use Rattle.lucy_front.specs.declared.refusal.Refusal.TheVariants as front;
ghost use Rattle.lucy_views.specs.declared.failure.Failure.TheVariants.{OutOfMemory};
ghost use Rattle.lucy_asking.specs.declared.ask.Picture.TheVariants as picture;
ghost use Rattle.lucy_asking.specs.Asks.{AreFactors};
ghost use Rattle.lucy_views.specs.Meets.{options_of};
ghost use Rattle.lucy_views.specs.Owes.{Explains, OwesPicture};
ghost use Rattle.lucy_views.specs.Failures.{ComesOut, Tellable, unread};

use crate::failure::Failure;
use crate::program::options;
use lucy_app::program_status;
use lucy_asking::FileWords;
use lucy_explain::{Explained, explain};
use lucy_front::Refusal;
use lucy_host::Ops;
use std::alloc::Global;

// Whether a text was refused for want of memory.
fn lacks_memory(refusal: &Option<Refusal>) -> bool
    ensures { result ≡ false → IfSome refusal.now (λ r. r ≢ front.OutOfMemory) }
{
    match refusal {
        Some(refusal) => program_status(refusal) == 7,
        None => false,
    }
}

/// What is told of a text for people, if there is memory for that.
pub(crate) fn explained(
    alloc: Global,
    words: FileWords<'_>,
    ops: &Ops,
    text: &[u8],
) -> Result<Explained, Failure>
    requires { AreFactors words }
    ensures ok { IfOk result (λ e. Explains ops.now (options_of words.entry) text.now e.refusal e.text.items) }
    ensures short { IfErr result (λ e. e ≡ OutOfMemory) }
    ensures told { IfErr result Tellable }
{
    let explained = explain(alloc, text, ops, &options(words))?;
    if lacks_memory(&explained.refusal) {
        return Err(Failure::OutOfMemory);
    }
    Ok(explained)
}

/// What `explain` prints of a text, or why it prints nothing.
pub(crate) fn explains(
    alloc: Global,
    words: FileWords<'_>,
    ops: &Ops,
    text: &[u8],
) -> Result<Vec<u8>, Failure>
    requires { AreFactors words }
    ensures outcome { ComesOut (OwesPicture (picture.Explain words.entry) (unread ops.now (Ok text.now))) result }
    ensures told { IfErr result Tellable }
{
    let explained = explained(alloc, words, ops, text)?;
    Ok(explained.text)
}
