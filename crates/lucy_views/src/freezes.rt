// The command `freeze`: the program with every clock written out.
ghost use Rattle.std.specs.Prelude.{Ok, IfErr};
ghost use Rattle.lucy_asking.specs.declared.ask.Picture.TheVariants as picture;
ghost use Rattle.lucy_asking.specs.Asks.{AreFactors};
ghost use Rattle.lucy_views.specs.Owes.{OwesPicture};
ghost use Rattle.lucy_views.specs.Failures.{ComesOut, Tellable, unread};

use crate::failure::Failure;
use crate::missing::Missing;
use crate::program::options;
use lucy_asking::FileWords;
use lucy_freeze::{FreezeError, freeze};
use lucy_host::Ops;
use std::alloc::Global;

/// What `freeze` prints of a text, or why it prints nothing.
pub(crate) fn freezes(
    alloc: Global,
    words: FileWords<'_>,
    ops: &Ops,
    text: &[u8],
) -> Result<Vec<u8>, Failure>
    requires { AreFactors words }
    ensures outcome { ComesOut (OwesPicture (picture.Freeze words.entry) (unread ops.now (Ok text.now))) result }
    ensures told { IfErr result Tellable }
{
    match freeze(alloc, text, ops, &options(words)) {
        Ok(frozen) => Ok(frozen.text),
        Err(FreezeError::Program(reason)) => Err(Failure::from(reason)),
        Err(FreezeError::Text(reason)) => Err(Failure::from(reason)),
        Err(FreezeError::Differs) => Err(Failure::Lacks(Missing::Frozen)),
        Err(FreezeError::OutOfMemory) => Err(Failure::OutOfMemory),
    }
}
