// Drafts of which no more are kept than are allowed.
ghost use Rattle.std.specs.Prelude.{List, ◌≡◌, ◌<◌, ◌↔◌, ◌∷◌, ◌++◌, [], IsTrue, OnOk, IfErr};
ghost use Rattle.lucy_word.specs.Limits.{limit_number};
ghost use Rattle.lucy_word.specs.declared.limit.Limit.TheVariants as lim;
ghost use Rattle.lucy_flat.specs.declared.draft.Draft.{Draft as One};
ghost use Rattle.lucy_flat.specs.declared.error.FlatError.TheVariants as err;
ghost use Rattle.lucy_flat.specs.Drafts.{AreKept};

use crate::draft::Draft;
use crate::error::FlatError;
use crate::words::bits;
use lucy_word::{Limit, words_are_stored};

/// Of the drafts of a program, in order, those that are kept: all, until the words of all have together more bits than are allowed.
#[derive(Drop)]
pub(crate) struct Kept {
    pub drafts: Vec<Draft>,
    /// The bits of the words of all drafts, those that aren't kept among them, and no more are counted once they are too many.
    pub bits: u64,
}

/// Whether the words of all drafts have together more bits than are allowed.
pub(crate) fn is_past(kept: &Kept) -> bool
    ensures { IsTrue result ↔ (limit_number lim.Bits < kept.now.bits) }
{
    kept.bits > Limit::Bits.number()
}

/// Keeps one draft more, unless the words of all have with its own more bits than are allowed.
pub(crate) fn keep(kept: &mut Kept, next: Draft) -> Result<(), FlatError>
    ensures ok { (drafts : List One) → AreKept drafts kept.old → OnOk result (AreKept (drafts ++ next ∷ []) kept.new) }
    ensures refused { IfErr result (λ e. e ≡ err.OutOfMemory) }
{
    words_are_stored(&next.word);
    kept.bits = kept.bits.saturating_add(bits(&next.word));
    if kept.bits > Limit::Bits.number() {
        return Ok(());
    }
    kept.drafts.push(next)?;
    Ok(())
}
