// Rings of which no more are held than are allowed.
ghost use Rattle.std.specs.Prelude.{List, ◌≡◌, ◌<◌, ◌↔◌, ◌∷◌, ◌++◌, [], IsTrue, OnOk, IfErr};
ghost use Rattle.lucy_word.specs.Limits.{limit_number};
ghost use Rattle.lucy_word.specs.declared.limit.Limit.TheVariants as lim;
ghost use Rattle.lucy_net.specs.declared.net.RingSpec.{RingSpec as Ring};
ghost use Rattle.lucy_flat.specs.declared.error.FlatError.TheVariants as err;
ghost use Rattle.lucy_flat.specs.Assembly.{AreHeld};

use crate::error::FlatError;
use crate::words::bits;
use lucy_net::RingSpec;
use lucy_word::{Limit, words_are_stored};

/// Of the rings of a net, in order, those that are kept: all, until the words of all have together more bits than are allowed.
#[derive(Drop)]
pub(crate) struct Held {
    pub rings: Vec<RingSpec>,
    /// The bits of all rings, those that aren't kept among them, and no more are counted once they are too many.
    pub bits: u64,
}

/// Whether all rings have together more bits than are allowed.
pub(crate) fn is_past(held: &Held) -> bool
    ensures { IsTrue result ↔ (limit_number lim.Bits < held.now.bits) }
{
    held.bits > Limit::Bits.number()
}

/// Keeps one ring more, unless all have with it more bits than are allowed.
pub(crate) fn hold(held: &mut Held, next: RingSpec) -> Result<(), FlatError>
    ensures ok { (rings : List Ring) → AreHeld rings held.old → OnOk result (AreHeld (rings ++ next ∷ []) held.new) }
    ensures refused { IfErr result (λ e. e ≡ err.OutOfMemory) }
{
    words_are_stored(&next.write);
    words_are_stored(&next.read);
    let more = bits(&next.write) + bits(&next.read);
    held.bits = held.bits.saturating_add(more);
    if held.bits > Limit::Bits.number() {
        return Ok(());
    }
    held.rings.push(next)?;
    Ok(())
}
