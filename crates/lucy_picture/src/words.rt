// The clocks of nodes, and the words of these.
ghost use Rattle.std.specs.Prelude.{◌≡◌, ◌<◌, Some, length, slice_get};
ghost use Rattle.lucy_need.specs.Meeting.{assigned};
ghost use Rattle.lucy_flat.specs.Instances.{words_in};

use lucy_clock::NodeClock;
use lucy_word::Word;

/// The word of a clock.
pub(crate) fn word_of(words: &[Word], clock: u32) -> &Word
    requires { clock < length words.now }
    ensures { result.now ≡ assigned words.now clock }
{
    &words[clock as usize]
}

/// The clocks of a node, by its number from 0.
pub(crate) fn clocks_at(clocks: &[NodeClock], node: u32) -> &NodeClock
    requires { node < length clocks.now }
    ensures { slice_get clocks.now node ≡ Some result.now }
{
    &clocks[node as usize]
}

/// The words of the clocks of a node, by its number from 0, and none where there is no such node.
pub fn words_at(clocks: &[NodeClock], node: u32) -> &[Word]
    ensures { result.now ≡ words_in (slice_get clocks.now node) }
{
    match clocks.get(node as usize) {
        Some(clock) => clock.words.list(),
        None => &[],
    }
}
