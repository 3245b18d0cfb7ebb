// The words of main.
ghost use Rattle.std.specs.Prelude.{◌≡◌, ◌≤◌, ◌<◌, Some, length, slice_get};
ghost use Rattle.lucy_word.specs.Limits.{limit_number};
ghost use Rattle.lucy_word.specs.declared.limit.Limit.TheVariants as limit;
ghost use Rattle.lucy_kahn.specs.Spots.{main_of, results_in};
ghost use Rattle.lucy_flat.specs.Clocked.{AreClocked};
ghost use Rattle.lucy_results.specs.Streams.{param_words, result_words};

use lucy_clock::NodeClock;
use lucy_place::Placed;
use lucy_word::Word;

/// The words of main's parameters, in order. They are no more than the places that a node may have.
pub fn param_words<'a>(placed: &Placed, clocks: &'a [NodeClock]) -> &'a [Word]
    requires { AreClocked placed.now.nodes clocks.now }
    ensures words { result.now ≡ param_words placed.now.nodes clocks.now }
    ensures few { length result.now ≤ limit_number limit.Places }
{
    let main = placed.nodes() - 1;
    let params = placed.node(main).params as usize;
    &clocks[main as usize].words.list()[1..params + 1]
}

/// The word of the result of main of this number, which counts from 0.
pub(crate) fn result_word<'a>(placed: &Placed, clocks: &'a [NodeClock], number: u32) -> &'a Word
    requires clocked { AreClocked placed.now.nodes clocks.now }
    requires there { number < length (results_in (main_of placed.now.nodes)) }
    ensures { slice_get (result_words placed.now.nodes clocks.now) number ≡ Some result.now }
{
    let main = placed.nodes() - 1;
    let place = placed.node(main).results.list()[number as usize];
    &clocks[main as usize].words.list()[place as usize]
}
