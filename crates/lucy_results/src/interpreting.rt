// The output streams by the plain interpreter.
ghost use Rattle.std.specs.Prelude.{◌≡◌, ◌≤◌, ◌<◌, ◌-◌, ◌^◌, ◌⊎◌, ◌↔◌, Err, length, map, IfOk, IfErr};
ghost use Rattle.lucy_word.specs.Bits.{ones_to};
ghost use Rattle.lucy_word.specs.Limits.{limit_number};
ghost use Rattle.lucy_word.specs.declared.limit.Limit.TheVariants as limit;
ghost use Rattle.lucy_host.specs.Host.{Serves, lent};
ghost use Rattle.lucy_host.specs.Operators.{kinds_of};
ghost use Rattle.lucy_place.specs.Proper.{HaveOperators};
ghost use Rattle.lucy_kahn.specs.Spots.{main_of, results_in};
ghost use Rattle.lucy_kahn.specs.Horizons.{Suffice};
ghost use Rattle.lucy_kahn.specs.declared.error.KahnError.TheVariants as error;
ghost use Rattle.lucy_kahn.specs.Turns.{params_in};
ghost use Rattle.lucy_flat.specs.Clocked.{AreClocked};
ghost use Rattle.lucy_results.specs.Streams.{param_words, result_words, main_streams, cut_to};
ghost use Rattle.lucy_results.specs.Running.{HasSchedule, HasManyTurns, HasManyItems, RefusesStreams};

use crate::clocks::{param_words, result_word};
use crate::lists::add_front;
use lucy_clock::NodeClock;
use lucy_host::{Host, Inputs};
use lucy_kahn::{KahnError, kahn, places_of};
use lucy_place::Placed;
use lucy_word::{Limit, Word};
use std::alloc::{AllocError, Global};

// The lists cut at the horizon, each by the word of its number.
fn cut_inputs(
    alloc: Global,
    words: &[Word],
    lists: &Inputs,
    instants: u64,
) -> Result<Inputs, AllocError>
    requires same { length words.now ≡ length lists.now }
    requires few { length words.now < 2 ^ 32 - 1 }
    ensures { IfOk result (λ cut. cut ≡ cut_to instants words.now lists.now) }
{
    let mut cut = Inputs::new(alloc);
    'each: for (i, word) in words.iter().enumerate() {
        let number = i as u32;
        add_front(alloc, &mut cut, number, lists.list(number), word, instants)?;
    }
    Ok(cut)
}

// The lists of main's results cut at the horizon, each by its word.
fn cut_results(
    alloc: Global,
    placed: &Placed,
    clocks: &[NodeClock],
    lists: &Inputs,
    instants: u64,
) -> Result<Inputs, AllocError>
    requires clocked { AreClocked placed.now.nodes clocks.now }
    requires same { length (result_words placed.now.nodes clocks.now) ≡ length lists.now }
    requires few { length (results_in (main_of placed.now.nodes)) < 2 ^ 32 - 1 }
    ensures { IfOk result (λ cut. cut ≡ cut_to instants (result_words placed.now.nodes clocks.now) lists.now) }
{
    let results = placed.node(placed.nodes() - 1).results.list().len();
    let mut cut = Inputs::new(alloc);
    'each: for i in 0..results {
        let number = i as u32;
        let word = result_word(placed, clocks, number);
        add_front(alloc, &mut cut, number, lists.list(number), word, instants)?;
    }
    Ok(cut)
}

/// The output streams of a program up to a horizon of at most 1,048,576 instants, by the plain interpreter, which is handed the
/// items of the horizon alone: a list for each result of main, in order. `Limit(KahnTurns)` comes exactly where the horizon
/// times the number of places with calls written out is more than 1,024, else `Limit(KahnItems)` where a list of an iterate
/// has more than 65,536 items.
pub fn interpret<F: Fn(u32, i64, i64) -> i64 + Sync>(
    alloc: Global,
    placed: &Placed,
    clocks: &[NodeClock],
    host: &Host<F>,
    inputs: &Inputs,
    instants: u64,
) -> Result<Inputs, KahnError>
    requires clocked { AreClocked placed.now.nodes clocks.now }
    requires scheduled { HasSchedule placed.now.nodes clocks.now }
    requires serves { Serves F.pre F.post host.now }
    requires known { HaveOperators (length (lent host.now)) placed.now.nodes }
    requires inputs { params_in (main_of placed.now.nodes) ≡ length inputs.now }
    requires suffice { Suffice (param_words placed.now.nodes clocks.now) inputs.now instants }
    requires early { instants ≤ limit_number limit.Instants }
    ensures ok { IfOk result (λ lists. lists ≡ main_streams (kinds_of (lent host.now)) inputs.now placed.now.nodes clocks.now instants) }
    ensures counts { IfOk result (λ lists. map length lists ≡ map (λ word. ones_to word instants) (result_words placed.now.nodes clocks.now)) }
    ensures refused { IfErr result (RefusesStreams (kinds_of (lent host.now)) inputs.now placed.now.nodes clocks.now instants) }
    ensures turns { (result ≡ Err (error.Limit limit.KahnTurns)) ↔ HasManyTurns placed.now.nodes instants }
    ensures items { HasManyItems (kinds_of (lent host.now)) inputs.now placed.now.nodes clocks.now instants →
        (result ≡ Err error.OutOfMemory) ⊎ (result ≡ Err (error.Limit limit.KahnItems)) }
{
    // For the proof: this call tells that the nodes are proper.
    let _ = placed.nodes();
    let turns = instants * places_of(placed);
    if turns > Limit::KahnTurns.number() {
        return Err(KahnError::Limit(Limit::KahnTurns));
    }
    let front = cut_inputs(alloc, param_words(placed, clocks), inputs, instants)?;
    let lists = kahn(alloc, placed, host, turns, &front)?;
    Ok(cut_results(alloc, placed, clocks, &lists, instants)?)
}
