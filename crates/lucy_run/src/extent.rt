// How far what main is fed carries a run.
ghost use Rattle.std.specs.Prelude.{◌≡◌, ◌<◌, ◌^◌, length, IfOk};
ghost use Rattle.lucy_run.specs.Owes.{IsHorizonOf, EndsFor};

use crate::ending::Ending;
use crate::horizons::{ending_for, most_instants};
use lucy_host::Inputs;
use lucy_lines::TextFault;
use lucy_results::{allows_more, horizon, lengths};
use lucy_word::{Limit, Word};
use std::alloc::{AllocError, Global};

/// How many instants what main is fed allows, and how the run ends behind them.
#[derive(Drop)]
pub struct Extent {
    /// The horizon, in instants.
    pub horizon: u64,
    /// How the run ends where its output is whole.
    pub ending: Ending,
}

/// How far the items of main's inputs, of these words, carry a run for which these instants are given. Their reading stopped so.
pub fn extent_of(
    alloc: Global,
    words: &[Word],
    given: Option<u64>,
    items: &Inputs,
    stop: Option<TextFault>,
) -> Result<Extent, AllocError>
    requires lists { length items.now ≡ length words.now }
    requires few { length words.now < 2 ^ 32 }
    ensures horizon { IfOk result (λ extent. IsHorizonOf words.now given items.now extent.horizon) }
    ensures ending { IfOk result (λ extent. EndsFor words.now given items.now stop extent.ending) }
{
    let counts = lengths(alloc, items, words.len())?;
    let horizon = horizon(words, &counts, most_instants(given));
    let more = allows_more(words, &counts, Limit::Instants.number());
    let ending = ending_for(given, more, stop);
    Ok(Extent { horizon, ending })
}
