// The horizon of a run, and how it ends.
ghost use Rattle.std.specs.Prelude.{◌≡◌, ◌↔◌, ℕ, ℤ, List, IsTrue};
ghost use Rattle.lucy_word.specs.Bits.{Bits};
ghost use Rattle.lucy_run.specs.Owes as owes;
ghost use Rattle.lucy_run.specs.Owes.{AllowsMore, EndsFor};

use crate::ending::Ending;
use lucy_lines::TextFault;
use lucy_word::{Limit, Word};

/// The most instants of a run where these are given.
pub(crate) fn most_instants(given: Option<u64>) -> u64
    ensures { result ≡ owes.most_instants given }
{
    match given {
        Some(given) => given,
        None => Limit::Instants.number(),
    }
}

/// How the run ends where its output is whole, by whether the items allow more instants than a run may have.
pub(crate) fn ending_for(given: Option<u64>, more: bool, stop: Option<TextFault>) -> Ending
    ensures { (words : List Bits) (lists : List (List ℤ)) → (IsTrue more ↔ AllowsMore words lists) → EndsFor words given lists stop result }
{
    match stop {
        Some(fault) => Ending::Input(fault),
        None => {
            if given.is_none() && more {
                Ending::Limit(Limit::Instants)
            } else {
                Ending::Done
            }
        }
    }
}
