// The plain interpreter.
ghost use Rattle.std.specs.Prelude.{◌≡◌, ◌⊎◌, Err, map, length, IfOk, IfErr};
ghost use Rattle.lucy_kahn.specs.Sizes.{all_places, capped};
ghost use Rattle.lucy_word.specs.declared.limit.Limit.TheVariants as limit;
ghost use Rattle.lucy_host.specs.Host.{Serves, lent};
ghost use Rattle.lucy_host.specs.Operators.{kinds_of};
ghost use Rattle.lucy_place.specs.Proper.{HaveOperators};
ghost use Rattle.lucy_kahn.specs.Spots.{main_of, results_of};
ghost use Rattle.lucy_kahn.specs.Kahn as meaning;
ghost use Rattle.lucy_kahn.specs.declared.error.KahnError.TheVariants as error;
ghost use Rattle.lucy_kahn.specs.Turns.{params_in, IsLongUpto};

use lucy_host::{Host, Inputs};
use lucy_kahn::KahnError;
use lucy_place::Placed;
use std::alloc::Global;

/// Pins `lucy_kahn::places_of`.
pub fn places_of(placed: &Placed) -> u64
    ensures { result ≡ capped (all_places placed.now.nodes) }
{
    lucy_kahn::places_of(placed)
}

/// Pins `lucy_kahn::kahn`.
pub fn kahn<F: Fn(u32, i64, i64) -> i64 + Sync>(
    alloc: Global,
    placed: &Placed,
    host: &Host<F>,
    turns: u64,
    inputs: &Inputs,
) -> Result<Inputs, KahnError>
    requires serves { Serves F.pre F.post host.now }
    requires known { HaveOperators (length (lent host.now)) placed.now.nodes }
    requires inputs { params_in (main_of placed.now.nodes) ≡ length inputs.now }
    ensures ok { IfOk result (λ lists. lists ≡ map (meaning.kahn (kinds_of (lent host.now)) inputs.now placed.now.nodes turns) (results_of placed.now.nodes)) }
    ensures limit { IfErr result (λ e. (e ≡ error.OutOfMemory) ⊎ ((e ≡ error.Limit limit.KahnItems) × IsLongUpto (kinds_of (lent host.now)) inputs.now placed.now.nodes turns)) }
    ensures passed { IsLongUpto (kinds_of (lent host.now)) inputs.now placed.now.nodes turns → (result ≡ Err error.OutOfMemory) ⊎ (result ≡ Err (error.Limit limit.KahnItems)) }
{
    lucy_kahn::kahn(alloc, placed, host, turns, inputs)
}
