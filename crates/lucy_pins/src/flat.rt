// The flat net of a program.
ghost use Rattle.std.specs.Prelude.{◌≡◌, ◌⊎◌, ◌≤◌, IfOk, IfErr, MatchResult};
ghost use Rattle.lucy_word.specs.declared.limit.Limit.{Limit as Which};
ghost use Rattle.lucy_word.specs.declared.limit.Limit.TheVariants as lim;
ghost use Rattle.lucy_net.specs.declared.net.Net.{Net as Flat};
ghost use Rattle.lucy_word.specs.Limits.{limit_number};
ghost use Rattle.lucy_flat.specs.declared.error.FlatError.TheVariants as err;
ghost use Rattle.lucy_flat.specs.Clocked.{AreClocked};
ghost use Rattle.lucy_flat.specs.Refusals.{IsFlatNet, RefusesFlat, net_bits};
ghost use Rattle.lucy_flat.specs.Laws.{PlacesIterate, OutputsIterate, NetsAreCausal, OneNet, OneLimit, FlatOrRefused, FlatWouldBe, ActorsCounted, RingsCounted, SlotsCounted, LimitIsPassed};

use lucy_clock::NodeClock;
use lucy_flat::FlatError;
use lucy_net::Net;
use lucy_place::Placed;
use std::alloc::Global;

/// Pins `lucy_flat::flatten`.
pub fn flatten(alloc: Global, placed: &Placed, clocks: &[NodeClock]) -> Result<Net, FlatError>
    requires { AreClocked placed.now.nodes clocks.now }
    ensures ok { IfOk result (IsFlatNet placed.now.nodes clocks.now) }
    ensures bits { IfOk result (λ net. net_bits net ≤ limit_number lim.Bits) }
    ensures refused { IfErr result (RefusesFlat placed.now.nodes clocks.now) }
    ensures accepted { (net : Flat) → IsFlatNet placed.now.nodes clocks.now net → net_bits net ≤ limit_number lim.Bits → MatchResult result (λ got. got ≡ net) (λ e. e ≡ err.OutOfMemory) }
    ensures limit { (l : Which) → RefusesFlat placed.now.nodes clocks.now (err.Limit l) → MatchResult result (λ net. ⊥) (λ e. (e ≡ err.OutOfMemory) ⊎ (e ≡ err.Limit l)) }
{
    lucy_flat::flatten(alloc, placed, clocks)
}

/// Pins `lucy_flat::flat_nets_iterate_as_programs`.
pub fn flat_nets_iterate_as_programs()
    ensures places { PlacesIterate }
    ensures outputs { OutputsIterate }
{
    lucy_flat::flat_nets_iterate_as_programs();
}

/// Pins `lucy_flat::flat_nets_are_causal_as_programs`.
pub fn flat_nets_are_causal_as_programs()
    ensures { NetsAreCausal }
{
    lucy_flat::flat_nets_are_causal_as_programs();
}

/// Pins `lucy_flat::programs_have_one_flat_net`.
pub fn programs_have_one_flat_net()
    ensures one_net { OneNet }
    ensures one_limit { OneLimit }
    ensures never_both { FlatOrRefused }
{
    lucy_flat::programs_have_one_flat_net();
}

/// Pins `lucy_flat::flat_nets_are_counted`.
pub fn flat_nets_are_counted()
    ensures would_be { FlatWouldBe }
    ensures actors { ActorsCounted }
    ensures rings { RingsCounted }
    ensures slots { SlotsCounted }
    ensures passes { LimitIsPassed }
{
    lucy_flat::flat_nets_are_counted();
}
