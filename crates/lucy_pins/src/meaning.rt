// Counts over the calls of a program, and laws of its iterates.
ghost use Rattle.std.specs.Prelude.{ℕ, ◌≡◌, ◌≤◌, Some, length, slice_get, slice_index};
ghost use Rattle.lucy_place.specs.declared.placed.PlacedNode.{PlacedNode as Node};
ghost use Rattle.lucy_kahn.specs.Sizes.{capped, AreCapped, total_of, size_of};
ghost use Rattle.lucy_kahn.specs.Laws.{CausalByNumberLaw, LaterLaw, MoreInputsLaw, NumberBelowLaw, OwnNumberLaw, NumberedLaw, NumberedPlaceLaw, NumberedCountLaw};

use lucy_place::Placed;

/// Pins `lucy_kahn::add_calls`.
pub fn add_calls(placed: &Placed, counts: &mut [u64])
    requires { length placed.now.nodes ≤ length counts.old }
    ensures length { length counts.new ≡ length counts.old }
    ensures totals { (own : ℕ → Node → ℕ) → ((i : ℕ) (node : Node) → slice_get placed.now.nodes i ≡ Some node → slice_index counts.old i ≡ capped (own i node)) →
        AreCapped (total_of own placed.now.nodes) (length placed.now.nodes) counts.new }
{
    lucy_kahn::add_calls(placed, counts);
}

/// Pins `lucy_kahn::sizes`.
pub fn sizes(placed: &Placed) -> [u64; 256]
    ensures { AreCapped (size_of placed.now.nodes) (length placed.now.nodes) result }
{
    lucy_kahn::sizes(placed)
}

/// Pins `lucy_kahn::programs_are_causal_by_number`.
pub fn programs_are_causal_by_number()
    ensures { CausalByNumberLaw }
{
    lucy_kahn::programs_are_causal_by_number();
}

/// Pins `lucy_kahn::programs_grow`.
pub fn programs_grow()
    ensures later { LaterLaw }
    ensures inputs { MoreInputsLaw }
{
    lucy_kahn::programs_grow();
}

/// Pins `lucy_kahn::instance_places_are_numbered`.
pub fn instance_places_are_numbered()
    ensures below { NumberBelowLaw }
    ensures own { OwnNumberLaw }
    ensures reached { NumberedLaw }
    ensures place { NumberedPlaceLaw }
    ensures count { NumberedCountLaw }
{
    lucy_kahn::instance_places_are_numbered();
}
