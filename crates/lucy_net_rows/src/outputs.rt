// What the outputs of main's results have taken.
ghost use Rattle.std.specs.Prelude.{ℕ, ◌≡◌, List, Some, IsTrue};
ghost use Rattle.lucy_kahn.specs.Spots.{main_of};
ghost use Rattle.lucy_flat.specs.Flat.{IsFlat};
ghost use Rattle.lucy_clock.specs.declared.node_clock.NodeClock.{NodeClock};
ghost use Rattle.lucy_net.specs.declared.net.Actor.{Actor};
ghost use Rattle.lucy_net.specs.declared.net.Net.{Net};
ghost use Rattle.lucy_core.specs.Seen.{IsOutputOf};

use lucy_place::{Placed, PlacedNode};

/// Main, which is the last node.
pub(crate) fn main_node(placed: &Placed) -> &PlacedNode
    ensures { main_of placed.now.nodes ≡ Some result.now }
{
    placed.node(placed.nodes() - 1)
}

/// Whether main has a result of this number, from 0: then the program's flat net has its output.
pub(crate) fn has_result(placed: &Placed, number: u32) -> bool
    ensures { IsTrue result → (clocks : List NodeClock) (net : Net) → IsFlat placed.now.nodes clocks net →
        (a : ℕ) × (actor : Actor) × IsOutputOf net number a actor }
{
    (number as usize) < main_node(placed).results.list().len()
}
