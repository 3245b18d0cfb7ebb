// How many instance places a program has.
ghost use Rattle.std.specs.Prelude.{◌≡◌};
ghost use Rattle.lucy_kahn.specs.Sizes.{all_places, capped};

use crate::counting::sizes;
use lucy_place::Placed;

/// How many instance places the program has: the places of main with its calls written out. The greatest 64-bit number,
/// where there are more.
pub fn places_of(placed: &Placed) -> u64
    ensures { result ≡ capped (all_places placed.now.nodes) }
{
    let main = placed.nodes() - 1;
    sizes(placed)[main as usize]
}
