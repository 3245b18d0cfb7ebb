// What the outputs of a core of a program's flat net took.
ghost use Rattle.std.specs.Prelude.{◌≡◌, length, IfOk};
ghost use Rattle.lucy_core.specs.Seen.{state_of};
ghost use Rattle.lucy_kahn.specs.Spots.{main_of, results_in};
ghost use Rattle.lucy_flat.specs.Flat.{IsFlat};
ghost use Rattle.lucy_results.specs.Taking.{taken_lists};

use crate::lists::add;
use lucy_clock::NodeClock;
use lucy_core::Core;
use lucy_host::Inputs;
use lucy_place::Placed;
use std::alloc::{AllocError, Global};

/// What the outputs of a core of a program's flat net took so far, whether it is finished or not: a list for each result of main, in
/// order.
pub fn outputs_so_far(
    alloc: Global,
    placed: &Placed,
    clocks: &[NodeClock],
    core: &Core,
) -> Result<Inputs, AllocError>
    requires { IsFlat placed.now.nodes clocks.now core.now.net }
    ensures taken { IfOk result (λ lists. lists ≡ taken_lists placed.now.nodes core.now.net (state_of core.now)) }
    ensures count { IfOk result (λ lists. length lists ≡ length (results_in (main_of placed.now.nodes))) }
{
    let results = placed.node(placed.nodes() - 1).results.list().len();
    let mut lists = Inputs::new(alloc);
    'each: for i in 0..results {
        add(alloc, &mut lists, i as u32, core.output(i as u32))?;
    }
    Ok(lists)
}
