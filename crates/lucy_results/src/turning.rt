// The output streams by the flat net, where the turns of its workers are made by whoever calls.
ghost use Rattle.std.specs.Prelude.{◌≡◌, ◌≤◌, ◌<◌, All, length, IfOk};
ghost use Rattle.lucy_word.specs.Limits.{limit_number};
ghost use Rattle.lucy_word.specs.declared.limit.Limit.TheVariants as limit;
ghost use Rattle.lucy_host.specs.Operators.{kinds_of};
ghost use Rattle.lucy_place.specs.Proper.{HaveOperators};
ghost use Rattle.lucy_kahn.specs.Spots.{main_of};
ghost use Rattle.lucy_kahn.specs.Horizons.{Suffice};
ghost use Rattle.lucy_kahn.specs.Turns.{params_in};
ghost use Rattle.lucy_net.specs.Orders.{IsSound};
ghost use Rattle.lucy_net.specs.Schedules.{events_at};
ghost use Rattle.lucy_core.specs.Seen.{IsUnbegun};
ghost use Rattle.lucy_flat.specs.Flat.{IsFlat};
ghost use Rattle.lucy_runner.specs.Views.{inputs_for, most_workers};
ghost use Rattle.lucy_runner.specs.Homes.{crew_by, actors_by};
ghost use Rattle.lucy_runner.specs.Crews.{crew_of};
ghost use Rattle.lucy_runner.specs.Turns.{AreServed};
ghost use Rattle.lucy_runner.specs.Finishing.{HaveFinished};
ghost use Rattle.lucy_results.specs.Streams.{param_words, main_streams};
ghost use Rattle.lucy_results.specs.Playing.{crew_for, played, IsPlayed};

use crate::workers::{homes_of, outputs};
use lucy_clock::NodeClock;
use lucy_core::Core;
use lucy_host::{Inputs, Ops};
use lucy_net::{Net, Schedule};
use lucy_place::Placed;
use lucy_runner::{Runner, Seat};
use std::alloc::{AllocError, Global};

// A runner, by so many workers, of a core of a program's flat net without an event so far, once its turns were made.
fn turn_core<T: FnOnce(&mut [Seat])>(
    alloc: Global,
    placed: &Placed,
    clocks: &[NodeClock],
    core: Core,
    workers: u32,
    homes: &[u32],
    turns: T,
) -> Result<Runner, AllocError>
    requires flat { IsFlat placed.now.nodes clocks.now core.net }
    requires unbegun { IsUnbegun core }
    requires workers { (1 ≤ workers) × (workers ≤ most_workers) }
    requires homes { length homes.now ≡ length core.net.actors }
    requires each { All (λ home. home < workers) homes.now }
    requires inputs { inputs_for core.net core.inputs ≡ core.inputs }
    requires params { params_in (main_of placed.now.nodes) ≡ length core.inputs }
    requires turns { (seats : _) → AreServed (length core.operators) (crew_of seats.now) → actors_by (crew_of seats.now) ≡ crew_by workers homes.now → T.pre turns seats
        × ((none : _) (after : _) → T.post turns seats none after → HaveFinished (kinds_of core.operators) seats.now after.now) }
    ensures played { IfOk result (λ runner. IsPlayed placed.now.nodes clocks.now runner) }
    ensures is { IfOk result (λ runner. played placed.now.nodes clocks.now runner
        ≡ record {
          nodes = placed.now.nodes;
          clocks = clocks.now;
          kinds = kinds_of core.operators;
          inputs = core.inputs;
          instants = core.instants;
          before = 0;
          crew = crew_by workers homes.now;
        }) }
{
    let mut runner = Runner::new(alloc, core, workers, homes)?;
    runner.round_by_turns(turns);
    Ok(runner)
}

/// The output streams of a program up to a horizon of at most 1,048,576 instants, by its flat net, whose actors are moved by 1 to 64
/// workers: a list for each result of main, in order. A closure makes the turns of the workers that have actors, which last until
/// every actor has done its list. Actor `a` is in worker `a mod workers`. There is an input for each parameter of main, with the items
/// of so many instants, and the operators of the host that the program names are among these. It returns if the closure does.
pub fn run_net_by_turns<T: FnOnce(&mut [Seat])>(
    alloc: Global,
    placed: &Placed,
    clocks: &[NodeClock],
    net: Net,
    schedule: Schedule,
    ops: &Ops,
    inputs: Inputs,
    instants: u64,
    workers: u32,
    turns: T,
) -> Result<Inputs, AllocError>
    requires flat { IsFlat placed.now.nodes clocks.now net }
    requires sound { IsSound net (events_at schedule) }
    requires known { HaveOperators (length ops.now) placed.now.nodes }
    requires inputs { params_in (main_of placed.now.nodes) ≡ length inputs }
    requires suffice { Suffice (param_words placed.now.nodes clocks.now) inputs instants }
    requires early { instants ≤ limit_number limit.Instants }
    requires workers { (1 ≤ workers) × (workers ≤ most_workers) }
    requires turns { (seats : _) → AreServed (length ops.now) (crew_of seats.now) → actors_by (crew_of seats.now) ≡ crew_for net workers → T.pre turns seats
        × ((none : _) (after : _) → T.post turns seats none after → HaveFinished (kinds_of ops.now) seats.now after.now) }
    ensures { IfOk result (λ lists. lists ≡ main_streams (kinds_of ops.now) inputs placed.now.nodes clocks.now instants) }
{
    // For the proof: this call tells that the nodes are proper.
    let _ = placed.nodes();
    let homes = homes_of(alloc, net.actors.list().len(), workers)?;
    let core = Core::new(alloc, net, schedule, inputs, ops, instants)?;
    let runner = turn_core(alloc, placed, clocks, core, workers, &homes, turns)?;
    outputs(alloc, placed, clocks, &runner)
}
