// The net of a program with clocks, and its schedule.
ghost use Rattle.std.specs.Prelude.{ℕ, List, IfOk, IfErr};
ghost use Rattle.lucy_host.specs.Operators.{Operator};
ghost use Rattle.lucy_clock.specs.declared.node_clock.NodeClock.{NodeClock as Clock};
ghost use Rattle.lucy_net.specs.Schedules.{RefusesTimetable as RefusesSchedule};
ghost use Rattle.lucy_program.specs.declared.options.Options.{Options as Choices};
ghost use Rattle.lucy_program.specs.Scheduled.{IsNetOf};
ghost use Rattle.lucy_front.specs.Unscheduled.{RefusesNet};
ghost use Rattle.lucy_program.specs.Accepting.{IsClockedText, IsAccepted};

use crate::clocked::Clocked;
use crate::items::item_names;
use crate::refusal::Refusal;
use crate::streams::{inputs, outputs};
use lucy_flat::flatten;
use lucy_net::{CauseFault, Net, schedule_of};
use lucy_place::Placed;
use lucy_program::Accepted;
use std::alloc::{AllocError, Global};

// The refusal of a program whose net has no schedule.
fn refusal(alloc: Global, placed: &Placed, net: Net, fault: CauseFault) -> Refusal
    requires net { (clocks : List Clock) × IsNetOf placed.now.nodes clocks net }
    requires fault { RefusesSchedule net fault }
    ensures { (clocks : List Clock) → IsNetOf placed.now.nodes clocks net → RefusesNet placed.now.nodes clocks result }
{
    match fault {
        CauseFault::Limit(limit) => Refusal::Limit(limit),
        CauseFault::OutOfMemory => Refusal::OutOfMemory,
        CauseFault::Cycle { instant, items } => {
            let main = placed.nodes() - 1;
            match item_names(alloc, placed, main, &items) {
                Ok(names) => Refusal::Cause {
                    net,
                    names,
                    instant,
                    items,
                },
                Err(AllocError) => Refusal::OutOfMemory,
            }
        }
    }
}

/// The net of a program with clocks, its schedule, its inputs and its outputs.
pub(crate) fn scheduled(alloc: Global, program: Clocked) -> Result<Accepted, Refusal>
    requires { (ops : List Operator) × (o : Choices) × (text : List ℕ) × IsClockedText ops o text program.placed program.typed program.clocks.items }
    ensures ok { (ops : List Operator) (o : Choices) (text : List ℕ) → IsClockedText ops o text program.placed program.typed program.clocks.items → IfOk result (IsAccepted ops o text) }
    ensures refused { IfErr result (RefusesNet program.placed.nodes program.clocks.items) }
{
    let Clocked {
        placed,
        typed,
        clocks,
    } = program;
    let net = flatten(alloc, &placed, &clocks)?;
    let schedule = match schedule_of(alloc, &net) {
        Ok(schedule) => schedule,
        Err(fault) => return Err(refusal(alloc, &placed, net, fault)),
    };
    let inputs = inputs(alloc, &placed, &typed)?;
    let outputs = outputs(alloc, &placed, &typed, &clocks)?;
    Ok(Accepted {
        placed,
        typed,
        clocks,
        net,
        schedule,
        inputs,
        outputs,
    })
}
