// One instant after another.
ghost use Rattle.std.specs.Prelude.{ℕ, ◌≡◌, ◌≤◌, [], length, IfOk, IfErr};
ghost use Rattle.lucy_net.specs.Proper.{IsProper};
ghost use Rattle.lucy_word.specs.Limits.{limit_number};
ghost use Rattle.lucy_net.specs.Play.{CanBeginInstant};
ghost use Rattle.lucy_net.specs.Faults.{rows_of, AreFirings, AreOrders, StopsAt};

use crate::cycle::items_in_turn;
use crate::error::CauseFault;
use crate::instant::play_instant;
use crate::net::Net;
use crate::settle::Wait;
use lucy_word::Limit;
use std::alloc::Global;

// Plays the instants of an agenda, from a state in which nothing is done.
fn play_rows(
    alloc: Global,
    net: &Net,
    agenda: &[Vec<u32>],
    steps: &mut [u32],
    held: &mut [u64],
    depth: &mut [u32],
    waits: &mut Vec<Wait>,
) -> Result<Vec<Vec<u32>>, CauseFault>
    requires proper { IsProper net.now }
    requires few { length agenda.now ≤ limit_number Limit.Schedule }
    requires agenda { AreFirings net.now (rows_of agenda.now) }
    requires ready { CanBeginInstant net.now 0 steps.old held.old depth.old }
    requires none { waits.old.items ≡ [] }
    ensures ok { IfOk result (λ orders. AreOrders net.now (rows_of orders.items)) }
    ensures all { IfOk result (λ orders. length orders.items ≡ length agenda.now) }
    ensures refused { IfErr result (StopsAt net.now (length agenda.now)) }
{
    let mut orders = Vec::new(alloc);
    for (before, firing) in agenda.iter().enumerate() {
        let mut order = Vec::new(alloc);
        let settled = play_instant(
            net,
            before as u64,
            firing,
            steps,
            held,
            depth,
            &mut order,
            waits,
        )?;
        if let Some(place) = settled {
            let instant = before as u64 + 1;
            let items = items_in_turn(alloc, net, instant, waits, place)?;
            return Err(CauseFault::Cycle { instant, items });
        }
        orders.push(order)?;
    }
    Ok(orders)
}

/// The events of the instants of an agenda in a possible order, or the first instant at which actors wait for each other.
pub(crate) fn play_all(
    alloc: Global,
    net: &Net,
    agenda: &[Vec<u32>],
) -> Result<Vec<Vec<u32>>, CauseFault>
    requires proper { IsProper net.now }
    requires few { length agenda.now ≤ limit_number Limit.Schedule }
    requires agenda { AreFirings net.now (rows_of agenda.now) }
    ensures ok { IfOk result (λ orders. AreOrders net.now (rows_of orders.items)) }
    ensures all { IfOk result (λ orders. length orders.items ≡ length agenda.now) }
    ensures refused { IfErr result (StopsAt net.now (length agenda.now)) }
{
    let actors = net.actors.list().len();
    let mut steps: Vec<u32> = vec![in alloc; 0; actors]?;
    let mut held: Vec<u64> = vec![in alloc; 0; net.rings.list().len()]?;
    let mut depth: Vec<u32> = vec![in alloc; 0; actors]?;
    let mut waits = Vec::new(alloc);
    play_rows(
        alloc, net, agenda, &mut steps, &mut held, &mut depth, &mut waits,
    )
}
