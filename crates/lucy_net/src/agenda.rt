// Which actors fire when.
ghost use Rattle.std.specs.Prelude.{ℕ, ◌≡◌, ◌+◌, ◌<◌, ◌≤◌, ◌↔◌, List, [], ◌∷◌, ◌++◌, length, slice_set, slice_index_or, IsTrue, IfOk};
ghost use Rattle.lucy_word.specs.Bits.{ones_to};
ghost use Rattle.lucy_word.specs.Index.{IsIndex};
ghost use Rattle.lucy_net.specs.Proper.{IsProper};
ghost use Rattle.lucy_word.specs.Limits.{limit_number};
ghost use Rattle.lucy_net.specs.Faults.{rows_of, AreFirings};
ghost use Rattle.lucy_net.specs.Agenda.{AreEntered};

use crate::net::{Actor, Net};
use lucy_word::Limit;
use std::alloc::{AllocError, Global};

// Whether the firings of the actor have ring operations.
fn has_rings(actor: &Actor) -> bool
    ensures { IsTrue result ↔ (0 < length actor.now.takes + length actor.now.gives) }
{
    !actor.takes.list().is_empty() || !actor.gives.list().is_empty()
}

// A number more at the end of a row.
fn push_at(rows: &mut [Vec<u32>], row: usize, number: u32) -> Result<(), AllocError>
    requires { row < length rows.old }
    ensures { IfOk result (λ _. rows_of rows.new ≡ slice_set (rows_of rows.old) row (slice_index_or (rows_of rows.old) row [] ++ number ∷ [])) }
{
    rows[row].push(number)?;
    Ok(())
}

// The instant of the actor's firing of this number, from 1, which is among the first instants.
fn instant_of(actor: &Actor, firing: u64, instants: u64) -> u64
    requires some { 1 ≤ firing }
    requires among { firing ≤ ones_to actor.now.firing instants }
    requires early { instants ≤ limit_number Limit.Schedule }
    ensures { IsIndex actor.now.firing firing result }
{
    match actor.firing.index(firing) {
        Some(instant) => instant,
        None => instants,
    }
}

// Enters an actor at each of the instants at which it fires.
fn enter(rows: &mut [Vec<u32>], actor: &Actor, number: u32) -> Result<(), AllocError>
    requires early { length rows.old ≤ limit_number Limit.Schedule }
    ensures { IfOk result (λ _. AreEntered actor.now number (ones_to actor.now.firing (length rows.old)) (rows_of rows.old) (rows_of rows.new)) }
{
    let instants = rows.len() as u64;
    for before in 0..actor.firing.ones(instants) {
        let instant = instant_of(actor, before + 1, instants);
        push_at(rows, (instant - 1) as usize, number)?;
    }
    Ok(())
}

// Enters all actors that have rings.
fn enter_all(rows: &mut [Vec<u32>], net: &Net) -> Result<(), AllocError>
    requires proper { IsProper net.now }
    requires early { length rows.old ≤ limit_number Limit.Schedule }
    requires empty { (t : ℕ) → slice_index_or (rows_of rows.old) t [] ≡ [] }
    ensures { IfOk result (λ _. AreFirings net.now (rows_of rows.new)) }
{
    for (number, actor) in net.actors.list().iter().enumerate() {
        if has_rings(actor) {
            enter(rows, actor, number as u32)?;
        }
    }
    Ok(())
}

/// For each of the first instants the actors that have ring operations in it, in order. It is linear in their firings.
pub(crate) fn agenda_of(
    alloc: Global,
    net: &Net,
    instants: u64,
) -> Result<Vec<Vec<u32>>, AllocError>
    requires proper { IsProper net.now }
    requires early { instants ≤ limit_number Limit.Schedule }
    ensures rows { IfOk result (λ rows. AreFirings net.now (rows_of rows.items)) }
    ensures count { IfOk result (λ rows. length rows.items ≡ instants) }
{
    let mut agenda = Vec::with_capacity(alloc, instants as usize)?;
    for row in 0..instants {
        agenda.push(Vec::new(alloc))?;
    }
    enter_all(&mut agenda, net)?;
    Ok(agenda)
}
