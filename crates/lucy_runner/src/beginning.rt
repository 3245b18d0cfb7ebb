// Actors that have done nothing.
ghost use Rattle.std.specs.Prelude.{◌≡◌, ◌≤◌, [], All, length, vec_capacity, IfOk};
ghost use Rattle.lucy_word.specs.Limits.{limit_number};
ghost use Rattle.lucy_word.specs.declared.limit.Limit.TheVariants as limit;
ghost use Rattle.lucy_net.specs.States.{IsUsable, ReadsInput};
ghost use Rattle.lucy_worker.specs.News.{HasRoom};
ghost use Rattle.lucy_runner.specs.Making.{IsFirstPart, AreFirstParts};

use lucy_host::Inputs;
use lucy_net::{Actor, ActorKind, first_state};
use lucy_worker::Part;
use std::alloc::{AllocError, Global};

// The list of an input, an empty one where there is none.
fn input_of(alloc: Global, inputs: &Inputs, kind: &ActorKind) -> Result<Vec<i64>, AllocError>
    ensures { IfOk result (λ list. ReadsInput kind.now inputs.now list.items) }
{
    match kind {
        ActorKind::Input(input) => Ok(inputs.get(*input).to_vec(alloc)?),
        _ => Ok(Vec::new(alloc)),
    }
}

// An empty list, with room for an output that fires so often.
fn output_of(alloc: Global, kind: &ActorKind, quota: u64) -> Result<Vec<i64>, AllocError>
    ensures empty { IfOk result (λ list. list.items ≡ []) }
    ensures room { IfOk result (λ list. HasRoom kind.now quota 0 (vec_capacity list)) }
{
    match kind {
        ActorKind::Output(_) => Ok(Vec::with_capacity(alloc, quota as usize)?),
        _ => Ok(Vec::new(alloc)),
    }
}

// The part of an actor, without ends.
fn first_part(
    alloc: Global,
    number: u32,
    actor: &Actor,
    inputs: &Inputs,
    instants: u64,
) -> Result<Part, AllocError>
    requires usable { IsUsable actor.now }
    ensures { IfOk result (λ part. IsFirstPart inputs.now instants number actor.now part) }
{
    let state = first_state(actor, instants);
    let input = input_of(alloc, inputs, &actor.kind)?;
    let output = output_of(alloc, &actor.kind, state.quota)?;
    let actor = actor.copy(alloc)?;
    Ok(Part {
        number,
        actor,
        state,
        input,
        output,
        givers: Vec::new(alloc),
        takers: Vec::new(alloc),
    })
}

/// The parts of all actors, in order and without ends.
pub(crate) fn first_parts(
    alloc: Global,
    actors: &[Actor],
    inputs: &Inputs,
    instants: u64,
) -> Result<Vec<Part>, AllocError>
    requires few { length actors.now ≤ limit_number limit.Actors }
    requires usable { All IsUsable actors.now }
    ensures { IfOk result (λ parts. AreFirstParts inputs.now instants actors.now parts.items) }
{
    let mut parts = Vec::new(alloc);
    for (number, actor) in actors.iter().enumerate() {
        let part = first_part(alloc, number as u32, actor, inputs, instants)?;
        parts.push(part)?;
    }
    Ok(parts)
}
