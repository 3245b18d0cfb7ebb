// Where the outputs of a net are.
ghost use Rattle.std.specs.Prelude.{ℕ, ◌≡◌, ◌^◌, ◌<◌, Some, length, slice_get, IfOk};
ghost use Rattle.lucy_net.specs.declared.kind.ActorKind.TheVariants.{Output};
ghost use Rattle.lucy_net.specs.declared.net.Actor.{Actor};
ghost use Rattle.lucy_runner.specs.Standing.{AreOutputs};

use lucy_net::{Actor, ActorKind};
use std::alloc::{AllocError, Global};

// How many numbers there are up to that of the last output.
fn output_count(actors: &[Actor]) -> usize
    ensures { (a n : ℕ) (actor : Actor) → slice_get actors.now a ≡ Some actor → actor.kind ≡ Output n → n < result }
{
    let mut count = 0;
    for actor in actors {
        if let ActorKind::Output(output) = &actor.kind {
            count = count.max(*output as usize + 1);
        }
    }
    count
}

/// The actor of each output, in order of the outputs' numbers.
pub(crate) fn outputs_of(alloc: Global, actors: &[Actor]) -> Result<Vec<u32>, AllocError>
    requires few { length actors.now < 2 ^ 32 }
    requires apart { (a b n : ℕ) (x y : Actor) → slice_get actors.now a ≡ Some x → slice_get actors.now b ≡ Some y → x.kind ≡ Output n → y.kind ≡ Output n → a ≡ b }
    ensures { IfOk result (λ outputs. AreOutputs actors.now outputs.items) }
{
    let mut outputs = vec![in alloc; 0u32; output_count(actors)]?;
    for (a, actor) in actors.iter().enumerate() {
        if let ActorKind::Output(output) = &actor.kind {
            outputs[*output as usize] = a as u32;
        }
    }
    Ok(outputs)
}
