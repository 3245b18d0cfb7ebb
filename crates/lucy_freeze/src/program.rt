// Whether a program is another one with its clocks written out.
ghost use Rattle.std.specs.Prelude.{◌<◌, IfOk, IsTrue, length};
ghost use Rattle.lucy_freeze.specs.Frozen.{IsFrozenAt, AreFrozen};

use crate::find::images_of;
use crate::node::is_frozen_node;
use crate::same::Both;
use lucy_clock::NodeClock;
use lucy_place::Placed;
use std::alloc::{AllocError, Global};

// Whether the nodes of a number are one node.
fn is_frozen_at(
    alloc: Global,
    placed: &Placed,
    clocks: &[NodeClock],
    frozen: &Placed,
    frozen_clocks: &[NodeClock],
    node: u32,
) -> Result<bool, AllocError>
    requires node { node < length placed.now.nodes }
    requires frozen { node < length frozen.now.nodes }
    ensures { IfOk result (λ same. IsTrue same → IsFrozenAt placed.now.nodes clocks.now frozen.now.nodes frozen_clocks.now node) }
{
    let Some(clock) = clocks.get(node as usize) else {
        return Ok(false);
    };
    let Some(frozen_clock) = frozen_clocks.get(node as usize) else {
        return Ok(false);
    };
    let both = Both {
        node: placed.node(node),
        clock,
        frozen: frozen.node(node),
        frozen_clock,
    };
    let images = images_of(alloc, both.node, both.frozen)?;
    Ok(is_frozen_node(&images, both))
}

/// Whether a program is another one with its clocks written out, each with its clocks node by node.
pub(crate) fn is_frozen(
    alloc: Global,
    placed: &Placed,
    clocks: &[NodeClock],
    frozen: &Placed,
    frozen_clocks: &[NodeClock],
) -> Result<bool, AllocError>
    ensures { IfOk result (λ same. IsTrue same → AreFrozen placed.now.nodes clocks.now frozen.now.nodes frozen_clocks.now) }
{
    let nodes = placed.nodes();
    if frozen.nodes() != nodes {
        return Ok(false);
    }
    'each: for node in 0..nodes {
        if !is_frozen_at(alloc, placed, clocks, frozen, frozen_clocks, node)? {
            return Ok(false);
        }
    }
    Ok(true)
}
