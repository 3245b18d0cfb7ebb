// How items go through buffers.
ghost use Rattle.std.specs.Prelude.{◌≡◌, ◌<◌, ◌∷◌, ◌++◌, [], Some, length, slice_get, IfOk, OnOk};
ghost use Rattle.lucy_svg.specs.Ones.{Follows, AllFollow};

use crate::join::Joins;
use crate::ones::{counts, ones};
use lucy_clock::Numbers64;
use lucy_picture::Fill;
use std::alloc::{AllocError, Global};

/// How items go through a buffer at the instants that are shown: those that are written and read there, in order, and how many have been
/// written, and read, up to each instant.
#[derive(Drop)]
pub struct Flow {
    pub joins: Joins,
    pub written: Numbers64,
    pub read: Numbers64,
}

// One more.
fn push(flows: &mut Vec<Flow>, flow: Flow) -> Result<(), AllocError>
    ensures { OnOk result (flows.new.items ≡ flows.old.items ++ flow ∷ []) }
{
    flows.push(flow)?;
    Ok(())
}

/// How items go through a buffer, on whichever words its marks are.
pub fn flow_of(alloc: Global, fill: &Fill) -> Result<Flow, AllocError>
    ensures { IfOk result (Follows fill.now) }
{
    let written = fill.written.list();
    let read = fill.read.list();
    let writes = ones(alloc, written)?;
    let reads = ones(alloc, read)?;
    let counts_in = counts(alloc, written)?;
    let counts_out = counts(alloc, read)?;
    Ok(Flow {
        joins: Joins::new(alloc, &writes, &reads)?,
        written: Numbers64::new(counts_in),
        read: Numbers64::new(counts_out),
    })
}

/// The buffer of a number, from 0.
pub(crate) fn fill_at(fills: &[Fill], number: usize) -> &Fill
    requires { number < length fills.now }
    ensures { slice_get fills.now number ≡ Some result.now }
{
    &fills[number]
}

/// Those of buffers, in order.
pub(crate) fn flows(alloc: Global, fills: &[Fill]) -> Result<Vec<Flow>, AllocError>
    ensures { IfOk result (λ v. AllFollow fills.now v.items) }
{
    let mut flows = Vec::new(alloc);
    'each: for i in 0..fills.len() {
        push(&mut flows, flow_of(alloc, fill_at(fills, i))?)?;
    }
    Ok(flows)
}
