// The line of a buffer: its number, its size and its bound, as in the report.
ghost use Rattle.std.specs.Prelude.{◌≡◌, ◌++◌, slice_get, codes, OnOk};
ghost use Rattle.std.specs.Fmt.{decimal};
ghost use Rattle.lucy_place.specs.Standing.{at_one, bound_of};
ghost use Rattle.lucy_flat.specs.Instances.{sizes_in};
ghost use Rattle.lucy_program.specs.Names.{of_one};
ghost use Rattle.lucy_graphviz.specs.Labels.{buffer_part};
ghost use Rattle.lucy_graphviz.specs.Graphs.{buffer_text};

use crate::print::label::put;
use lucy_diagram::entry_at;
use lucy_place::{PlaceKind, PlacedNode};
use lucy_program::Accepted;
use std::alloc::{AllocError, Global};

// The sizes of the buffers of the node of a number.
fn sizes_at(accepted: &Accepted, node: u32) -> &[u64]
    ensures { result.now ≡ sizes_in (slice_get accepted.now.clocks.items node) }
{
    match accepted.clocks.get(node as usize) {
        Some(clock) => clock.sizes.list(),
        None => &[],
    }
}

// The size of the buffer of a number.
fn size_of(sizes: &[u64], buffer: u32) -> Option<u64>
    ensures { result ≡ at_one sizes.now buffer }
{
    sizes.get(buffer.checked_sub(1)? as usize).copied()
}

// Its bound, where one is written.
fn bound_of(node: &PlacedNode, buffer: u32) -> Option<u64>
    ensures { result ≡ bound_of node.now buffer }
{
    *node.bounds.list().get(buffer.checked_sub(1)? as usize)?
}

// Puts a number last behind a text, where there is one.
fn put_number(
    alloc: Global,
    before: &str,
    number: Option<u64>,
    out: &mut Vec<u8>,
) -> Result<(), AllocError>
    ensures { OnOk result (out.new.items ≡ out.old.items ++ of_one (λ n. before.now ++ decimal n) number) }
{
    match number {
        None => Ok(()),
        Some(number) => put(out, format!(in alloc; "{before}{number}")?.as_bytes()),
    }
}

// Puts the number, the size and the bound of a buffer last.
fn put_buffer(
    alloc: Global,
    node: &PlacedNode,
    sizes: &[u64],
    number: u32,
    out: &mut Vec<u8>,
) -> Result<(), AllocError>
    ensures { OnOk result (out.new.items ≡ out.old.items
        ++ (codes "\nbuffer " ++ (decimal number ++ (of_one (λ size. codes " size " ++ decimal size) (at_one sizes.now number)
        ++ of_one (λ most. codes " at most " ++ decimal most) (bound_of node.now number))))) }
{
    put(out, format!(in alloc; "\nbuffer {number}")?.as_bytes())?;
    put_number(alloc, " size ", size_of(sizes, number), out)?;
    put_number(alloc, " at most ", bound_of(node, number), out)
}

// Puts the same last where this is a buffer, and nothing of any other place.
fn put_part(
    alloc: Global,
    node: &PlacedNode,
    sizes: &[u64],
    kind: &PlaceKind,
    out: &mut Vec<u8>,
) -> Result<(), AllocError>
    ensures { OnOk result (out.new.items ≡ out.old.items ++ buffer_part node.now sizes.now kind.now) }
{
    match kind {
        PlaceKind::Param => Ok(()),
        PlaceKind::Defined(_) => Ok(()),
        PlaceKind::Lit(_) => Ok(()),
        PlaceKind::Op(_, _) => Ok(()),
        PlaceKind::Host(_, _, _) => Ok(()),
        PlaceKind::When(_, _) => Ok(()),
        PlaceKind::Merge(_, _, _) => Ok(()),
        PlaceKind::Fby(_, _) => Ok(()),
        PlaceKind::Buffer(number, _) => put_buffer(alloc, node, sizes, *number, out),
        PlaceKind::Result(_, _) => Ok(()),
    }
}

/// Puts the line of the buffer at a place of a node last, by the numbers of the node, from 0, and of its own, from 1.
pub(crate) fn put_size(
    alloc: Global,
    accepted: &Accepted,
    node: u32,
    found: &PlacedNode,
    place: u32,
    out: &mut Vec<u8>,
) -> Result<(), AllocError>
    ensures { OnOk result (out.new.items ≡ out.old.items ++ buffer_text accepted.now.clocks.items node found.now place) }
{
    match entry_at(found, place) {
        Some(entry) => put_part(alloc, found, sizes_at(accepted, node), &entry.kind, out),
        None => Ok(()),
    }
}
