// Prints the nodes of a program with the types of their places.
ghost use Rattle.std.specs.Prelude.{◌≡◌, ◌<◌, ◌≤◌, [], ◌++◌, IfOk, OnOk, length};
ghost use Rattle.lucy_place.specs.Standing.{most_places};
ghost use Rattle.lucy_types.specs.Tables.{table_at};
ghost use Rattle.lucy_types.specs.Programs.{IsTyped};
ghost use Rattle.lucy_program.specs.Report as lines;
ghost use Rattle.lucy_app.specs.Report as spec;

use lucy_place::{PlaceEntry, Placed};
use lucy_program::{node_line, type_name};
use lucy_tree::Name;
use lucy_types::{Ty, Typed};
use std::alloc::{AllocError, Global};

// `  NAME : TYPE`, for a place that has a name.
fn name_line(
    alloc: Global,
    main: bool,
    name: &Option<Name>,
    ty: Ty,
    out: &mut Vec<u8>,
) -> Result<(), AllocError>
    ensures { OnOk result (out.new.items ≡ out.old.items ++ lines.name_line main name.now ty []) }
{
    let Some(name) = name else {
        return Ok(());
    };
    out.extend_from_slice(b"  ")?;
    out.extend_from_slice(name.text.bytes())?;
    out.extend_from_slice(b" : ")?;
    type_name(alloc, main, ty, out)?;
    out.extend_from_slice(b"\n")?;
    Ok(())
}

// The lines of the places of a node.
fn name_lines(
    alloc: Global,
    main: bool,
    entries: &[PlaceEntry],
    typed: &Typed,
    node: u32,
    out: &mut Vec<u8>,
) -> Result<(), AllocError>
    requires node { node < length typed.now }
    requires few { length entries.now ≤ most_places }
    requires all { length (table_at typed.now node) ≡ length entries.now }
    ensures { OnOk result (out.new.items ≡ out.old.items ++ lines.name_lines main (λ place. []) 1 entries.now (table_at typed.now node)) }
{
    'each: for (i, entry) in entries.iter().enumerate() {
        let ty = typed.at(node, i as u32 + 1);
        name_line(alloc, main, &entry.name, ty, out)?;
    }
    Ok(())
}

/// The lines of each node, in order, of which the last is main.
pub(crate) fn report(alloc: Global, placed: &Placed, typed: &Typed) -> Result<Vec<u8>, AllocError>
    requires { IsTyped placed.now.nodes typed.now }
    ensures { IfOk result (λ v. v.items ≡ spec.type_report placed.now.nodes typed.now) }
{
    let mut out = Vec::new(alloc);
    let nodes = placed.nodes();
    'each: for number in 0..nodes {
        let node = placed.node(number);
        let main = number + 1 == nodes;
        node_line(alloc, node, &mut out)?;
        name_lines(alloc, main, node.places.list(), typed, number, &mut out)?;
    }
    Ok(out)
}
