// How places are named in print.
ghost use Rattle.std.specs.Prelude.{◌≡◌, ◌≤◌, ◌∷◌, ◌++◌, [], IfOk, OnOk};
ghost use Rattle.std.specs.List.{range_with_len};
ghost use Rattle.std.specs.Fmt.{decimal};
ghost use Rattle.std.specs.Option.{option_map};
ghost use Rattle.lucy_place.specs.Standing.{most_places};
ghost use Rattle.lucy_program.specs.Names as spec;

use lucy_place::PlacedNode;
use lucy_text::Text;
use lucy_tree::Name;
use std::alloc::{AllocError, Global};

/// Puts these bytes last.
pub fn bytes(bytes: &[u8], out: &mut Vec<u8>) -> Result<(), AllocError>
    ensures { OnOk result (out.new.items ≡ out.old.items ++ bytes.now) }
{
    out.extend_from_slice(bytes)?;
    Ok(())
}

/// Puts a number last, in decimal.
pub fn number(alloc: Global, number: u64, out: &mut Vec<u8>) -> Result<(), AllocError>
    ensures { OnOk result (out.new.items ≡ out.old.items ++ decimal number) }
{
    bytes(format!(in alloc; "{number}")?.as_bytes(), out)
}

// The name of a place, where it has one.
fn name_at(node: &PlacedNode, place: u32) -> Option<&Name>
    ensures { option_map (λ name. name.now) result ≡ spec.name_at node.now place }
{
    let entry = node.places.list().get(place.checked_sub(1)? as usize)?;
    entry.name.as_ref()
}

/// A place: its name, else `#` and its number.
pub fn place_name(alloc: Global, node: &PlacedNode, place: u32) -> Result<Text, AllocError>
    ensures { IfOk result (λ text. text ≡ spec.place_name node.now place) }
{
    match name_at(node, place) {
        Some(name) => Ok(Text::new(alloc, name.text.bytes())?),
        None => Ok(Text::new(alloc, format!(in alloc; "#{place}")?.as_bytes())?),
    }
}

/// Places in order.
pub fn place_names(
    alloc: Global,
    node: &PlacedNode,
    places: &[u32],
) -> Result<Vec<Text>, AllocError>
    ensures { IfOk result (λ v. v.items ≡ spec.place_names node.now places.now) }
{
    let mut names = Vec::new(alloc);
    'each: for place in places {
        names.push(place_name(alloc, node, *place)?)?;
    }
    Ok(names)
}

// Names parted by `, `.
fn listed(names: &[Text], out: &mut Vec<u8>) -> Result<(), AllocError>
    ensures { OnOk result (out.new.items ≡ out.old.items ++ spec.listed names.now) }
{
    let Some((first, more)) = names.split_first() else {
        return Ok(());
    };
    bytes(first.bytes(), out)?;
    'more: for name in more {
        bytes(b", ", out)?;
        bytes(name.bytes(), out)?;
    }
    Ok(())
}

/// The places of this many parameters.
pub fn param_places(alloc: Global, params: u32) -> Result<Vec<u32>, AllocError>
    requires { params ≤ most_places }
    ensures { IfOk result (λ v. v.items ≡ range_with_len 1 params) }
{
    Ok((1..params + 1).collect(alloc)?)
}

/// Puts the first line of a node last: `node NAME (PARAMS) = (RESULTS)`.
pub fn node_line(alloc: Global, node: &PlacedNode, out: &mut Vec<u8>) -> Result<(), AllocError>
    requires { node.now.params ≤ most_places }
    ensures { OnOk result (out.new.items ≡ out.old.items ++ spec.node_line node.now) }
{
    let params = place_names(alloc, node, &param_places(alloc, node.params)?)?;
    let results = place_names(alloc, node, node.results.list())?;
    bytes(b"node ", out)?;
    bytes(node.name.text.bytes(), out)?;
    bytes(b" (", out)?;
    listed(&params, out)?;
    bytes(b") = (", out)?;
    listed(&results, out)?;
    bytes(b")\n", out)
}
