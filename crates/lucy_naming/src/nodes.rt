// The places of a node whose names are good.
ghost use Rattle.std.specs.Prelude.{◌≡◌, ◌+◌, ◌^◌, ◌<◌, ◌≤◌, ◌++◌, length, map, IfOk, OnOk};
ghost use Rattle.std.specs.List.{AllByRecursion};
ghost use Rattle.lucy_tree.specs.View.{tree_of, node_tree, def_tree};
ghost use Rattle.lucy_tree.specs.Shaped.{IsShaped, IsShapedDef, IsShapedNode};
ghost use Rattle.lucy_place.specs.declared.entry.PlaceKind.TheVariants as kind;
ghost use Rattle.lucy_naming.specs.Streams.{streams, def_names, result_count};
ghost use Rattle.lucy_naming.specs.Phrases.{expr_phrase};
ghost use Rattle.lucy_place.specs.Standing.{most_places, buffer_places};
ghost use Rattle.lucy_naming.specs.Numbering.{node_rooms, number};
ghost use Rattle.lucy_naming.specs.Places.{stream_place, declared_entry, left_entries};
ghost use Rattle.lucy_naming.specs.Nodes.{past_def, past_defs, defined, rights, def_sites, first_next, node_entries, placed_node};
ghost use Rattle.lucy_naming.specs.Drafts.{next_of, IsSmall, Draws};
ghost use Rattle.lucy_naming.specs.Views.{known_of, text_of};

use crate::bounds::bounds;
use crate::draft::Draft;
use crate::names::Names;
use crate::numbering::expr_places;
use crate::room::result_count;
use crate::steps::{copy, stream_place};
use lucy_place::{Bounds, CallSite, Calls, Numbers, PlaceEntry, PlaceKind, PlacedNode, Places};
use lucy_text::Text;
use lucy_tree::{Decl, Def, Name, Node};
use std::alloc::{AllocError, Global};

fn copy_name(alloc: Global, name: &Name) -> Result<Name, AllocError>
    ensures { IfOk result (λ copy. copy ≡ name.now) }
{
    let text = Text::new(alloc, name.text.bytes())?;
    Ok(Name {
        text,
        span: name.span,
    })
}

// The place of a name that is declared.
fn declared_entry(alloc: Global, decl: &Decl, kind: PlaceKind) -> Result<PlaceEntry, AllocError>
    ensures { IfOk result (λ entry. entry ≡ declared_entry kind decl.now) }
{
    let name = copy_name(alloc, &decl.name)?;
    let word = copy(alloc, &decl.word)?;
    Ok(PlaceEntry {
        name: Some(name),
        holds: decl.holds,
        word,
        kind,
    })
}

// Puts the places of parameters last.
fn params(alloc: Global, decls: &[Decl], named: &mut Vec<PlaceEntry>) -> Result<(), AllocError>
    ensures { OnOk result (named.new.items ≡ named.old.items ++ map (declared_entry kind.Param) decls.now) }
{
    'each: for decl in decls {
        named.push(declared_entry(alloc, decl, PlaceKind::Param)?)?;
    }
    Ok(())
}

// Puts the places of the names on the left of a definition last, whose right side has this place.
fn lefts(
    alloc: Global,
    decls: &[Decl],
    right: u32,
    named: &mut Vec<PlaceEntry>,
) -> Result<(), AllocError>
    requires { right + length decls.now < 2 ^ 32 }
    ensures { OnOk result (named.new.items ≡ named.old.items ++ left_entries right decls.now) }
{
    let mut place = right;
    'each: for decl in decls {
        named.push(declared_entry(alloc, decl, PlaceKind::Defined(place))?)?;
        place += 1;
    }
    Ok(())
}

// Numbers the places of a definition.
fn def_places(
    alloc: Global,
    names: &Names<'_, '_>,
    def: &Def,
    named: &mut Vec<PlaceEntry>,
    draft: &mut Draft,
) -> Result<(), AllocError>
    requires few { length names.now.streams.now ≤ most_places }
    requires nodes { length names.now.nodes.now < 2 ^ 32 }
    requires lefts { length def.now.left ≤ most_places }
    requires shaped { IsShaped (tree_of def.now.right) }
    requires room { IsSmall (past_def (next_of (known_of names.now) draft.old) (def_tree def.now)) }
    ensures named { OnOk result (named.new.items ≡ named.old.items ++ left_entries (number (known_of names.now) (next_of (known_of names.now) draft.old) (expr_phrase def.now.right)) def.now.left) }
    ensures draws { OnOk result (Draws (known_of names.now) (result_count def.now.left) (expr_phrase def.now.right) draft.old draft.new) }
{
    let right = expr_places(
        alloc,
        names,
        &def.right,
        result_count(def.left.list()),
        draft,
    )?;
    lefts(alloc, def.left.list(), right, named)
}

// Numbers the places of definitions.
fn all_defs(
    alloc: Global,
    names: &Names<'_, '_>,
    defs: &[Def],
    named: &mut Vec<PlaceEntry>,
    draft: &mut Draft,
) -> Result<(), AllocError>
    requires few { length names.now.streams.now ≤ most_places }
    requires nodes { length names.now.nodes.now < 2 ^ 32 }
    requires lefts { length (def_names (map def_tree defs.now)) ≤ most_places }
    requires shaped { AllByRecursion IsShapedDef (map def_tree defs.now) }
    requires room { IsSmall (past_defs (next_of (known_of names.now) draft.old) (map def_tree defs.now)) }
    ensures named { OnOk result (named.new.items ≡ named.old.items ++ defined (known_of names.now) (next_of (known_of names.now) draft.old) (map def_tree defs.now)) }
    ensures places { OnOk result (draft.new.places.items ≡ draft.old.places.items ++ rights (known_of names.now) (next_of (known_of names.now) draft.old) (map def_tree defs.now)) }
    ensures calls { OnOk result (draft.new.calls.items ≡ draft.old.calls.items ++ def_sites (known_of names.now) (next_of (known_of names.now) draft.old) (map def_tree defs.now)) }
{
    'each: for def in defs {
        def_places(alloc, names, def, named, draft)?;
    }
    Ok(())
}

// The places of results.
fn results(alloc: Global, names: &Names<'_, '_>, list: &[Name]) -> Result<Vec<u32>, AllocError>
    requires few { length names.now.streams.now ≤ most_places }
    ensures { IfOk result (λ v. v.items ≡ map (λ r. stream_place (known_of names.now) r.text) list.now) }
{
    let mut found = Vec::new(alloc);
    'each: for name in list {
        found.push(stream_place(names, name))?;
    }
    Ok(found)
}

// The numbers of the buffers among places.
fn buffers(alloc: Global, places: &[PlaceEntry]) -> Result<Vec<u32>, AllocError>
    requires { length places.now ≤ most_places }
    ensures { IfOk result (λ v. v.items ≡ buffer_places 1 places.now) }
{
    let mut found = Vec::new(alloc);
    'each: for (i, place) in places.iter().enumerate() {
        if let PlaceKind::Buffer(_, _) = place.kind {
            found.push(i as u32 + 1)?;
        }
    }
    Ok(found)
}

// The places and the calls of a node.
fn entries(
    alloc: Global,
    names: &Names<'_, '_>,
    node: &Node,
) -> Result<(Vec<PlaceEntry>, Vec<CallSite>), AllocError>
    requires nodes { length names.now.nodes.now < 2 ^ 32 }
    requires streams { names.now.streams.now ≡ map text_of (streams (node_tree node.now)) }
    requires shaped { IsShapedNode (node_tree node.now) }
    requires room { node_rooms (node_tree node.now) ≤ most_places }
    ensures places { IfOk result (λ r. r.0.items ≡ node_entries (known_of names.now) (node_tree node.now)) }
    ensures calls { IfOk result (λ r. r.1.items ≡ def_sites (known_of names.now) (first_next (node_tree node.now)) (map def_tree node.now.defs)) }
{
    let mut places = Vec::new(alloc);
    let mut draft = Draft {
        places: Vec::new(alloc),
        buffers: 0,
        calls: Vec::new(alloc),
    };
    params(alloc, node.params.list(), &mut places)?;
    all_defs(alloc, names, node.defs.list(), &mut places, &mut draft)?;
    places.append(&mut draft.places)?;
    Ok((places, draft.calls))
}

/// The places of a node whose names are good, and which has no more places than it may have.
pub(crate) fn node_places(
    alloc: Global,
    names: &Names<'_, '_>,
    node: &Node,
) -> Result<PlacedNode, AllocError>
    requires few { length names.now.nodes.now < 2 ^ 32 }
    requires streams { names.now.streams.now ≡ map text_of (streams (node_tree node.now)) }
    requires shaped { IsShapedNode (node_tree node.now) }
    requires room { node_rooms (node_tree node.now) ≤ most_places }
    ensures { IfOk result (λ placed. placed ≡ placed_node names.now.ops.now (map node_tree names.now.above.now) (node_tree node.now)) }
{
    let (places, calls) = entries(alloc, names, node)?;
    let buffers = buffers(alloc, &places)?;
    let bounds = bounds(alloc, node.defs.list())?;
    let results = results(alloc, names, node.results.list())?;
    let name = copy_name(alloc, &node.name)?;
    let params = node.params.list().len() as u32;
    Ok(PlacedNode {
        name,
        params,
        places: Places::new(places),
        results: Numbers::new(results),
        buffers: Numbers::new(buffers),
        bounds: Bounds::new(bounds),
        calls: Calls::new(calls),
    })
}
