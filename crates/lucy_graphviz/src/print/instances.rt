// The drawing of a whole program's net: its instances, one in another, its outputs and its rings.
ghost use Rattle.std.specs.Prelude.{◌≡◌, ◌<◌, ◌≤◌, ◌+◌, ◌-◌, ◌^◌, ◌++◌, List, ℕ, Some, length, slice_get, IfOk, OnOk};
ghost use Rattle.lucy_host.specs.Operators.{Operator};
ghost use Rattle.lucy_tree.specs.View.{program_tree};
ghost use Rattle.lucy_place.specs.declared.placed.PlacedNode.{PlacedNode as Node};
ghost use Rattle.lucy_place.specs.Standing.{at_one, most_places};
ghost use Rattle.lucy_place.specs.Proper.{AreProper};
ghost use Rattle.lucy_kahn.specs.Sizes.{size_of, all_places};
ghost use Rattle.lucy_program.specs.declared.options.Options.{Options as Choices};
ghost use Rattle.lucy_program.specs.Accepting.{IsAccepted};
ghost use Rattle.lucy_diagram.specs.Diagrams.{drawn_places};
ghost use Rattle.lucy_graphviz.specs.Nets as spec;

use crate::print::boxes::{drawn_at, put_box};
use crate::print::frames::{path_to, put_frame};
use crate::print::label::{put, put_head};
use crate::print::rings::{put_outputs, put_rings};
use lucy_diagram::{DrawnPlace, places};
use lucy_place::{CallSite, PlacedNode};
use lucy_program::Accepted;
use lucy_tree::Program;
use std::alloc::{AllocError, Global};

// Puts the box of an actor last.
fn put_actor(
    alloc: Global,
    program: &Program,
    accepted: &Accepted,
    node: u32,
    found: &PlacedNode,
    path: &[u8],
    actor: u64,
    drawn: DrawnPlace,
    out: &mut Vec<u8>,
) -> Result<(), AllocError>
    ensures { OnOk result (out.new.items ≡ out.old.items
        ++ spec.actor_text (program_tree program.now) accepted.now node found.now path.now actor drawn) }
{
    put(out, format!(in alloc; "  a{actor}")?.as_bytes())?;
    put_box(
        alloc,
        program,
        accepted,
        node,
        found,
        path,
        drawn.place,
        drawn.figure,
        out,
    )
}

// Puts the boxes of the actors of these places last, from this number on.
fn put_drawn(
    alloc: Global,
    program: &Program,
    accepted: &Accepted,
    node: u32,
    found: &PlacedNode,
    path: &[u8],
    begin: u64,
    drawn: &[DrawnPlace],
    out: &mut Vec<u8>,
) -> Result<(), AllocError>
    requires { begin + length drawn.now < 2 ^ 64 }
    ensures { OnOk result (out.new.items ≡ out.old.items
        ++ spec.numbered (spec.actor_text (program_tree program.now) accepted.now node found.now path.now) begin drawn.now) }
{
    'each: for i in 0..drawn.len() {
        let actor = begin + i as u64;
        let place = drawn_at(drawn, i);
        put_actor(
            alloc, program, accepted, node, found, path, actor, *place, out,
        )?;
    }
    Ok(())
}

// Puts the boxes of the actors of an instance's own places last, from this number on.
fn put_actors(
    alloc: Global,
    program: &Program,
    accepted: &Accepted,
    node: u32,
    found: &PlacedNode,
    path: &[u8],
    begin: u64,
    out: &mut Vec<u8>,
) -> Result<(), AllocError>
    requires places { length found.now.places ≤ most_places }
    requires few { begin + length found.now.places < 2 ^ 64 }
    ensures { OnOk result (out.new.items ≡ out.old.items
        ++ spec.numbered (spec.actor_text (program_tree program.now) accepted.now node found.now path.now) begin (drawn_places found.now)) }
{
    let list = places(alloc, found)?;
    let drawn = list.as_slice();
    put_drawn(
        alloc, program, accepted, node, found, path, begin, drawn, out,
    )?;
    Ok(())
}

// The call of a number from 0.
fn site_at(node: &PlacedNode, number: usize) -> &CallSite
    requires { number < length node.now.calls }
    ensures { at_one node.now.calls (number + 1) ≡ Some result.now }
{
    let sites = node.calls.list();
    &sites[number]
}

// Puts the boxes of an instance of a node last, from the number of its first actor on, and those of its calls' instances, each in a
// frame; answers the number of the next actor.
fn put_instance(
    alloc: Global,
    program: &Program,
    accepted: &Accepted,
    node: u32,
    path: &[u8],
    begin: u64,
    out: &mut Vec<u8>,
) -> Result<u64, AllocError>
    requires proper { AreProper accepted.now.placed.nodes }
    requires node { node < length accepted.now.placed.nodes }
    requires few { begin + size_of accepted.now.placed.nodes node < 2 ^ 64 }
    ensures text { OnOk result (out.new.items ≡ out.old.items
        ++ spec.instance_text (program_tree program.now) accepted.now node path.now begin) }
    ensures next { IfOk result (λ next. next ≡ begin + size_of accepted.now.placed.nodes node) }
{
    let found = accepted.placed.node(node);
    put_actors(alloc, program, accepted, node, found, path, begin, out)?;
    let mut next = begin + found.places.list().len() as u64;
    'each: for i in 0..found.calls.list().len() {
        let site = site_at(found, i);
        put_frame(alloc, accepted, node, found, site, i + 1, next, out)?;
        let inner = path_to(alloc, path, i + 1)?;
        let after = put_instance(alloc, program, accepted, site.node, &inner, next, out)?;
        put(out, b"  }\n")?;
        next = after;
    }
    Ok(next)
}

// Puts the drawing of the net last whose main is this node.
fn put_main(
    alloc: Global,
    program: &Program,
    accepted: &Accepted,
    main: u32,
    name: &[u8],
    out: &mut Vec<u8>,
) -> Result<(), AllocError>
    requires proper { AreProper accepted.now.placed.nodes }
    requires some { 0 < length accepted.now.placed.nodes }
    requires main { main ≡ length accepted.now.placed.nodes - 1 }
    requires few { all_places accepted.now.placed.nodes + length accepted.now.outputs.items < 2 ^ 64 }
    ensures { OnOk result (out.new.items ≡ out.old.items
        ++ spec.net_text (program_tree program.now) accepted.now name.now) }
{
    put_head(name, out)?;
    let next = put_instance(alloc, program, accepted, main, b"", 0, out)?;
    put_outputs(alloc, &accepted.outputs, next, out)?;
    put_rings(alloc, &accepted.net, out)?;
    put(out, b"}\n")?;
    Ok(())
}

/// Puts the drawing of a whole program's net last.
pub(crate) fn put_program(
    alloc: Global,
    program: &Program,
    accepted: &Accepted,
    out: &mut Vec<u8>,
) -> Result<(), AllocError>
    requires { (ops : List Operator) × (o : Choices) × (text : List ℕ) × IsAccepted ops o text accepted.now }
    ensures { (n : Node) → slice_get accepted.now.placed.nodes (length accepted.now.placed.nodes - 1) ≡ Some n → OnOk result (out.new.items ≡ out.old.items
        ++ spec.net_text (program_tree program.now) accepted.now n.name.text) }
{
    let main = accepted.placed.nodes() - 1;
    let found = accepted.placed.node(main);
    put_main(alloc, program, accepted, main, found.name.text.bytes(), out)?;
    Ok(())
}
