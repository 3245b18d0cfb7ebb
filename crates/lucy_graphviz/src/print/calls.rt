// The cluster of a call.
ghost use Rattle.std.specs.Prelude.{◌≡◌, ◌<◌, ◌+◌, ◌^◌, ◌++◌, ℕ, Some, length, flat_map, slice_get, codes, IfOk, OnOk};
ghost use Rattle.std.specs.Fmt.{decimal};
ghost use Rattle.lucy_tree.specs.View.{program_tree};
ghost use Rattle.lucy_diagram.specs.declared.call.DrawnCall.{DrawnCall as Drawn};
ghost use Rattle.lucy_diagram.specs.Labels.{node_name};
ghost use Rattle.lucy_graphviz.specs.Graphs as spec;

use crate::print::boxes::put_box;
use crate::print::label::{label_at, put, put_label};
use lucy_diagram::{DrawnCall, Figure, put_name};
use lucy_place::PlacedNode;
use lucy_program::Accepted;
use lucy_text::Text;
use lucy_tree::Program;
use std::alloc::{AllocError, Global};

// The word of a call's base, behind `at`.
fn base_of(alloc: Global, labels: &[Text], call: &DrawnCall) -> Result<Vec<u8>, AllocError>
    ensures { IfOk result (λ v. v.items ≡ codes "at " ++ spec.label_at labels.now call.now.base) }
{
    let mut label = Vec::new(alloc);
    put(&mut label, b"at ")?;
    put(&mut label, label_at(labels, call.base))?;
    Ok(label)
}

// Puts the first lines of the cluster of a call last.
fn put_frame(
    alloc: Global,
    labels: &[Text],
    call: &DrawnCall,
    out: &mut Vec<u8>,
) -> Result<(), AllocError>
    ensures { OnOk result (out.new.items ≡ out.old.items ++ spec.frame_text labels.now call.now) }
{
    let number = call.number;
    let label = base_of(alloc, labels, call)?;
    let begin = format!(in alloc; "  subgraph cluster_{number} {{\n    ")?;
    put(out, begin.as_bytes())?;
    put_label(&label, out)?;
    put(out, b";\n")?;
    Ok(())
}

// The node of a call, behind the call's number.
fn called(alloc: Global, accepted: &Accepted, call: &DrawnCall) -> Result<Vec<u8>, AllocError>
    ensures { IfOk result (λ v. v.items
        ≡ codes "call " ++ (decimal call.now.number ++ (codes ": " ++ node_name accepted.now.placed.nodes call.now.node))) }
{
    let number = call.number;
    let mut label = Vec::new(alloc);
    put(&mut label, format!(in alloc; "call {number}: ")?.as_bytes())?;
    put_name(&accepted.placed, call.node, &mut label)?;
    Ok(label)
}

// Puts the box of the node that a call calls last.
fn put_callee(
    alloc: Global,
    accepted: &Accepted,
    call: &DrawnCall,
    out: &mut Vec<u8>,
) -> Result<(), AllocError>
    ensures { OnOk result (out.new.items ≡ out.old.items ++ spec.callee_text accepted.now.placed.nodes call.now) }
{
    let number = call.number;
    let label = called(alloc, accepted, call)?;
    put(out, format!(in alloc; "    c{number} [")?.as_bytes())?;
    put_label(&label, out)?;
    put(out, b"];\n")
}

// Puts the box of a result of a call last, and the line to it.
fn put_result(
    alloc: Global,
    program: &Program,
    accepted: &Accepted,
    node: u32,
    found: &PlacedNode,
    number: u32,
    place: u32,
    out: &mut Vec<u8>,
) -> Result<(), AllocError>
    ensures { OnOk result (out.new.items ≡ out.old.items
        ++ spec.result_text (program_tree program.now) accepted.now node found.now number place) }
{
    let figure = Figure::CallResult;
    put(out, format!(in alloc; "    p{place}")?.as_bytes())?;
    put_box(
        alloc, program, accepted, node, found, b"", place, figure, out,
    )?;
    let line = format!(in alloc; "    c{number} -> p{place} [arrowhead=none];\n")?;
    put(out, line.as_bytes())?;
    Ok(())
}

// Puts those of all results of a call.
fn put_results(
    alloc: Global,
    program: &Program,
    accepted: &Accepted,
    node: u32,
    found: &PlacedNode,
    call: &DrawnCall,
    out: &mut Vec<u8>,
) -> Result<(), AllocError>
    requires { call.now.first + call.now.results < 2 ^ 32 }
    ensures { OnOk result (out.new.items ≡ out.old.items
        ++ spec.results_text (program_tree program.now) accepted.now node found.now call.now) }
{
    'each: for place in call.first..call.first + call.results {
        put_result(
            alloc,
            program,
            accepted,
            node,
            found,
            call.number,
            place,
            out,
        )?;
    }
    Ok(())
}

// Puts the cluster of a call last, with the boxes of its results.
fn put_call(
    alloc: Global,
    program: &Program,
    accepted: &Accepted,
    node: u32,
    found: &PlacedNode,
    labels: &[Text],
    call: &DrawnCall,
    out: &mut Vec<u8>,
) -> Result<(), AllocError>
    requires { call.now.first + call.now.results < 2 ^ 32 }
    ensures { OnOk result (out.new.items ≡ out.old.items
        ++ spec.call_text (program_tree program.now) accepted.now node found.now labels.now call.now) }
{
    put_frame(alloc, labels, call, out)?;
    put_callee(alloc, accepted, call, out)?;
    put_results(alloc, program, accepted, node, found, call, out)?;
    put(out, b"  }\n")?;
    Ok(())
}

// The call of a number from 0, of those that are drawn.
fn drawn_at(calls: &[DrawnCall], number: usize) -> &DrawnCall
    requires { number < length calls.now }
    ensures { slice_get calls.now number ≡ Some result.now }
{
    &calls[number]
}

/// Puts the clusters of calls last, in order.
pub(crate) fn put_calls(
    alloc: Global,
    program: &Program,
    accepted: &Accepted,
    node: u32,
    found: &PlacedNode,
    labels: &[Text],
    calls: &[DrawnCall],
    out: &mut Vec<u8>,
) -> Result<(), AllocError>
    requires { (i : ℕ) (call : Drawn) → slice_get calls.now i ≡ Some call → call.first + call.results < 2 ^ 32 }
    ensures { OnOk result (out.new.items ≡ out.old.items
        ++ flat_map (spec.call_text (program_tree program.now) accepted.now node found.now labels.now) calls.now) }
{
    'each: for i in 0..calls.len() {
        put_call(
            alloc,
            program,
            accepted,
            node,
            found,
            labels,
            drawn_at(calls, i),
            out,
        )?;
    }
    Ok(())
}
