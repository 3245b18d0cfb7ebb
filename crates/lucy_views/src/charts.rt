// The command `time`: the chronograms of the nodes of a program.
ghost use Rattle.std.specs.Prelude.{List, ℕ, ◌<◌, [], true, false, Some, Ok, length, IfOk, IfErr, OnOk};
ghost use Rattle.std.specs.Option.{option_map};
ghost use Rattle.lucy_host.specs.Operators.{Operator};
ghost use Rattle.lucy_program.specs.declared.options.Options.{Options as Choices};
ghost use Rattle.lucy_program.specs.Accepting.{IsAccepted};
ghost use Rattle.lucy_asking.specs.declared.ask.Picture.TheVariants as picture;
ghost use Rattle.lucy_asking.specs.Asks.{AreFactors};
ghost use Rattle.lucy_views.specs.Shown.{PutsTime, PutsTimes, IsTimeSvg};
ghost use Rattle.lucy_views.specs.Owes.{OwesTime, OwesPicture};
ghost use Rattle.lucy_views.specs.Failures.{ComesOut, Tellable, unread};

use crate::failure::Failure;
use crate::missing::Missing;
use crate::program::{accepted, node_asked};
use lucy_asking::TimeWords;
use lucy_host::Ops;
use lucy_picture::{chart_of, put_time, turn_of};
use lucy_program::Accepted;
use lucy_svg::{drawing_of, put_time_svg, shown_of};
use std::alloc::{AllocError, Global};

// Puts the chronogram of a node last.
fn put_chart(
    alloc: Global,
    accepted: &Accepted,
    node: u32,
    instants: Option<u64>,
    out: &mut Vec<u8>,
) -> Result<(), AllocError>
    requires accepted { (ops : List Operator) × (o : Choices) × (text : List ℕ) × IsAccepted ops o text accepted.now }
    requires node { node < length accepted.now.placed.nodes }
    ensures { OnOk result (PutsTime accepted.now instants node out.old.items out.new.items) }
{
    let turn = turn_of(alloc, accepted, node)?;
    let shown = shown_of(turn, instants);
    let chart = chart_of(alloc, accepted, node, shown)?;
    put_time(alloc, accepted, node, turn, shown, &chart, out)
}

// The chronogram of a node.
fn chart(
    alloc: Global,
    accepted: &Accepted,
    node: u32,
    instants: Option<u64>,
) -> Result<Vec<u8>, AllocError>
    requires accepted { (ops : List Operator) × (o : Choices) × (text : List ℕ) × IsAccepted ops o text accepted.now }
    requires node { node < length accepted.now.placed.nodes }
    ensures { IfOk result (λ v. PutsTime accepted.now instants node [] v.items) }
{
    let mut out = Vec::new(alloc);
    put_chart(alloc, accepted, node, instants, &mut out)?;
    Ok(out)
}

// Those of all nodes, in order.
fn charts_of(
    alloc: Global,
    accepted: &Accepted,
    instants: Option<u64>,
) -> Result<Vec<u8>, AllocError>
    requires { (ops : List Operator) × (o : Choices) × (text : List ℕ) × IsAccepted ops o text accepted.now }
    ensures { IfOk result (λ v. PutsTimes accepted.now instants 0 accepted.now.placed.nodes [] v.items) }
{
    let mut out = Vec::new(alloc);
    'each: for node in 0..accepted.placed.nodes() {
        put_chart(alloc, accepted, node, instants, &mut out)?;
    }
    Ok(out)
}

// The chronogram of a node as SVG.
fn drawn(
    alloc: Global,
    accepted: &Accepted,
    node: u32,
    instants: Option<u64>,
) -> Result<Vec<u8>, AllocError>
    requires accepted { (ops : List Operator) × (o : Choices) × (text : List ℕ) × IsAccepted ops o text accepted.now }
    requires node { node < length accepted.now.placed.nodes }
    ensures { IfOk result (λ v. IsTimeSvg accepted.now instants node v.items) }
{
    let turn = turn_of(alloc, accepted, node)?;
    let shown = shown_of(turn, instants);
    let drawing = drawing_of(alloc, accepted, node, shown)?;
    let mut out = Vec::new(alloc);
    put_time_svg(alloc, accepted, node, turn, shown, &drawing, &mut out)?;
    Ok(out)
}

// What is printed of the node that is asked for, as SVG.
fn svg_of(
    alloc: Global,
    accepted: &Accepted,
    name: Option<&str>,
    instants: Option<u64>,
) -> Result<Vec<u8>, Failure>
    requires { (ops : List Operator) × (o : Choices) × (text : List ℕ) × IsAccepted ops o text accepted.now }
    ensures outcome { ComesOut (OwesTime true (option_map (λ s. s.now) name.entry) instants accepted.now) result }
    ensures told { IfErr result Tellable }
{
    let Some(node) = node_asked(&accepted.placed, name) else {
        return Err(Failure::Lacks(Missing::Node));
    };
    Ok(drawn(alloc, accepted, node, instants)?)
}

// What is printed of the node of a name.
fn chart_named(
    alloc: Global,
    accepted: &Accepted,
    name: &str,
    instants: Option<u64>,
) -> Result<Vec<u8>, Failure>
    requires { (ops : List Operator) × (o : Choices) × (text : List ℕ) × IsAccepted ops o text accepted.now }
    ensures outcome { ComesOut (OwesTime false (Some name.now) instants accepted.now) result }
    ensures told { IfErr result Tellable }
{
    let Some(node) = node_asked(&accepted.placed, Some(name)) else {
        return Err(Failure::Lacks(Missing::Node));
    };
    Ok(chart(alloc, accepted, node, instants)?)
}

// What is printed of the node that is asked for, or of all nodes.
fn text_of(
    alloc: Global,
    accepted: &Accepted,
    name: Option<&str>,
    instants: Option<u64>,
) -> Result<Vec<u8>, Failure>
    requires { (ops : List Operator) × (o : Choices) × (text : List ℕ) × IsAccepted ops o text accepted.now }
    ensures outcome { ComesOut (OwesTime false (option_map (λ s. s.now) name.entry) instants accepted.now) result }
    ensures told { IfErr result Tellable }
{
    match name {
        Some(name) => chart_named(alloc, accepted, name, instants),
        None => Ok(charts_of(alloc, accepted, instants)?),
    }
}

// What is printed of a program.
fn timed(alloc: Global, accepted: &Accepted, words: TimeWords<'_>) -> Result<Vec<u8>, Failure>
    requires { (ops : List Operator) × (o : Choices) × (text : List ℕ) × IsAccepted ops o text accepted.now }
    ensures outcome { ComesOut
        (OwesTime words.entry.svg (option_map (λ s. s.now) words.entry.node) words.entry.instants accepted.now) result }
    ensures told { IfErr result Tellable }
{
    if words.svg {
        return svg_of(alloc, accepted, words.node, words.instants);
    }
    text_of(alloc, accepted, words.node, words.instants)
}

/// What `time` prints of a text, or why it prints nothing.
pub(crate) fn charts(
    alloc: Global,
    words: TimeWords<'_>,
    ops: &Ops,
    text: &[u8],
) -> Result<Vec<u8>, Failure>
    requires { AreFactors words.program }
    ensures outcome { ComesOut (OwesPicture (picture.Time words.entry) (unread ops.now (Ok text.now))) result }
    ensures told { IfErr result Tellable }
{
    match accepted(alloc, words.program, ops, text) {
        Ok(accepted) => timed(alloc, &accepted, words),
        Err(failure) => Err(failure),
    }
}
