// A cycle of inequalities, told in a few lines.
ghost use Rattle.std.specs.Prelude.{ℕ, List, ◌≡◌, ◌<◌, ◌≤◌, ◌++◌, length, take, drop, IfOk};
ghost use Rattle.std.specs.List.{All};
ghost use Rattle.lucy_shape.specs.Fitting.{variable_count};
ghost use Rattle.lucy_front.specs.Refusals.{AreBelow};
ghost use Rattle.lucy_explain.specs.Folds.{Fold};
ghost use Rattle.lucy_explain.specs.Streams as spec;
ghost use Rattle.lucy_explain.specs.Streams.{AreStreams};
ghost use Rattle.lucy_explain.specs.Folded.{IsTurned, AreOfOneStream, AreLongest, IsFolded};

use crate::line::{Line, line_of};
use crate::streams::clock_streams;
use crate::variables::variable_streams;
use lucy_need::Needs;
use lucy_shape::Shape;
use lucy_solve::{Diff, Diffs};
use std::alloc::{AllocError, Global};

/// A cycle of inequalities, begun where a line begins, and the lines that stand for it in order.
#[derive(Drop)]
pub struct Folded {
    pub cycle: Vec<u32>,
    pub lines: Vec<Line>,
}

// The circle, begun at another place.
fn turned(alloc: Global, cycle: &[u32], start: usize) -> Result<Vec<u32>, AllocError>
    requires { start ≤ length cycle.now }
    ensures { IfOk result (λ v. v.items ≡ drop start cycle.now ++ take start cycle.now) }
{
    let mut turned = cycle[start..].to_vec(alloc)?;
    turned.extend_from_slice(&cycle[..start])?;
    Ok(turned)
}

// The same positions.
fn copied(alloc: Global, positions: &[u32]) -> Result<Vec<u32>, AllocError>
    ensures { IfOk result (λ v. v.items ≡ positions.now) }
{
    let copy = positions.to_vec(alloc)?;
    Ok(copy)
}

// What stands behind so many positions.
fn behind(positions: &[u32], count: usize) -> &[u32]
    requires { count ≤ length positions.now }
    ensures { result.now ≡ drop count positions.now }
{
    &positions[count..]
}

/// The lines that stand for the inequalities at these positions, in order: each for one, or for as many of one stream as follow one
/// another. A variable's stream is given by its number.
pub(crate) fn lines_of(
    alloc: Global,
    diffs: &Diffs,
    streams: &[u32],
    positions: &[u32],
) -> Result<Vec<Line>, AllocError>
    requires there { All (λ p. p < length diffs.now.list) positions.now }
    requires streams { length streams.now ≡ diffs.now.count }
    ensures fold { IfOk result (λ v. Fold diffs.now.list positions.now v.items) }
    ensures stream { IfOk result (λ v. AreOfOneStream streams.now diffs.now.list positions.now v.items) }
    ensures longest { IfOk result (λ v. AreLongest streams.now diffs.now.list positions.now v.items) }
{
    let mut lines = Vec::new(alloc);
    let mut rest = positions;
    'each: while !rest.is_empty() {
        let line = line_of(diffs, streams, rest);
        let next = behind(rest, line.count);
        lines.push(line)?;
        rest = next;
    }
    Ok(lines)
}

// Whether an inequality may be told together with others: both of its variables are of one stream, and it doesn't go back in time.
fn is_within(streams: &[u32], diff: Diff) -> bool {
    diff.most <= 0 && streams.get(diff.left as usize) == streams.get(diff.right as usize)
}

// Whether the last inequality of a circle is told alone.
fn is_last_between(diffs: &Diffs, streams: &[u32], cycle: &[u32]) -> bool {
    let Some(last) = cycle.last() else {
        return false;
    };
    match diffs.list().get(*last as usize) {
        Some(diff) => !is_within(streams, *diff),
        None => false,
    }
}

// A place in the circle at which a line begins that belongs to the line before it at no place: behind an inequality between two streams,
// and of these the one from the least variable, so that the telling begins where the program does.
fn start_of(diffs: &Diffs, streams: &[u32], cycle: &[u32]) -> usize
    ensures { result ≤ length cycle.now }
{
    let list = diffs.list();
    let mut found = 0;
    let mut least = u32::MAX;
    let mut parted = is_last_between(diffs, streams, cycle);
    'each: for (k, position) in cycle.iter().enumerate() {
        if let Some(diff) = list.get(*position as usize) {
            if parted && diff.left < least {
                found = k;
                least = diff.left;
            }
            parted = !is_within(streams, *diff);
        }
    }
    found
}

// A cycle of inequalities, folded. A variable's stream is given by its number.
fn fold_cycle(
    alloc: Global,
    diffs: &Diffs,
    streams: &[u32],
    cycle: &[u32],
) -> Result<Folded, AllocError>
    requires there { AreBelow (length diffs.now.list) cycle.now }
    requires streams { length streams.now ≡ diffs.now.count }
    ensures turned { IfOk result (λ f. IsTurned cycle.now f.cycle.items) }
    ensures fold { IfOk result (λ f. Fold diffs.now.list f.cycle.items f.lines.items) }
    ensures stream { IfOk result (λ f. AreOfOneStream streams.now diffs.now.list f.cycle.items f.lines.items) }
    ensures longest { IfOk result (λ f. AreLongest streams.now diffs.now.list f.cycle.items f.lines.items) }
{
    let start = start_of(diffs, streams, cycle);
    let cycle = turned(alloc, cycle, start)?;
    let lines = lines_of(alloc, diffs, streams, &cycle)?;
    Ok(Folded { cycle, lines })
}

// The streams of the variables of a shape.
fn streams_of(
    alloc: Global,
    needs: &Needs,
    shape: &Shape,
    count: u32,
) -> Result<Vec<u32>, AllocError>
    requires clocks { length shape.now.clocks ≡ needs.now.clocks }
    requires variables { count ≡ variable_count shape.now.clocks }
    ensures are { IfOk result (λ v. (streams : List ℕ) × AreStreams needs.now.list needs.now.clocks streams ×
        (v.items ≡ spec.variable_streams needs.now.clocks streams shape.now.clocks)) }
    ensures all { IfOk result (λ v. length v.items ≡ count) }
{
    let clocks = clock_streams(alloc, needs)?;
    let shapes = shape.clocks.list();
    let found = variable_streams(alloc, needs.clocks, &clocks, shapes, count)?;
    Ok(found)
}

/// The cycle of inequalities that shows that needs have no clocks in a shape, folded.
pub fn fold_evidence(
    alloc: Global,
    needs: &Needs,
    shape: &Shape,
    diffs: &Diffs,
    cycle: &[u32],
) -> Result<Folded, AllocError>
    requires clocks { length shape.now.clocks ≡ needs.now.clocks }
    requires variables { diffs.now.count ≡ variable_count shape.now.clocks }
    requires there { AreBelow (length diffs.now.list) cycle.now }
    ensures { IfOk result (IsFolded needs.now shape.now diffs.now cycle.now) }
{
    let streams = streams_of(alloc, needs, shape, diffs.count())?;
    let told = fold_cycle(alloc, diffs, &streams, cycle)?;
    Ok(told)
}

/// Inequalities of needs in a shape that follow one another, folded: as a cycle, but begun where they begin.
pub fn fold_chain(
    alloc: Global,
    needs: &Needs,
    shape: &Shape,
    diffs: &Diffs,
    chain: &[u32],
) -> Result<Folded, AllocError>
    requires clocks { length shape.now.clocks ≡ needs.now.clocks }
    requires variables { diffs.now.count ≡ variable_count shape.now.clocks }
    requires there { AreBelow (length diffs.now.list) chain.now }
    ensures folded { IfOk result (IsFolded needs.now shape.now diffs.now chain.now) }
    ensures same { IfOk result (λ f. f.cycle.items ≡ chain.now) }
{
    let streams = streams_of(alloc, needs, shape, diffs.count())?;
    let lines = lines_of(alloc, diffs, &streams, chain)?;
    let cycle = copied(alloc, chain)?;
    Ok(Folded { cycle, lines })
}
