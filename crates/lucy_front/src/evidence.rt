// The texts of what shows that no clocks are inferred for a node.
ghost use Rattle.std.specs.Prelude.{◌≡◌, ◌+◌, ◌^◌, ◌<◌, ◌++◌, Some, codes, length, map, slice_get, IfOk, OnOk};
ghost use Rattle.std.specs.Fmt.{decimal};
ghost use Rattle.std.specs.List.{range_with_len};
ghost use Rattle.lucy_place.specs.declared.placed.PlacedNode.{PlacedNode as Node};
ghost use Rattle.lucy_clock.specs.Clocks.{clocks_of};
ghost use Rattle.lucy_shape.specs.Fitting.{position_count, variable_count};
ghost use Rattle.lucy_front.specs.Needs.{clock_name};
ghost use Rattle.lucy_front.specs.Refusals.{AreBelow};
ghost use Rattle.lucy_front.specs.Evidence as spec;

use crate::clocking::push;
use crate::terms::{clock_name, need_text};
use lucy_need::Need;
use lucy_place::PlacedNode;
use lucy_program::{Accepted, bytes, number};
use lucy_shape::{ClockShape, Shape};
use lucy_solve::{Diff, Diffs};
use lucy_text::Text;
use std::alloc::{AllocError, Global};

// Puts the needs of these numbers last, each on a line of its own.
fn walk_lines(
    alloc: Global,
    node: &PlacedNode,
    needs: &[Need],
    walk: &[u32],
    lines: &mut Vec<u8>,
) -> Result<(), AllocError>
    requires { AreBelow (length needs.now) walk.now }
    ensures { OnOk result (lines.new.items ≡ lines.old.items ++ spec.walk_lines node.now needs.now walk.now) }
{
    'each: for need in walk {
        bytes(b"  ", lines)?;
        need_text(alloc, node, &needs[*need as usize], lines)?;
        bytes(b"\n", lines)?;
    }
    Ok(())
}

/// The lines of a node whose rates don't agree along this walk.
pub(crate) fn unequal_lines(
    alloc: Global,
    node: &PlacedNode,
    needs: &[Need],
    walk: &[u32],
) -> Result<Vec<u8>, AllocError>
    requires { AreBelow (length needs.now) walk.now }
    ensures { IfOk result (λ v. v.items ≡ codes "lucy: rates: node "
        ++ (node.now.name.text ++ (codes "\n" ++ spec.walk_lines node.now needs.now walk.now))) }
{
    let mut lines = Vec::new(alloc);
    bytes(b"lucy: rates: node ", &mut lines)?;
    bytes(node.name.text.bytes(), &mut lines)?;
    bytes(b"\n", &mut lines)?;
    walk_lines(alloc, node, needs, walk, &mut lines)?;
    Ok(lines)
}

// A position of a clock.
fn position_name(alloc: Global, clock: &[u8], position: u64) -> Result<Text, AllocError>
    ensures { IfOk result (λ text. text ≡ clock.now ++ (codes "[" ++ (decimal position ++ codes "]"))) }
{
    let mut name = Vec::new(alloc);
    bytes(clock, &mut name)?;
    bytes(b"[", &mut name)?;
    number(alloc, position, &mut name)?;
    bytes(b"]", &mut name)?;
    Ok(Text::new(alloc, &name)?)
}

// Puts the names of the first positions of a clock last.
fn put_positions(
    alloc: Global,
    clock: &[u8],
    count: u64,
    names: &mut Vec<Text>,
) -> Result<(), AllocError>
    requires { count + 1 < 2 ^ 64 }
    ensures { OnOk result (names.new.items ≡ names.old.items ++ map (λ m. clock.now ++ (codes "[" ++ (decimal m ++ codes "]"))) (range_with_len 1 count)) }
{
    'each: for position in 1..count + 1 {
        push(names, position_name(alloc, clock, position)?)?;
    }
    Ok(())
}

// Puts the names of the positions of a clock in this shape last, of which one that isn't used has none.
fn put_clock(
    alloc: Global,
    node: &PlacedNode,
    clock: u32,
    shape: &ClockShape,
    names: &mut Vec<Text>,
) -> Result<(), AllocError>
    requires { position_count shape.now + 1 < 2 ^ 64 }
    ensures { OnOk result (names.new.items ≡ names.old.items
        ++ map (λ m. clock_name node.now clock ++ (codes "[" ++ (decimal m ++ codes "]"))) (range_with_len 1 (position_count shape.now))) }
{
    if !shape.used {
        return Ok(());
    }
    let name = clock_name(alloc, node, clock)?;
    put_positions(alloc, name.bytes(), shape.lead + shape.ones, names)
}

// The variables of inequalities by their numbers, so many of them: the origin, and the positions of the clocks.
fn variable_names(
    alloc: Global,
    node: &PlacedNode,
    clocks: u32,
    shapes: &[ClockShape],
    count: u32,
) -> Result<Vec<Text>, AllocError>
    requires clocks { length shapes.now ≡ clocks }
    requires count { count ≡ variable_count shapes.now }
    ensures { IfOk result (λ v. v.items ≡ spec.variable_names node.now shapes.now) }
{
    let mut names = Vec::with_capacity(alloc, count as usize)?;
    push(&mut names, Text::new(alloc, b"0")?)?;
    'each: for clock in 0..clocks {
        put_clock(alloc, node, clock, &shapes[clock as usize], &mut names)?;
    }
    Ok(names)
}

// Puts a constant last, behind a variable.
fn put_most(alloc: Global, most: i64, line: &mut Vec<u8>) -> Result<(), AllocError>
    ensures { OnOk result (line.new.items ≡ line.old.items ++ spec.most_text most) }
{
    bytes(if most < 0 { b" - " } else { b" + " }, line)?;
    number(alloc, most.unsigned_abs(), line)
}

// Puts the inequality last, on a line of its own.
fn diff_line(
    alloc: Global,
    names: &[Text],
    diff: &Diff,
    lines: &mut Vec<u8>,
) -> Result<(), AllocError>
    requires left { diff.now.left < length names.now }
    requires right { diff.now.right < length names.now }
    ensures { OnOk result (lines.new.items ≡ lines.old.items ++ spec.diff_line names.now diff.now) }
{
    bytes(b"  ", lines)?;
    bytes(names[diff.left as usize].bytes(), lines)?;
    bytes(b" <= ", lines)?;
    bytes(names[diff.right as usize].bytes(), lines)?;
    put_most(alloc, diff.most, lines)?;
    bytes(b"\n", lines)
}

// Puts the inequalities at these positions last, each on a line of its own.
fn cycle_lines(
    alloc: Global,
    names: &[Text],
    diffs: &Diffs,
    cycle: &[u32],
    lines: &mut Vec<u8>,
) -> Result<(), AllocError>
    requires names { length names.now ≡ diffs.now.count }
    requires there { AreBelow (length diffs.now.list) cycle.now }
    ensures { OnOk result (lines.new.items ≡ lines.old.items ++ spec.cycle_lines names.now diffs.now.list cycle.now) }
{
    let list = diffs.list();
    'each: for diff in cycle {
        diff_line(alloc, names, &list[*diff as usize], lines)?;
    }
    Ok(())
}

// Puts the inequalities of a cycle last, between the positions of so many clocks of a node in a shape.
fn put_cycle(
    alloc: Global,
    node: &PlacedNode,
    clocks: u32,
    shape: &Shape,
    diffs: &Diffs,
    cycle: &[u32],
    lines: &mut Vec<u8>,
) -> Result<(), AllocError>
    requires clocks { length shape.now.clocks ≡ clocks }
    requires variables { diffs.now.count ≡ variable_count shape.now.clocks }
    requires there { AreBelow (length diffs.now.list) cycle.now }
    ensures { OnOk result (lines.new.items ≡ lines.old.items ++ spec.cycle_lines (spec.variable_names node.now shape.now.clocks) diffs.now.list cycle.now) }
{
    let names = variable_names(alloc, node, clocks, shape.clocks.list(), diffs.count())?;
    cycle_lines(alloc, &names, diffs, cycle, lines)
}

/// The lines of a node of so many clocks that has none in a shape, as this cycle of inequalities shows.
pub(crate) fn unclocked_lines(
    alloc: Global,
    node: &PlacedNode,
    clocks: u32,
    shape: &Shape,
    diffs: &Diffs,
    cycle: &[u32],
) -> Result<Vec<u8>, AllocError>
    requires clocks { length shape.now.clocks ≡ clocks }
    requires variables { diffs.now.count ≡ variable_count shape.now.clocks }
    requires there { AreBelow (length diffs.now.list) cycle.now }
    ensures { IfOk result (λ v. v.items ≡ codes "lucy: clocks: node "
        ++ (node.now.name.text ++ (codes ": no clocks of period " ++ (decimal shape.now.period
        ++ (codes "\n" ++ spec.cycle_lines (spec.variable_names node.now shape.now.clocks) diffs.now.list cycle.now))))) }
{
    let mut lines = Vec::new(alloc);
    bytes(b"lucy: clocks: node ", &mut lines)?;
    bytes(node.name.text.bytes(), &mut lines)?;
    bytes(b": no clocks of period ", &mut lines)?;
    number(alloc, shape.period, &mut lines)?;
    bytes(b"\n", &mut lines)?;
    put_cycle(alloc, node, clocks, shape, diffs, cycle, &mut lines)?;
    Ok(lines)
}

/// The inequalities of a cycle, one a line behind two blanks, between the positions of the clocks of a node, by number from 0, in
/// a shape of its needs.
pub fn cycle_text(
    alloc: Global,
    accepted: &Accepted,
    node: u32,
    shape: &Shape,
    diffs: &Diffs,
    cycle: &[u32],
) -> Result<Vec<u8>, AllocError>
    requires node { node < length accepted.now.placed.nodes }
    requires clocks { (n : Node) → slice_get accepted.now.placed.nodes node ≡ Some n → length shape.now.clocks ≡ clocks_of n }
    requires variables { diffs.now.count ≡ variable_count shape.now.clocks }
    requires there { AreBelow (length diffs.now.list) cycle.now }
    ensures { (n : Node) → slice_get accepted.now.placed.nodes node ≡ Some n →
        IfOk result (λ v. v.items ≡ spec.cycle_lines (spec.variable_names n shape.now.clocks) diffs.now.list cycle.now) }
{
    let mut lines = Vec::new(alloc);
    let node = accepted.placed.node(node);
    let clocks = shape.clocks.list().len() as u32;
    put_cycle(alloc, node, clocks, shape, diffs, cycle, &mut lines)?;
    Ok(lines)
}
