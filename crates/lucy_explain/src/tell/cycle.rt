// A cycle of inequalities, in a few lines.
ghost use Rattle.std.specs.Prelude.{◌≡◌, length};
ghost use Rattle.lucy_shape.specs.Fitting.{variable_count};
ghost use Rattle.lucy_front.specs.Refusals.{AreBelow};

use crate::fold::{Folded, fold_evidence};
use crate::line::Line;
use crate::tell::loops::{passed_by, put_loop_helps};
use crate::tell::page::Page;
use crate::tell::place::{Scene, put_clock, put_need, put_places};
use crate::tell::row::{Point, Row, point_of, row_at};
use lucy_need::Needs;
use lucy_shape::Shape;
use lucy_solve::Diffs;
use std::alloc::AllocError;

/// What the evidence of a node without clocks is about.
#[derive(Clone, Copy)]
pub(crate) struct Evidence<'a> {
    pub scene: Scene<'a>,
    pub needs: &'a Needs,
    pub shape: &'a Shape,
    pub diffs: &'a Diffs,
}

/// Puts a position last, or the beginning.
pub(crate) fn put_point(page: &mut Page<'_>, scene: Scene<'_>, point: Point) {
    if point.position == 0 {
        return page.put(b"0");
    }
    put_clock(page, scene, point.clock);
    page.put(b"[");
    page.number(point.position);
    page.put(b"]")
}

/// Puts a number of instants last.
pub(crate) fn put_instants(page: &mut Page<'_>, count: u64) {
    page.number(count);
    page.say(if count == 1 { " instant" } else { " instants" })
}

// Puts how two positions of a stream stand to each other.
fn put_distance(page: &mut Page<'_>, most: i64, left: Point, right: Point) {
    if most < 0 {
        put_instants(page, most.unsigned_abs());
        return page.put(b" apart");
    }
    if most == 0 && left.position == right.position {
        return page.put(b"at one instant");
    }
    if most == 0 {
        return page.put(b"no later");
    }
    page.put(b"at most ");
    put_instants(page, most.unsigned_abs());
    page.put(b" later")
}

// Puts the line of several inequalities of one stream last.
fn put_several(page: &mut Page<'_>, about: Evidence<'_>, line: Line, left: Point, right: Point) {
    page.put(b"  ");
    put_point(page, about.scene, left);
    page.put(b" .. ");
    put_point(page, about.scene, right);
    page.put(b": ");
    put_distance(page, line.most, left, right);
    if left.clock == right.clock {
        page.put(b", since items of one stream follow each other");
    } else if line.most == 0 {
        page.put(b", since they have one clock");
    } else {
        page.put(b", since they have one clock, and items of one stream follow each other");
    }
    page.put(b" (");
    page.number(line.count as u64);
    page.put(b" lines)\n")
}

// Puts why an inequality holds last.
fn put_why(page: &mut Page<'_>, about: Evidence<'_>, row: Option<Row>) {
    match row {
        Some(Row::Start(0)) => page.put(b"the base has an item at each instant"),
        Some(Row::Start(_)) => page.put(b"the first instant is 1"),
        Some(Row::Follow(_)) => page.put(b"items of one stream follow each other"),
        Some(Row::Turn(_)) => {
            page.put(b"all comes again after ");
            put_instants(page, about.shape.period)
        }
        Some(Row::Need(number)) => match about.needs.list.list().get(number) {
            Some(need) => put_need(page, about.scene, need),
            None => {}
        },
        None => {}
    }
}

// Puts the line of one inequality last.
fn put_single(
    page: &mut Page<'_>,
    about: Evidence<'_>,
    line: Line,
    position: u32,
    left: Point,
    right: Point,
) {
    page.put(b"  ");
    put_point(page, about.scene, left);
    page.put(b" <= ");
    put_point(page, about.scene, right);
    page.say(if line.most < 0 { " - " } else { " + " });
    page.number(line.most.unsigned_abs());
    page.put(b": ");
    put_why(page, about, row_at(about.needs, about.shape, position));
    page.put(b"\n")
}

// Keeps the clock of a position.
fn name_point(page: &mut Page<'_>, point: Point) {
    if point.position > 0 {
        page.name(point.clock);
    }
}

/// Puts folded lines last, which name their clocks.
pub(crate) fn put_lines(page: &mut Page<'_>, about: Evidence<'_>, told: &Folded) {
    let mut at = 0usize;
    for line in &told.lines {
        let left = point_of(about.shape, line.left);
        let right = point_of(about.shape, line.right);
        if line.count == 1 {
            let position = told.cycle.get(at).copied().unwrap_or(0);
            put_single(page, about, *line, position, left, right);
        } else {
            put_several(page, about, *line, left, right);
        }
        name_point(page, left);
        name_point(page, right);
        at = at.saturating_add(line.count);
    }
}

// Puts what the lines say together.
fn put_sum(page: &mut Page<'_>, about: Evidence<'_>, told: &Folded) {
    let mut sum = 0i64;
    for line in &told.lines {
        sum = sum.saturating_add(line.most);
    }
    let Some(first) = told.lines.first() else {
        return;
    };
    let start = point_of(about.shape, first.left);
    page.put(b"  so ");
    if start.position == 0 {
        page.put(b"the beginning");
    } else {
        put_point(page, about.scene, start);
    }
    page.put(b" would come ");
    put_instants(page, sum.unsigned_abs());
    page.put(b" before itself\n")
}

// Puts a folded cycle last.
fn put_folded(page: &mut Page<'_>, about: Evidence<'_>, told: &Folded) {
    put_lines(page, about, told);
    put_sum(page, about, told);
    let passed = passed_by(about, &told.cycle);
    if let Some((place, operand)) = passed.joined {
        page.name(place);
        page.name(operand);
    }
    put_places(page, about.scene);
    put_loop_helps(page, about.scene, passed);
}

/// Puts a cycle of inequalities last: its lines, folded, what they say together, where their clocks stand, and what helps.
pub(crate) fn put_cycle(
    page: &mut Page<'_>,
    about: Evidence<'_>,
    cycle: &[u32],
) -> Result<(), AllocError>
    requires clocks { length about.shape.now.clocks ≡ about.needs.now.clocks }
    requires variables { about.diffs.now.count ≡ variable_count about.shape.now.clocks }
    requires there { AreBelow (length about.diffs.now.list) cycle.now }
{
    let told = fold_evidence(page.alloc, about.needs, about.shape, about.diffs, cycle)?;
    put_folded(page, about, &told);
    Ok(())
}
