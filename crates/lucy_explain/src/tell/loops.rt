// What helps where there are no clocks.
use crate::tell::cycle::Evidence;
use crate::tell::page::Page;
use crate::tell::place::{Scene, is_always, put_clock};
use crate::tell::row::{Row, point_of, row_at};
use lucy_need::{Need, Term};
use lucy_place::PlaceKind;
use lucy_solve::Diff;

/// What helps where a period is counted.
pub(crate) const LONGER: &str =
    "where the clocks need longer until they are regular, a greater --lead or --scale";

/// What inequalities go through.
#[derive(Clone, Copy)]
pub(crate) struct Passed {
    /// A place that reads several, and the one of them that it doesn't let wait.
    pub joined: Option<(u32, u32)>,
    /// The number of a need that keeps a bound.
    bound: Option<usize>,
    /// A clock with the number of the need by which its word is written.
    written: Option<(u32, usize)>,
    /// A place with `fby`.
    delayed: Option<u32>,
    /// Whether a period is counted.
    pub turned: bool,
    /// A clock whose items fill a period.
    filled: Option<u32>,
    /// Whether it goes through a need.
    needed: bool,
}

// Whether a place reads several places, or is the base of a call.
fn joins(scene: Scene<'_>, clock: u32) -> bool {
    if clock as usize > scene.node.places.list().len() {
        return true;
    }
    match scene.entry(clock) {
        Some(entry) => match &entry.kind {
            PlaceKind::Op(_, operands) => operands.list().len() > 1,
            PlaceKind::Host(_, _, _) => true,
            PlaceKind::Merge(_, _, _) => true,
            _ => false,
        },
        None => false,
    }
}

// Whether a place reads another.
fn reads(scene: Scene<'_>, place: u32, operand: u32) -> bool {
    let Some(entry) = scene.entry(place) else {
        let calls = scene.node.calls.list();
        let index = (place as usize).saturating_sub(scene.node.places.list().len());
        return match calls.get(index.saturating_sub(1)) {
            Some(site) => site.args.list().contains(&operand),
            None => false,
        };
    };
    for number in 0..3usize {
        if entry.kind.operand(number) == Some(operand) {
            return true;
        }
    }
    false
}

// Whether a place is an `fby`.
fn delays(scene: Scene<'_>, place: u32) -> bool {
    match scene.entry(place) {
        Some(entry) => match &entry.kind {
            PlaceKind::Fby(_, _) => true,
            _ => false,
        },
        None => false,
    }
}

// What the cycle goes through with an inequality of an equation between two terms, by which `left` waits for no one.
fn passed_equal(
    scene: Scene<'_>,
    passed: Passed,
    number: usize,
    first: &Term,
    second: &Term,
    left: u32,
    right: u32,
) -> Passed {
    let mut passed = passed;
    if second.clock == 0 && left != right && passed.written.is_none() && !is_always(&second.word) {
        passed.written = Some((first.clock, number));
    }
    if passed.joined.is_none() && joins(scene, left) && reads(scene, left, right) {
        passed.joined = Some((left, right));
    }
    if passed.delayed.is_none() && delays(scene, first.clock) {
        passed.delayed = Some(first.clock);
    }
    passed
}

// What it goes through with one inequality more.
fn passed_one(about: Evidence<'_>, passed: Passed, diff: Diff, position: u32) -> Passed {
    let mut passed = passed;
    let left = point_of(about.shape, diff.left).clock;
    let right = point_of(about.shape, diff.right).clock;
    match row_at(about.needs, about.shape, position) {
        Some(Row::Turn(clock)) => {
            passed.turned = true;
            passed.filled = Some(clock);
        }
        Some(Row::Need(number)) => {
            passed.needed = true;
            if diff.most != 0 {
                passed.turned = true;
            }
            match about.needs.list.list().get(number) {
                Some(Need::Equal(first, second)) => {
                    return passed_equal(about.scene, passed, number, first, second, left, right);
                }
                Some(Need::Adapt(_, _)) => {
                    if reads(about.scene, left, right) && passed.bound.is_none() {
                        passed.bound = Some(number);
                    }
                }
                None => {}
            }
        }
        _ => {}
    }
    passed
}

/// What inequalities go through.
pub(crate) fn passed_by(about: Evidence<'_>, cycle: &[u32]) -> Passed {
    let list = about.diffs.list();
    let mut passed = Passed {
        joined: None,
        bound: None,
        written: None,
        delayed: None,
        turned: false,
        filled: None,
        needed: false,
    };
    for position in cycle {
        if let Some(diff) = list.get(*position as usize) {
            passed = passed_one(about, passed, *diff, *position);
        }
    }
    passed
}

// Puts that a buffer helps before an operand.
fn put_buffer(page: &mut Page<'_>, scene: Scene<'_>, place: u32, operand: u32) {
    page.put(b"what helps: `buffer` before ");
    put_clock(page, scene, operand);
    page.put(b" where ");
    put_clock(page, scene, place);
    page.put(b" reads it lets its items wait for those that come with them\n")
}

/// Puts what helps against a cycle last.
pub(crate) fn put_loop_helps(page: &mut Page<'_>, scene: Scene<'_>, passed: Passed) {
    if passed.bound.is_some() {
        page.helps("a greater bound: without one the report prints the size that is needed");
    }
    if let Some(place) = passed.delayed {
        page.put(
            b"what helps: `fby` has its operand's clock, so it delays items and no instants: where ",
        );
        put_clock(page, scene, place);
        page.put(
            b" is on a loop through `when`, put `0 fby` before the `when`, on the fast side\n",
        );
    }
    if let Some((place, operand)) = passed.joined {
        put_buffer(page, scene, place, operand);
    }
    if let Some((clock, _)) = passed.written {
        page.put(b"what helps: another word for ");
        put_clock(page, scene, clock);
        page.put(b", or none\n");
    }
    if let (Some(clock), false) = (passed.filled, passed.needed) {
        put_clock(page, scene, clock);
        page.say(" would have more items in a period than it has instants\n");
        return page.helps(
            "slower clocks for what goes in: a stream has at most one item at an instant",
        );
    }
    if passed.turned {
        return page.helps(LONGER);
    }
    page.say("no other --scale or --lead helps: the lines hold of all clocks\n")
}
