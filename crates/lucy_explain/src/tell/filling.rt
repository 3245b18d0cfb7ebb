// Why a buffer is as full as it is.
ghost use Rattle.std.specs.Prelude.{ℕ, List, ◌<◌, length};
ghost use Rattle.lucy_host.specs.Operators.{Operator};
ghost use Rattle.lucy_shape.specs.Fitting.{IsShapeFor};
ghost use Rattle.lucy_program.specs.declared.options.Options.{Options as Choices};
ghost use Rattle.lucy_program.specs.Accepting.{IsAccepted};
ghost use Rattle.lucy_program.specs.Inferring.{AreOptions};
ghost use Rattle.lucy_explain.specs.Chains.{IsReasonFor};

use crate::fold::fold_chain;
use crate::reason::{Reason, reason_for};
use crate::shaping::{Shaped, shape_node};
use crate::tell::cycle::{Evidence, put_instants, put_lines, put_point};
use crate::tell::loops::{LONGER, passed_by};
use crate::tell::page::Page;
use crate::tell::place::{Scene, put_clock, put_places};
use crate::tell::row::point_of;
use crate::tell::sizes::put_all_sizes;
use crate::tell::{scene_of, tree_of};
use crate::waits::{first_full, waits_of};
use lucy_clock::NodeClock;
use lucy_need::Needs;
use lucy_place::PlaceEntry;
use lucy_program::{Accepted, Options, first_operand};
use lucy_shape::Shape;
use lucy_tree::Span;
use lucy_word::{Limit, Word, gcd};
use std::alloc::{AllocError, Global};

/// A buffer: its number, the place that it reads and its own, the words of both, and its printed size.
#[derive(Clone, Copy)]
struct Held<'a> {
    buffer: u32,
    from: u32,
    to: u32,
    write: &'a Word,
    read: &'a Word,
    size: u64,
}

/// An item of a clock, by its number from 1: the variable at which inequalities have it, and how many periods it comes behind this one.
#[derive(Clone, Copy)]
struct FoldedItem {
    number: u64,
    variable: u32,
    turns: u64,
}

// A buffer, where the clocks of its node have the words of both places and its size.
fn held_with<'a>(clocks: &'a NodeClock, buffer: u32, from: u32, to: u32) -> Option<Held<'a>> {
    let words = clocks.words.list();
    let (Some(write), Some(read), Some(size)) = (
        words.get(from as usize),
        words.get(to as usize),
        clocks.sizes.list().get((buffer as usize).saturating_sub(1)),
    ) else {
        return None;
    };
    Some(Held {
        buffer,
        from,
        to,
        write,
        read,
        size: *size,
    })
}

// A buffer of a node, by its number from 1.
fn held_of<'a>(
    scene: Scene<'_>,
    accepted: &'a Accepted,
    node: u32,
    buffer: u32,
) -> Option<Held<'a>> {
    let index = buffer.checked_sub(1)? as usize;
    let to = scene.node.buffers.list().get(index).copied()?;
    let from = first_operand(scene.node, to)?;
    let clocks = accepted.clocks.get(node as usize)?;
    held_with(clocks, buffer, from, to)
}

// Puts the first lines of a buffer last: its words and its size, and where it stands.
fn put_head(page: &mut Page<'_>, scene: Scene<'_>, held: Held<'_>) {
    page.say("buffer ");
    page.number(u64::from(held.buffer));
    page.say(" of ");
    page.put(scene.node.name.text.bytes());
    page.say(" : ");
    page.word(held.write);
    page.say(" <: ");
    page.word(held.read);
    page.say(" size ");
    page.number(held.size);
    page.say("\n");
    if let Some(span) = scene.span(held.to) {
        page.show_span(span);
    }
}

// Up to which instant the prefixes of two words go, and where their common period ends behind it, where that is soon enough to be told.
fn turn_of(write: &Word, read: &Word) -> Option<(u64, u64)> {
    let (one, first) = write.lengths();
    let (two, second) = read.lengths();
    let shared = gcd(first, second).max(1);
    let prefix = one.max(two);
    let end = prefix.checked_add((first / shared).checked_mul(second)?)?;
    if end <= Limit::Schedule.number() {
        Some((prefix, end))
    } else {
        None
    }
}

// Puts when a buffer is fullest first last, and answers the first item that waits then.
fn put_fullest(page: &mut Page<'_>, held: Held<'_>, end: u64) -> Option<u64> {
    let Some(instant) = first_full(held.write, held.read, held.size, end) else {
        page.say("nothing ever waits in it\n");
        return None;
    };
    let first = held.read.ones(instant).saturating_add(1);
    page.say("fullest first at instant ");
    page.number(instant);
    if held.size == 1 {
        page.say(": item ");
        page.number(first);
        page.say(" waits\n");
    } else {
        page.say(": items ");
        page.number(first);
        page.say(" to ");
        page.number(held.write.ones(instant));
        page.say(" wait\n");
    }
    Some(first)
}

// The sum of the numbers from a place on, and how many they are.
fn sum_from(numbers: &[u64], from: usize) -> (u64, u64) {
    let mut sum = 0u64;
    let mut count = 0u64;
    for number in numbers.iter().skip(from) {
        sum = sum.saturating_add(*number);
        count = count.saturating_add(1);
    }
    (sum, count)
}

// Puts how long items wait last: at most, and in the mean over the period that begins behind so many items.
fn put_waits(page: &mut Page<'_>, waits: &[u64], before: u64) {
    let (sum, count) = sum_from(waits, before as usize);
    let tenths = sum.saturating_mul(10).checked_div(count).unwrap_or(0);
    page.say("an item waits at most ");
    put_instants(page, waits.iter().copied().max().unwrap_or(0));
    page.say(", and over a period ");
    page.number(tenths / 10);
    page.say(".");
    page.number(tenths % 10);
    page.say(" in the mean: ");
    page.number(sum);
    page.say(" for ");
    page.number(count);
    page.say(if count == 1 { " item\n" } else { " items\n" });
}

// Puts what its words say of a buffer last, and answers its first item that waits when it is fullest first.
fn put_words(page: &mut Page<'_>, held: Held<'_>) -> Result<Option<u64>, AllocError> {
    let Some((prefix, end)) = turn_of(held.write, held.read) else {
        page.say("its words come again too late to tell when it is fullest\n");
        return Ok(None);
    };
    let first = put_fullest(page, held, end);
    let waits = waits_of(page.alloc, held.write, held.read, held.write.ones(end))?;
    put_waits(page, &waits, held.write.ones(prefix));
    Ok(first)
}

// The item of a number of a clock, as inequalities have it.
fn folded_item(shape: &Shape, clock: u32, number: u64) -> Option<FoldedItem> {
    let found = shape.clocks.list().get(clock as usize)?;
    let past = number.saturating_sub(found.lead.saturating_add(1));
    let turns = past.checked_div(found.ones)?;
    let folded = number.checked_sub(turns.checked_mul(found.ones)?)?;
    let variable = u64::from(found.first).checked_add(folded)?.checked_sub(1)?;
    Some(FoldedItem {
        number,
        variable: u32::try_from(variable).ok()?,
        turns,
    })
}

// Puts the end of a chain last: the position to which it leads, and the item periods behind it.
fn put_end(
    page: &mut Page<'_>,
    about: Evidence<'_>,
    held: Held<'_>,
    item: FoldedItem,
    instant: u64,
) {
    page.say("  so ");
    put_point(page, about.scene, point_of(about.shape, item.variable));
    page.say(" is at instant ");
    page.number(instant);
    page.say(" or later");
    if item.turns > 0 {
        page.say(", and ");
        put_clock(page, about.scene, held.to);
        page.say("[");
        page.number(item.number);
        page.say("], ");
        put_instants(page, item.turns.saturating_mul(about.shape.period));
        page.say(" behind it, at ");
        page.number(
            item.turns
                .saturating_mul(about.shape.period)
                .saturating_add(instant),
        );
        page.say(" or later");
    }
    page.say("\n");
}

// Puts the chain last by which an item is read no earlier.
fn put_chain(
    page: &mut Page<'_>,
    scene: Scene<'_>,
    needs: &Needs,
    shape: &Shape,
    held: Held<'_>,
    item: FoldedItem,
    reason: &Reason,
) -> Result<(), AllocError>
    requires shape { IsShapeFor needs.now shape.now }
    requires reason { IsReasonFor needs.now shape.now reason.now }
{
    let told = fold_chain(page.alloc, needs, shape, &reason.diffs, &reason.chain)?;
    let about = Evidence {
        scene,
        needs,
        shape,
        diffs: &reason.diffs,
    };
    page.say("no clocks of this shape read item ");
    page.number(item.number);
    page.say(" earlier:\n");
    put_lines(page, about, &told);
    put_end(page, about, held, item, reason.instant.unsigned_abs());
    put_places(page, scene);
    if passed_by(about, &told.cycle).turned {
        page.helps(LONGER);
    }
    Ok(())
}

// Puts why an item is read as late as it is last.
fn put_late(
    page: &mut Page<'_>,
    scene: Scene<'_>,
    shaped: &Shaped,
    held: Held<'_>,
    number: u64,
) -> Result<(), AllocError>
    requires { IsShapeFor shaped.now.needs shaped.now.shape }
{
    let Some(item) = folded_item(&shaped.shape, held.to, number) else {
        return Ok(());
    };
    match reason_for(page.alloc, &shaped.needs, &shaped.shape, item.variable)? {
        Some(reason) => put_chain(
            page,
            scene,
            &shaped.needs,
            &shaped.shape,
            held,
            item,
            &reason,
        ),
        None => Ok(()),
    }
}

// Whether a parameter of a node has no word.
fn has_open_input(scene: Scene<'_>) -> bool {
    for place in 1..scene.node.params.saturating_add(1) {
        if let Some(PlaceEntry { word: None, .. }) = scene.entry(place) {
            return true;
        }
    }
    false
}

// Puts what helps against a full buffer last.
fn put_filling_helps(page: &mut Page<'_>, scene: Scene<'_>, held: Held<'_>) {
    if has_open_input(scene) {
        page.helps(
            "the word of each input of the node: items of one that has none come as early as they can",
        );
    }
    page.say("what helps: `lucy tighten FILE ");
    page.put(scene.node.name.text.bytes());
    page.say(".");
    page.number(u64::from(held.buffer));
    page.say("` tells the least size that clocks of this shape have\n");
}

// Puts why an item is read as late as it is last, and what helps.
fn put_shaped(
    page: &mut Page<'_>,
    scene: Scene<'_>,
    shaped: &Shaped,
    held: Held<'_>,
    item: u64,
) -> Result<(), AllocError>
    requires { IsShapeFor shaped.now.needs shaped.now.shape }
{
    put_late(page, scene, shaped, held, item)?;
    put_filling_helps(page, scene, held);
    Ok(())
}

// Puts what the inequalities of a node say of an item that waits last.
fn put_shape(
    page: &mut Page<'_>,
    scene: Scene<'_>,
    accepted: &Accepted,
    options: &Options,
    node: u32,
    held: Held<'_>,
    item: u64,
) -> Result<(), AllocError>
    requires options { AreOptions options.now }
    requires accepted { (ops : List Operator) × (o : Choices) × (text : List ℕ) × IsAccepted ops o text accepted.now }
    requires node { node < length accepted.now.placed.nodes }
{
    if accepted.placed.is_written(node) {
        page.say("the clocks of the node are written: its items are read when they say\n");
        return Ok(());
    }
    match shape_node(page.alloc, accepted, options, node)? {
        Some(shaped) => put_shaped(page, scene, &shaped, held, item),
        None => Ok(()),
    }
}

// Puts what is told of a buffer last.
fn put_buffer(
    page: &mut Page<'_>,
    scene: Scene<'_>,
    accepted: &Accepted,
    options: &Options,
    node: u32,
    held: Held<'_>,
) -> Result<(), AllocError>
    requires options { AreOptions options.now }
    requires accepted { (ops : List Operator) × (o : Choices) × (text : List ℕ) × IsAccepted ops o text accepted.now }
    requires node { node < length accepted.now.placed.nodes }
{
    put_head(page, scene, held);
    if let Some(item) = put_words(page, held)? {
        put_shape(page, scene, accepted, options, node, held, item)?;
    }
    put_all_sizes(page, accepted)
}

/// What is told of a buffer of a node of an accepted program, by the number of its node from 0 and its own from 1, and the spans of which
/// is told.
pub(crate) fn filled(
    alloc: Global,
    text: &[u8],
    accepted: &Accepted,
    options: &Options,
    node: u32,
    buffer: u32,
) -> Result<(Vec<u8>, Vec<Span>), AllocError>
    requires options { AreOptions options.now }
    requires accepted { (ops : List Operator) × (o : Choices) × (text : List ℕ) × IsAccepted ops o text accepted.now }
    requires node { node < length accepted.now.placed.nodes }
{
    let program = tree_of(alloc, text)?;
    let scene = scene_of(&accepted.placed, &program, node);
    let mut page = Page::new(alloc, text);
    if let Some(held) = held_of(scene, accepted, node, buffer) {
        put_buffer(&mut page, scene, accepted, options, node, held)?;
    }
    page.told()
}
