// Items that depend on each other: the delay that is missing.
use crate::index::narrow;
use crate::tell::page::Page;
use crate::tell::place::{Scene, put_what};
use lucy_net::Item;
use lucy_place::{Placed, PlacedNode};
use lucy_text::Text;
use lucy_tree::Program;

/// A node by its number, and what is left of the name of an actor within an instance of it.
#[derive(Clone, Copy)]
struct Within<'a> {
    node: u32,
    name: &'a [u8],
}

// The number that digits spell.
fn number_of(digits: &[u8]) -> Option<u32> {
    let mut number = 0u32;
    for digit in digits {
        if !digit.is_ascii_digit() {
            return None;
        }
        number = number
            .checked_mul(10)?
            .checked_add(u32::from(*digit - b'0'))?;
    }
    if digits.is_empty() {
        None
    } else {
        Some(number)
    }
}

// The node that a call of a node calls, by the number of the call.
fn callee_of(placed: &Placed, node: u32, call: u32) -> Option<u32> {
    if node >= placed.nodes() {
        return None;
    }
    let calls = placed.node(node).calls.list();
    let site = calls.get(call.checked_sub(1)? as usize)?;
    Some(site.node)
}

// One call further into a name, where it begins with one.
fn entered<'a>(placed: &Placed, at: Within<'a>) -> Option<Within<'a>> {
    let rest = at.name.strip_prefix(b"call")?;
    let dot = rest.iter().position(|byte| *byte == b'.')?;
    let call = number_of(&rest[..dot])?;
    Some(Within {
        node: callee_of(placed, at.node, call)?,
        name: &rest[dot + 1..],
    })
}

// The node in which an actor is a place, and its name there.
fn inner_of<'a>(placed: &Placed, name: &'a [u8]) -> Within<'a> {
    let mut at = Within {
        node: placed.nodes().saturating_sub(1),
        name,
    };
    for _ in 0..placed.nodes() {
        match entered(placed, at) {
            Some(next) => at = next,
            None => return at,
        }
    }
    at
}

// The place of a node that has a name in print.
fn place_of(node: &PlacedNode, name: &[u8]) -> Option<u32> {
    if let Some(digits) = name.strip_prefix(b"#") {
        return number_of(digits);
    }
    for (index, entry) in node.places.list().iter().enumerate() {
        if let Some(known) = &entry.name {
            if known.text.bytes() == name {
                return Some(narrow(index).saturating_add(1));
            }
        }
    }
    None
}

// Puts the line of an item last.
fn put_item(page: &mut Page<'_>, program: &Program, placed: &Placed, name: &[u8], item: &Item) {
    page.put(b"  ");
    page.put(name);
    page.put(b"[");
    page.number(item.number);
    page.put(b"]: ");
    let at = inner_of(placed, name);
    if at.node >= placed.nodes() {
        return page.put(b"\n");
    }
    let scene = Scene {
        node: placed.node(at.node),
        tree: program.nodes.list().get(at.node as usize),
    };
    if let Some(place) = place_of(scene.node, at.name) {
        if let Some(span) = scene.span(place) {
            page.keep(span);
            page.at(span.from as usize);
            page.put(b": ");
        }
        put_what(page, scene, place);
    }
    page.put(b"\n")
}

// A name on a loop of actors, in the outermost node that the loop is in, where it is read: only names are read before they are defined.
fn name_on_loop<'a>(placed: &Placed, names: &'a [Text]) -> Option<&'a [u8]> {
    let mut found = None;
    let mut least = usize::MAX;
    for name in names {
        let own = inner_of(placed, name.bytes()).name;
        let before = name.bytes().len().saturating_sub(own.len());
        if before < least && !own.starts_with(b"#") {
            least = before;
            found = Some(own);
        }
    }
    found
}

// Puts last that a delay helps on a loop, and for which name.
fn put_delay(page: &mut Page<'_>, name: &[u8]) {
    page.put(b"what helps: `fby` on the loop, as in `0 fby ");
    page.put(name);
    page.put(b"` where it reads ");
    page.put(name);
    page.put(b", or of truths `false fby ");
    page.put(name);
    page.put(b"`: then the loop begins with that, and each item waits for an earlier one\n")
}

/// Puts items of one instant last that depend on each other, each with what stands at its place, and what helps.
pub(crate) fn put_items(
    page: &mut Page<'_>,
    program: &Program,
    placed: &Placed,
    names: &[Text],
    items: &[Item],
) {
    page.say("each item waits for the next one, and the last for the first:\n");
    for (i, item) in items.iter().enumerate() {
        if let Some(name) = names.get(i) {
            put_item(page, program, placed, name.bytes(), item);
        }
    }
    page.say("no item of an earlier instant is among them: a delay is missing\n");
    if let Some(name) = name_on_loop(placed, names) {
        put_delay(page, name)
    }
}
