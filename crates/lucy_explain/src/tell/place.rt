// What stands at the places of a node.
use crate::tell::page::Page;
use lucy_need::{Need, Term};
use lucy_picture::{form_of, span_of};
use lucy_place::{PlaceEntry, PlaceKind, PlacedNode};
use lucy_tree::{Expr, Node, Span};
use lucy_word::Word;

/// A node, and its tree.
#[derive(Clone, Copy)]
pub(crate) struct Scene<'a> {
    pub node: &'a PlacedNode,
    pub tree: Option<&'a Node>,
}

impl<'a> Scene<'a> {
    /// What is known of a place, which counts from 1.
    pub(crate) fn entry(&self, place: u32) -> Option<&'a PlaceEntry> {
        self.node.places.list().get(place.checked_sub(1)? as usize)
    }

    /// The form that stands there, where it is none of the streams.
    pub(crate) fn form(&self, place: u32) -> Option<&'a Expr> {
        match self.tree {
            Some(tree) => form_of(tree, place),
            None => None,
        }
    }

    /// Where it stands: the name of a stream where it is declared, else the form.
    pub(crate) fn span(&self, place: u32) -> Option<Span> {
        if let Some(
            PlaceEntry {
                name: Some(name),
                ..
            },
        ) = self.entry(place)
        {
            return Some(name.span);
        }
        match self.form(place) {
            Some(form) => Some(span_of(form)),
            None => None,
        }
    }

    /// The place of a clock: its own, or for the base of a call that of the call's first result. The base has none.
    pub(crate) fn place_of(&self, clock: u32) -> Option<u32> {
        let places = self.node.places.list().len();
        let clock_number = clock as usize;
        if clock_number == 0 {
            return None;
        }
        if clock_number <= places {
            return Some(clock);
        }
        let site = self.node.calls.list().get(clock_number - places - 1)?;
        Some(site.first)
    }
}

/// Puts the name of a clock last.
pub(crate) fn put_clock(page: &mut Page<'_>, scene: Scene<'_>, clock: u32) {
    let places = scene.node.places.list().len();
    let number = clock as usize;
    if number == 0 {
        return page.put(b"base");
    }
    if number <= places {
        return page.place(scene.node, clock);
    }
    page.say("call");
    page.number((number - places) as u64)
}

/// Whether the word is (1).
pub(crate) fn is_always(word: &Word) -> bool {
    let (prefix, period) = word.lengths();
    prefix == 0 && period == 1
}

// Puts a term last.
fn put_term(page: &mut Page<'_>, scene: Scene<'_>, term: &Term) {
    put_clock(page, scene, term.clock);
    if is_always(&term.word) {
        return;
    }
    page.put(b" on ");
    page.word(&term.word);
}

/// Puts a need last.
pub(crate) fn put_need(page: &mut Page<'_>, scene: Scene<'_>, need: &Need) {
    match need {
        Need::Equal(first, second) => {
            put_term(page, scene, first);
            page.put(b" = ");
            put_term(page, scene, second)
        }
        Need::Adapt(first, second) => {
            put_term(page, scene, first);
            page.put(b" <: ");
            put_term(page, scene, second)
        }
    }
}

/// Puts what stands at a place last.
pub(crate) fn put_what(page: &mut Page<'_>, scene: Scene<'_>, place: u32) {
    let Some(entry) = scene.entry(place) else {
        return;
    };
    if let PlaceKind::Param = &entry.kind {
        page.put(b"a parameter");
    }
    if let PlaceKind::Defined(_) = &entry.kind {
        page.put(b"defined as ");
    }
    let form = scene.form(place);
    page.kind(scene.node, &entry.kind, form);
    if let Some(word) = &entry.word {
        page.put(b", :: ");
        page.word(word);
    }
}

// Puts the line of a clock last: its name, where it stands, and what stands there.
fn put_line(page: &mut Page<'_>, scene: Scene<'_>, clock: u32) {
    page.put(b"  ");
    put_clock(page, scene, clock);
    page.put(b": ");
    let Some(place) = scene.place_of(clock) else {
        return page.put(b"the clock of the node's own base\n");
    };
    if let Some(span) = scene.span(place) {
        page.keep(span);
        page.at(span.from as usize);
        page.put(b": ");
    }
    put_what(page, scene, place);
    page.put(b"\n")
}

// The clock that is named at a place of a list, where it is not named before it.
fn first_named(clocks: &[u32], place: usize) -> Option<u32> {
    let clock = clocks.get(place).copied()?;
    let place = place.min(clocks.len());
    if clocks[..place].contains(&clock) {
        None
    } else {
        Some(clock)
    }
}

/// Puts the lines of the clocks last that are named, each once.
pub(crate) fn put_places(page: &mut Page<'_>, scene: Scene<'_>) {
    page.say("where:\n");
    for place in 0..page.clocks.len() {
        if let Some(clock) = first_named(&page.clocks, place) {
            put_line(page, scene, clock);
        }
    }
}
