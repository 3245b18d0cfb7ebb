// Texts in which parts are marked: they stand in tags, and all of the text is read as itself.
ghost use Rattle.std.specs.Prelude.{◌≡◌, ◌≤◌, ◌++◌, length, IfOk, OnOk};
ghost use Rattle.lucy_svg.specs.Escaping.{escaped};
ghost use Rattle.lucy_page.specs.Pages.{PutsSection};
ghost use Rattle.lucy_page.specs.Puts.{PutsTag, PutsOn};

use crate::part::definition;
use lucy_svg::{put, put_escaped};
use std::alloc::{AllocError, Global};

/// As what a part of a text is marked. Nodes count from 0, places from 1.
#[derive(Clone, Copy)]
pub(crate) enum Kind {
    /// The name of a node where it is written, which leads to the node's section.
    Node(u32),
    /// The name of a node where it is told, which does, too.
    Section(u32),
    /// A stream of a node where it is defined, by its place.
    Definition(u32, u32),
    /// A stream of a node where it is used or told, which leads to where it is defined.
    Use(u32, u32),
    /// What a refusal names.
    Wrong,
}

/// What is marked: what stands from an offset up to another.
#[derive(Clone, Copy)]
pub(crate) struct Mark {
    pub from: usize,
    pub to: usize,
    pub kind: Kind,
}

// Puts an attribute's text last, and what stands before it and behind it.
fn put_value(begin: &str, value: &str, end: &str, out: &mut Vec<u8>) -> Result<(), AllocError>
    ensures { OnOk result (out.new.items ≡ out.old.items ++ (begin.now ++ (escaped value.now ++ end.now))) }
{
    put(out, begin)?;
    put_escaped(value.as_bytes(), out)?;
    put(out, end)
}

// Puts the begin of a link to a place in the page last.
fn put_link(place: &str, out: &mut Vec<u8>) -> Result<(), AllocError>
    ensures { OnOk result (PutsTag out.old.items out.new.items) }
{
    put_value("<a href=\"#", place, "\">", out)
}

// Puts the begin of such a place last.
fn put_place(id: &str, out: &mut Vec<u8>) -> Result<(), AllocError>
    ensures { OnOk result (PutsTag out.old.items out.new.items) }
{
    put_value("<a class=\"def\" id=\"", id, "\">", out)
}

// Puts the begin of a node's name last, which is a place and leads to another.
fn put_node(id: &str, place: &str, out: &mut Vec<u8>) -> Result<(), AllocError>
    ensures { OnOk result (PutsTag out.old.items out.new.items) }
{
    put(out, "<a class=\"node\" id=\"")?;
    put_escaped(id.as_bytes(), out)?;
    put_value("\" href=\"#", place, "\">", out)
}

// Puts the begin of what a refusal names last.
fn put_wrong(out: &mut Vec<u8>) -> Result<(), AllocError>
    ensures { OnOk result (PutsTag out.old.items out.new.items) }
{
    put(out, "<mark>")
}

// Puts the begin of a link last to a place whose name is made for that.
fn put_made_link(place: Result<String, AllocError>, out: &mut Vec<u8>) -> Result<(), AllocError>
    ensures { OnOk result (PutsTag out.old.items out.new.items) }
{
    put_link(&place?, out)
}

// Puts the begin of such a place last.
fn put_made_place(id: Result<String, AllocError>, out: &mut Vec<u8>) -> Result<(), AllocError>
    ensures { OnOk result (PutsTag out.old.items out.new.items) }
{
    put_place(&id?, out)
}

// Puts the begin of the name of a node last, by its number from 0.
fn put_named(alloc: Global, node: u32, out: &mut Vec<u8>) -> Result<(), AllocError>
    ensures { OnOk result (PutsTag out.old.items out.new.items) }
{
    let id = format!(in alloc; "t{node}")?;
    let place = format!(in alloc; "n{node}")?;
    put_node(&id, &place, out)
}

// Puts the tag last with which a mark begins.
fn put_begin(alloc: Global, kind: Kind, out: &mut Vec<u8>) -> Result<(), AllocError>
    ensures { OnOk result (PutsTag out.old.items out.new.items) }
{
    match kind {
        Kind::Node(node) => put_named(alloc, node, out),
        Kind::Section(node) => put_made_link(format!(in alloc; "n{node}"), out),
        Kind::Definition(node, place) => put_made_place(definition(alloc, node, place), out),
        Kind::Use(node, place) => put_made_link(definition(alloc, node, place), out),
        Kind::Wrong => put_wrong(out),
    }
}

// Puts the tag last with which it ends.
fn put_end(kind: Kind, out: &mut Vec<u8>) -> Result<(), AllocError>
    ensures { OnOk result (PutsTag out.old.items out.new.items) }
{
    match kind {
        Kind::Wrong => put(out, "</mark>"),
        _ => put(out, "</a>"),
    }
}

// Puts what stands in a text from an offset up to another last.
fn put_part(text: &[u8], from: usize, to: usize, out: &mut Vec<u8>) -> Result<(), AllocError>
    requires order { from ≤ to }
    requires within { to ≤ length text.now }
    ensures { OnOk result (PutsOn text.now from to out.old.items out.new.items) }
{
    put_escaped(&text[from..to], out)
}

// Puts a text last from an offset up to the end of a mark; answers where it goes on. A mark that isn't ahead is left out.
fn put_mark(
    alloc: Global,
    text: &[u8],
    at: usize,
    mark: Mark,
    out: &mut Vec<u8>,
) -> Result<usize, AllocError>
    ensures { IfOk result (λ next. PutsOn text.now at next out.old.items out.new.items) }
{
    if mark.from < at || mark.to < mark.from || mark.to > text.len() {
        return Ok(at);
    }
    put_part(text, at, mark.from, out)?;
    put_begin(alloc, mark.kind, out)?;
    put_part(text, mark.from, mark.to, out)?;
    put_end(mark.kind, out)?;
    Ok(mark.to)
}

// Puts the rest of a text last; answers where it ends.
fn put_rest(text: &[u8], at: usize, out: &mut Vec<u8>) -> Result<usize, AllocError>
    ensures rest { IfOk result (λ to. PutsOn text.now at to out.old.items out.new.items) }
    ensures all { IfOk result (λ to. length text.now ≤ to) }
{
    if at >= text.len() {
        return Ok(at);
    }
    put_part(text, at, text.len(), out)?;
    Ok(text.len())
}

// Puts a text last with its marks, which are in order; answers where it ends.
fn put_marked(
    alloc: Global,
    text: &[u8],
    marks: &[Mark],
    out: &mut Vec<u8>,
) -> Result<usize, AllocError>
    ensures whole { IfOk result (λ to. PutsOn text.now 0 to out.old.items out.new.items) }
    ensures all { IfOk result (λ to. length text.now ≤ to) }
{
    let mut at = 0usize;
    'each: for mark in marks {
        at = put_mark(alloc, text, at, *mark, out)?;
    }
    put_rest(text, at, out)
}

/// Puts a section last that begins so, with a text in which parts are marked, in order.
pub(crate) fn put_section(
    alloc: Global,
    begin: &str,
    text: &[u8],
    marks: &[Mark],
    out: &mut Vec<u8>,
) -> Result<(), AllocError>
    ensures { OnOk result (PutsSection begin.now text.now out.old.items out.new.items) }
{
    put(out, begin)?;
    put_marked(alloc, text, marks, out)?;
    put(out, "</pre></section>\n")
}
