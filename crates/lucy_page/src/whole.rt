// A page.
ghost use Rattle.std.specs.Prelude.{List, ℕ, IfOk, OnOk};
ghost use Rattle.lucy_host.specs.Operators.{Operator};
ghost use Rattle.lucy_program.specs.declared.options.Options.{Options as Choices};
ghost use Rattle.lucy_program.specs.Accepting.{IsAccepted};
ghost use Rattle.lucy_program.specs.Report.{report};
ghost use Rattle.lucy_page.specs.Pages.{AreSections, IsPage, IsRefusedPage};
ghost use Rattle.lucy_page.specs.Puts.{PutsTexts};

use crate::mark::put_section;
use crate::node::put_node;
use crate::part::{put_link, put_made_link};
use crate::report::report_marks;
use crate::style::PAGE;
use crate::text::{program_marks, wrong_marks};
use lucy_program::{Accepted, report};
use lucy_svg::{STYLE, put, put_escaped};
use lucy_tree::{Program, Span};
use std::alloc::{AllocError, Global};

// Puts what stands before all else last. A page may fetch nothing and run nothing.
fn put_head(name: &str, out: &mut Vec<u8>) -> Result<(), AllocError> {
    put(
        out,
        "<!DOCTYPE html>\n<html lang=\"en\"><head><meta charset=\"utf-8\">\n<meta http-equiv=\"Content-Security-Policy\" content=\"default-src 'none'; style-src 'unsafe-inline'\">\n<meta name=\"viewport\" content=\"width=device-width,initial-scale=1\">\n<title>",
    )?;
    put_escaped(name.as_bytes(), out)?;
    put(out, "</title>\n<style>\n")?;
    put(out, PAGE)?;
    put(out, STYLE)?;
    put(out, "</style></head><body>\n<h1>")?;
    put_escaped(name.as_bytes(), out)?;
    put(out, "</h1>\n")
}

// Puts links to all parts last.
fn put_parts(alloc: Global, accepted: &Accepted, out: &mut Vec<u8>) -> Result<(), AllocError> {
    put(out, "<nav>")?;
    put_link("text", b"Program", out)?;
    put(out, " ")?;
    put_link("report", b"Report", out)?;
    for number in 0..accepted.placed.nodes() {
        let name = accepted.placed.node(number).name.text.bytes();
        put(out, " ")?;
        put_made_link(format!(in alloc; "n{number}"), name, out)?;
    }
    put(out, "</nav>\n")
}

// What stands before the text of an accepted program.
fn head(alloc: Global, name: &str, accepted: &Accepted) -> Result<Vec<u8>, AllocError> {
    let mut out = Vec::new(alloc);
    put_head(name, &mut out)?;
    put_parts(alloc, accepted, &mut out)?;
    Ok(out)
}

// The sections of its nodes.
fn sections(
    alloc: Global,
    program: &Program,
    accepted: &Accepted,
    instants: Option<u64>,
) -> Result<Vec<u8>, AllocError>
    requires { (ops : List Operator) × (o : Choices) × (t : List ℕ) × IsAccepted ops o t accepted.now }
    ensures { IfOk result (λ v. AreSections 0 accepted.now.placed.nodes v.items) }
{
    let mut out = Vec::new(alloc);
    'each: for number in 0..accepted.placed.nodes() {
        put_node(alloc, program, accepted, number, instants, &mut out)?;
    }
    Ok(out)
}

// Puts the texts last.
fn put_texts(
    alloc: Global,
    text: &[u8],
    program: &Program,
    accepted: &Accepted,
    out: &mut Vec<u8>,
) -> Result<(), AllocError>
    requires { (ops : List Operator) × (o : Choices) × (t : List ℕ) × IsAccepted ops o t accepted.now }
    ensures { OnOk result (PutsTexts text.now (report accepted.now.placed.nodes accepted.now.typed accepted.now.clocks.items) out.old.items out.new.items) }
{
    let marks = program_marks(alloc, program, accepted)?;
    put_section(
        alloc,
        "<section id=\"text\"><h2>Program</h2>\n<pre>\n",
        text,
        &marks,
        out,
    )?;
    let told = report(alloc, accepted)?;
    let marks = report_marks(alloc, accepted, &told)?;
    put_section(
        alloc,
        "<section id=\"report\"><h2>Report</h2>\n<pre>\n",
        &told,
        &marks,
        out,
    )?;
    Ok(())
}

/// A page of an accepted program under this name, with its text and the tree of that, in HTML: it needs no other file, no script and no
/// network. It has the text, with a mark where each stream is defined and a link to there where it is used, the report, and of each node its
/// net, its chronogram, at so many instants or at as many as its own has, and its buffers.
pub fn page(
    alloc: Global,
    name: &str,
    text: &[u8],
    program: &Program,
    accepted: &Accepted,
    instants: Option<u64>,
) -> Result<Vec<u8>, AllocError>
    requires { (ops : List Operator) × (o : Choices) × (t : List ℕ) × IsAccepted ops o t accepted.now }
    ensures { IfOk result (λ v. IsPage accepted.now.placed.nodes text.now (report accepted.now.placed.nodes accepted.now.typed accepted.now.clocks.items) v.items) }
{
    let mut out = head(alloc, name, accepted)?;
    put_texts(alloc, text, program, accepted, &mut out)?;
    let nodes = sections(alloc, program, accepted, instants)?;
    out.extend_from_slice(&nodes)?;
    put(&mut out, "</body></html>\n")?;
    Ok(out)
}

/// A page of a program that is refused, under this name: what is told of that, and the text, in which these spans are marked as wrong. A span
/// that begins before the end of another, or doesn't lie in the text, isn't marked.
pub fn refused_page(
    alloc: Global,
    name: &str,
    text: &[u8],
    told: &[u8],
    spans: &[Span],
) -> Result<Vec<u8>, AllocError>
    ensures { IfOk result (λ v. IsRefusedPage told.now text.now v.items) }
{
    let mut out = Vec::new(alloc);
    put_head(name, &mut out)?;
    put_section(
        alloc,
        "<section id=\"refusal\"><h2>Refusal</h2>\n<pre>\n",
        told,
        &[],
        &mut out,
    )?;
    let marks = wrong_marks(alloc, spans)?;
    put_section(
        alloc,
        "<section id=\"text\"><h2>Program</h2>\n<pre>\n",
        text,
        &marks,
        &mut out,
    )?;
    put(&mut out, "</body></html>\n")?;
    Ok(out)
}
