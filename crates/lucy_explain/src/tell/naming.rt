// A name that is not good: where, and what there is.
use crate::tell::page::Page;
use lucy_host::Ops;
use lucy_naming::NameError;
use lucy_tree::{Decl, Node, Program, Span};

// The operators that hosts are known to lend.
const OPERATORS: [&str; 6] = ["min", "max", "absdiff", "satadd", "satsub", "shift"];

// What stands before an offset, but for blanks.
fn before(text: &[u8], offset: usize) -> &[u8] {
    let front = &text[..offset.min(text.len())];
    match front.iter().rposition(|byte| !byte.is_ascii_whitespace()) {
        Some(last) => &front[..last.saturating_add(1).min(front.len())],
        None => b"",
    }
}

// What stands behind an offset, but for blanks.
fn behind(text: &[u8], offset: usize) -> &[u8] {
    let rest = &text[offset.min(text.len())..];
    match rest.iter().position(|byte| !byte.is_ascii_whitespace()) {
        Some(first) => &rest[first.min(rest.len())..],
        None => b"",
    }
}

// The node in which a span stands: the last one whose name begins no later.
fn node_at(program: &Program, span: Span) -> Option<&Node> {
    let mut found = None;
    for node in program.nodes.list() {
        if node.name.span.from <= span.from {
            found = Some(node);
        }
    }
    found
}

// The node of a name.
fn node_of<'a>(program: &'a Program, name: &[u8]) -> Option<&'a Node> {
    for node in program.nodes.list() {
        if node.name.text.bytes() == name {
            return Some(node);
        }
    }
    None
}

// Puts names last, parted by commas.
fn put_names(page: &mut Page<'_>, decls: &[Decl], begun: bool) -> bool {
    let mut begun = begun;
    for decl in decls {
        if begun {
            page.put(b", ");
        }
        page.put(decl.name.text.bytes());
        begun = true;
    }
    begun
}

// Puts the streams of a node last.
fn put_streams(page: &mut Page<'_>, node: &Node) {
    page.say("the streams of ");
    page.put(node.name.text.bytes());
    page.say(" are ");
    let mut begun = put_names(page, node.params.list(), false);
    for def in node.defs.list() {
        begun = put_names(page, def.left.list(), begun);
    }
    page.say(if begun { "\n" } else { "none\n" })
}

// Puts the nodes above an offset last.
fn put_nodes(page: &mut Page<'_>, program: &Program, span: Span) {
    let mut begun = false;
    for node in program.nodes.list() {
        if node.name.span.to <= span.from {
            page.say(if begun { ", " } else { "the nodes above are " });
            page.put(node.name.text.bytes());
            begun = true;
        }
    }
    page.say(if begun {
        "\n"
    } else {
        "no node stands above\n"
    })
}

// Puts the operators of the host last.
fn put_operators(page: &mut Page<'_>, ops: &Ops) {
    let mut begun = false;
    for name in OPERATORS {
        if ops.find(name.as_bytes()).is_some() {
            page.say(if begun {
                ", "
            } else {
                "the host's operators are "
            });
            page.say(name);
            begun = true;
        }
    }
    page.say(if begun {
        "\n"
    } else {
        "the host lends none of the usual operators\n"
    })
}

// Puts what a name could be that is unknown last.
fn put_unknown(page: &mut Page<'_>, program: &Program, ops: &Ops, span: Span) {
    let text = page.text;
    let front = before(text, span.from as usize);
    let rest = behind(text, span.to as usize);
    if front.ends_with(b"host") {
        put_operators(page, ops);
        return page.helps("mend the name of the operator");
    }
    if rest.starts_with(b"(") || rest.starts_with(b"at ") {
        put_nodes(page, program, span);
        return page.helps("mend the name, or write the node above this one");
    }
    if let Some(node) = node_at(program, span) {
        put_streams(page, node);
    }
    page.helps("define it, or mend its spelling")
}

// Puts how a node is called last.
fn put_callee(page: &mut Page<'_>, callee: &Node) {
    page.put(callee.name.text.bytes());
    page.say(" takes ");
    page.number(callee.params.list().len() as u64);
    page.say(" and gives ");
    page.number(callee.results.list().len() as u64);
    page.say(": ");
    page.at(callee.name.span.from as usize);
    page.put(b"\n");
    page.keep(callee.name.span);
}

// Where one of these names is spelled so, before a span.
fn declared_before(decls: &[Decl], name: &[u8], span: Span) -> Option<Span> {
    for decl in decls {
        if decl.name.text.bytes() == name && decl.name.span.from < span.from {
            return Some(decl.name.span);
        }
    }
    None
}

// Where a name on the left of a definition is.
fn defined_before(node: &Node, name: &[u8], span: Span) -> Option<Span> {
    for def in node.defs.list() {
        if let Some(first) = declared_before(def.left.list(), name, span) {
            return Some(first);
        }
    }
    None
}

// Where a node has the name, before a span.
fn named_before(program: &Program, name: &[u8], span: Span) -> Option<Span> {
    for node in program.nodes.list() {
        if node.name.text.bytes() == name && node.name.span.from < span.from {
            return Some(node.name.span);
        }
    }
    None
}

// Where a stream or a node stands first that is named as one at a span.
fn first_of(program: &Program, name: &[u8], span: Span) -> Option<Span> {
    if let Some(node) = node_at(program, span) {
        if let Some(first) = declared_before(node.params.list(), name, span) {
            return Some(first);
        }
        if let Some(first) = defined_before(node, name, span) {
            return Some(first);
        }
    }
    named_before(program, name, span)
}

// Puts where a name stands first last.
fn put_first(page: &mut Page<'_>, program: &Program, span: Span) {
    if let Some(first) = first_of(program, page.bytes(span), span) {
        page.say("the first one: ");
        page.at(first.from as usize);
        page.put(b"\n");
        page.keep(first);
    }
    page.helps("another name")
}

// Puts that a result is no stream of its node last, and which streams there are.
fn put_result(page: &mut Page<'_>, program: &Program, span: Span) {
    if let Some(node) = node_at(program, span) {
        put_streams(page, node);
    }
    page.helps("define it behind `where rec`, or name another stream")
}

// Puts how the node is called last that is named at a span, and what helps.
fn put_called(page: &mut Page<'_>, program: &Program, span: Span, help: &str) {
    let name = page.bytes(span);
    if let Some(callee) = node_of(program, name) {
        put_callee(page, callee);
    }
    page.helps(help)
}

// Where a name stands that is not good.
fn span_of(error: NameError) -> Option<Span> {
    match error {
        NameError::Unknown(span)
        | NameError::Twice(span)
        | NameError::NoResult(span)
        | NameError::Arity(span)
        | NameError::LaterNode(span) => Some(span),
        NameError::TooMany(_) | NameError::OutOfMemory => None,
    }
}

/// Puts why a name is not good last.
pub(crate) fn put_name(page: &mut Page<'_>, program: &Program, ops: &Ops, error: NameError) {
    let Some(span) = span_of(error) else {
        return;
    };
    page.show_span(span);
    match error {
        NameError::Unknown(_) => put_unknown(page, program, ops, span),
        NameError::Twice(_) => put_first(page, program, span),
        NameError::NoResult(_) => put_result(page, program, span),
        NameError::Arity(_) => put_called(
            page,
            program,
            span,
            "as many arguments, and names on the left",
        ),
        NameError::LaterNode(_) => put_called(
            page,
            program,
            span,
            "callees first: a node calls those above it, and not itself",
        ),
        NameError::TooMany(_) | NameError::OutOfMemory => {}
    }
}
