// The nodes of a text, with their clocks written out.
use crate::text::bases::{Walk, has_cuts, put_bases};
use crate::text::cut::{Cutter, put_expr};
use crate::text::forms::Part;
use crate::text::sheet::Sheet;
use crate::text::writer::Writer;
use lucy_place::PlacedNode;
use lucy_program::Accepted;
use lucy_token::Mark;
use lucy_tree::{Decl, Def, Node, Program};
use lucy_word::Word;

// Writes the words of parameters. One that stands alone gets parentheses.
fn put_params(writer: &mut Writer<'_>, node: &Node, walk: &mut Walk<'_>) {
    writer.seek(node.name.span.from as usize);
    let params = node.params.list();
    if writer.is_at(1, Mark::Open) {
        put_decls(writer, params, walk);
        return;
    }
    if let Some(only) = params.first() {
        writer.copy_to(only.name.span.from as usize);
        writer.sheet.say("(");
        put_decls(writer, params, walk);
        writer.sheet.say(")");
    }
}

// Writes the words of declarations.
fn put_decls(writer: &mut Writer<'_>, decls: &[Decl], walk: &mut Walk<'_>) {
    for decl in decls {
        let word = walk.next_stream();
        writer.declare(decl, word);
    }
}

// Puts a comment last that tells the names of operands.
fn put_comment(writer: &mut Writer<'_>, cutter: &Cutter<'_>) {
    writer.sheet.say(" (* rewritten; new names:");
    for (i, cut) in cutter.cuts.iter().enumerate() {
        writer.sheet.say(if i == 0 { " " } else { ", " });
        writer.sheet.numbered(cutter.base, cut.number);
    }
    writer.sheet.say(" *)");
}

// Puts the definitions of operands that got names.
fn put_cuts(writer: &mut Writer<'_>, cutter: &Cutter<'_>, words: &[Word], offset: usize) {
    for cut in &cutter.cuts {
        writer.begin_def(offset);
        writer.sheet.numbered(cutter.base, cut.number);
        writer.sheet.say(" :: ");
        writer.sheet.clock(words.get(cut.place));
        writer.sheet.say(" = ");
        writer.sheet.add(&cut.text);
    }
}

// Rewrites a definition whose operands get names: of the first name that it defines, and a number.
fn rewrite(
    writer: &mut Writer<'_>,
    node: &PlacedNode,
    def: &Def,
    first: &Decl,
    mut walk: Walk<'_>,
) -> (usize, usize) {
    let alloc = writer.alloc();
    // A call has a place for each name that is defined.
    walk.pass(def.left.list().len().saturating_sub(1));
    let mut cutter = Cutter {
        alloc,
        node,
        base: first.name.text.bytes(),
        tried: 0,
        walk,
        sheet: Sheet::new(alloc),
        cuts: Vec::new(alloc),
        full: false,
    };
    put_expr(&mut cutter, &def.right, Part::Plain);
    cutter.sheet.full = cutter.sheet.full || cutter.full;
    writer.replace_right(&cutter.sheet);
    put_comment(writer, &cutter);
    put_cuts(writer, &cutter, walk.words, first.name.span.from as usize);
    (cutter.walk.place, cutter.walk.call)
}

// Writes the words of a definition.
fn put_def(writer: &mut Writer<'_>, node: &PlacedNode, def: &Def, walk: &mut Walk<'_>) {
    let left = def.left.list();
    put_decls(writer, left, walk);
    match left.first() {
        Some(first) if has_cuts(&def.right) => {
            let (place, call) = rewrite(writer, node, def, first, *walk);
            walk.place = place;
            walk.call = call;
        }
        _ => put_bases(writer, walk, &def.right, left.len()),
    }
}

// How many streams a node has.
fn streams_of(node: &Node) -> usize {
    let mut count = node.params.list().len();
    for def in node.defs.list() {
        count = count.saturating_add(def.left.list().len());
    }
    count
}

// Writes the words of a node.
fn put_node(writer: &mut Writer<'_>, node: &Node, placed: &PlacedNode, words: &[Word]) {
    let mut walk = Walk {
        words,
        places: placed.places.list().len(),
        stream: 1,
        place: streams_of(node).saturating_add(1),
        call: 1,
    };
    put_params(writer, node, &mut walk);
    for def in node.defs.list() {
        put_def(writer, placed, def, &mut walk);
    }
}

/// Writes the words of all nodes.
pub(crate) fn put_nodes(writer: &mut Writer<'_>, tree: &Program, program: &Accepted) {
    let nodes = program.placed.nodes();
    for number in 0..nodes {
        let node = tree.nodes.list().get(number as usize);
        let clock = program.clocks.get(number as usize);
        if let (Some(node), Some(clock)) = (node, clock) {
            let placed = program.placed.node(number);
            put_node(writer, node, placed, clock.words.list());
        }
    }
}
