// Writes definitions and nodes.
ghost use Rattle.std.specs.Prelude.{◌≡◌, map};
ghost use Rattle.lucy_tree.specs.View.{def_tree, node_tree};
ghost use Rattle.lucy_grammar.specs.PrintTokens.{spaced_text, line, indent, printed_def, printed_body, printed_node, more_defs, more_nodes, printed_program};
ghost use Rattle.lucy_grammar.specs.Sheets.{Adds};

use crate::decl::{decls, left, names};
use crate::expr::expr;
use crate::sheet::Sheet;
use lucy_token::Mark;
use lucy_tree::{Def, Node};

// The end of a line, with the blanks before a definition.
fn indent(out: &mut Sheet)
    ensures { Adds indent out.old out.new }
{
    out.bytes(b"\n  ");
}

/// The end of a line.
pub(crate) fn line(out: &mut Sheet)
    ensures { Adds line out.old out.new }
{
    out.bytes(b"\n");
}

// A definition.
fn def(def: &Def, out: &mut Sheet)
    ensures { Adds (spaced_text (printed_def (def_tree def.now))) out.old out.new }
{
    left(def.left.list(), out);
    out.between(Mark::Equals);
    expr(&def.right, out);
}

// The definitions behind the first, each on a line of its own behind `and`.
fn further_defs(list: &[Def], out: &mut Sheet)
    ensures { Adds (spaced_text (more_defs (map def_tree list.now))) out.old out.new }
{
    'more: for next in list {
        indent(out);
        out.leading(Mark::And);
        def(next, out);
    }
}

// ` where rec` and the definitions, where there are any.
fn body(list: &[Def], out: &mut Sheet)
    ensures { Adds (spaced_text (printed_body (map def_tree list.now))) out.old out.new }
{
    let Some((first, more)) = list.split_first() else {
        return;
    };
    out.between(Mark::Where);
    out.mark(Mark::Rec);
    indent(out);
    def(first, out);
    further_defs(more, out);
}

// A node, without the end of its last line.
fn node(node: &Node, out: &mut Sheet)
    ensures { Adds (spaced_text (printed_node (node_tree node.now))) out.old out.new }
{
    out.mark(Mark::Let);
    out.between(Mark::Node);
    out.name(&node.name);
    out.blank();
    decls(node.params.list(), out);
    out.between(Mark::Equals);
    names(node.results.list(), out);
    body(node.defs.list(), out);
}

// The nodes behind the first, each on a line of its own.
fn further_nodes(list: &[Node], out: &mut Sheet)
    ensures { Adds (spaced_text (more_nodes (map node_tree list.now))) out.old out.new }
{
    'more: for next in list {
        line(out);
        node(next, out);
    }
}

/// Nodes, without the end of the last line.
pub(crate) fn nodes(list: &[Node], out: &mut Sheet)
    ensures { Adds (spaced_text (printed_program (map node_tree list.now))) out.old out.new }
{
    let Some((first, more)) = list.split_first() else {
        return;
    };
    node(first, out);
    further_nodes(more, out);
}
