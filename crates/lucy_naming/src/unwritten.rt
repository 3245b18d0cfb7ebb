// Looks for the first span that keeps a node from being written.
ghost use Rattle.std.specs.Prelude.{◌≡◌, fold, map};
ghost use Rattle.lucy_tree.specs.View.{node_tree, def_tree};
ghost use Rattle.lucy_naming.specs.Phrases.{expr_phrase, expr_phrases, span_of};
ghost use Rattle.lucy_naming.specs.Written as spec;
ghost use Rattle.lucy_naming.specs.Written.{lacking, decl_spans, unnamed_span, unnamed_spans, phrase_spans, phrases_spans, def_spans, first_unwritten};

use lucy_tree::{Decl, Def, Expr, Node, Span};
use lucy_word::Word;

// The one of two spans that begins first.
fn earlier(first: Option<Span>, span: Span) -> Option<Span>
    ensures { result ≡ spec.earlier first span }
{
    match first {
        Some(first) if span.from >= first.from => Some(first),
        _ => Some(span),
    }
}

// The first span, with that of a name or a call, which counts where its word isn't written.
fn lacking(first: Option<Span>, word: &Option<Word>, span: Span) -> Option<Span>
    ensures { result ≡ fold spec.earlier first (lacking word.now span) }
{
    if word.is_none() {
        earlier(first, span)
    } else {
        first
    }
}

// The first span, with those of declarations.
fn declared(first: Option<Span>, decls: &[Decl]) -> Option<Span>
    ensures { result ≡ fold spec.earlier first (decl_spans decls.now) }
{
    let mut found = first;
    'each: for decl in decls {
        found = lacking(found, &decl.word, decl.name.span);
    }
    found
}

// The span of an expression as an operand: of its outermost operator, literal or name.
fn span_of(expr: &Expr) -> Span
    ensures { result ≡ span_of (expr_phrase expr.now) }
{
    match expr {
        Expr::Lit { span, .. } => *span,
        Expr::Var { name } => name.span,
        Expr::Op { span, .. } => *span,
        Expr::Host { name, .. } => name.span,
        Expr::When { operand, .. } => span_of(operand),
        Expr::Merge { span, .. } => *span,
        Expr::Fby { span, .. } => *span,
        Expr::Buffer { span, .. } => *span,
        Expr::Call { node, .. } => node.span,
    }
}

// The first span, with that of an operand that should be a name.
fn unnamed(first: Option<Span>, expr: &Expr) -> Option<Span>
    ensures { result ≡ fold spec.earlier first (unnamed_span (expr_phrase expr.now)) }
{
    match expr {
        Expr::Var { .. } => first,
        _ => earlier(first, span_of(expr)),
    }
}

// The first span, with those of arguments that should be names.
fn unnamed_all(first: Option<Span>, list: &[Expr]) -> Option<Span>
    ensures { result ≡ fold spec.earlier first (unnamed_spans (expr_phrases list.now)) }
{
    let mut found = first;
    'each: for expr in list {
        found = unnamed(found, expr);
    }
    found
}

// The first span, with those of an expression.
#[cycle(unwritten)]
fn inside(first: Option<Span>, expr: &Expr) -> Option<Span>
    ensures { result ≡ fold spec.earlier first (phrase_spans (expr_phrase expr.now)) }
{
    match expr {
        Expr::Lit { .. } => first,
        Expr::Var { .. } => first,
        Expr::Op { args, .. } => inside_all(first, args.list()),
        Expr::Host { args, .. } => inside_all(first, args.list()),
        Expr::When { operand, .. } => inside(unnamed(first, operand), operand),
        Expr::Merge { one, zero, .. } => inside(inside(first, one), zero),
        Expr::Fby { operand, .. } => inside(first, operand),
        Expr::Buffer { operand, .. } => inside(unnamed(first, operand), operand),
        Expr::Call { node, at, args } => {
            let first = lacking(first, at, node.span);
            inside_all(unnamed_all(first, args.list()), args.list())
        }
    }
}

// The first span, with those of operands.
#[cycle(unwritten)]
fn inside_all(first: Option<Span>, list: &[Expr]) -> Option<Span>
    ensures { result ≡ fold spec.earlier first (phrases_spans (expr_phrases list.now)) }
{
    let mut found = first;
    'each: for expr in list {
        found = inside(found, expr);
    }
    found
}

// The first span, with those of a definition.
fn defined(first: Option<Span>, def: &Def) -> Option<Span>
    ensures { result ≡ fold spec.earlier first (def_spans (def_tree def.now)) }
{
    inside(declared(first, def.left.list()), &def.right)
}

/// The first span that keeps a node from being written.
pub(crate) fn first_unwritten(node: &Node) -> Option<Span>
    ensures { result ≡ first_unwritten (node_tree node.now) }
{
    let mut found = declared(None, node.params.list());
    'each: for def in node.defs.list() {
        found = defined(found, def);
    }
    found
}
