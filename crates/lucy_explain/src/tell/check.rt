// A node that is written, and isn't well clocked; and one that has to be written, and isn't.
use crate::tell::page::Page;
use crate::tell::place::{Scene, is_always, put_places};
use lucy_check::CheckFault;
use lucy_need::{Need, Needs};
use lucy_tree::{Decl, Def, Expr, Node, Span};

// The need that isn't met.
fn need_of(needs: &Needs, fault: CheckFault) -> Option<&Need> {
    let number = match fault {
        CheckFault::Differs { need, .. } => need,
        CheckFault::Rates { need } => need,
        CheckFault::Late { need, .. } => need,
        CheckFault::Limit { .. } | CheckFault::OutOfMemory => return None,
    };
    needs.list.list().get(number as usize)
}

// Whether the need is that of a bound.
fn is_bound(need: &Need) -> bool {
    match need {
        Need::Adapt(_, second) => !is_always(&second.word),
        Need::Equal(_, _) => false,
    }
}

// Puts what it is that isn't met.
fn put_fault(page: &mut Page<'_>, need: &Need, fault: CheckFault) {
    match fault {
        CheckFault::Differs { instant, .. } => {
            page.say("  at instant ");
            page.number(instant);
            page.say(" one of them has an item and the other hasn't, and before it they agree\n")
        }
        CheckFault::Rates { .. } => {
            page.say("  in the long run more items go in than come out, or fewer\n")
        }
        CheckFault::Late { instant, .. } => {
            page.say("  at instant ");
            page.number(instant);
            page.say(if is_bound(need) {
                " more items wait than the bound allows\n"
            } else {
                " more items are read than have come\n"
            })
        }
        CheckFault::Limit { .. } | CheckFault::OutOfMemory => {}
    }
}

// Puts what helps against it.
fn put_check_helps(page: &mut Page<'_>, need: &Need, fault: CheckFault) {
    match fault {
        CheckFault::Differs { .. } => {
            page.helps("change one of the two words; `lucy clocks` finds a word that isn't written")
        }
        CheckFault::Rates { .. } => page.helps(
            "as many ones in the words of both sides, period by period",
        ),
        CheckFault::Late { .. } => {
            if is_bound(need) {
                page.helps("a greater bound, or a reader that begins earlier")
            } else {
                page.helps("read later: `0(..)` in front of the reader's word")
            }
        }
        CheckFault::Limit { .. } | CheckFault::OutOfMemory => {}
    }
}

/// Puts what the checker says of the words of a node last: what isn't met, where its clocks stand, and what helps.
pub(crate) fn put_check(page: &mut Page<'_>, scene: Scene<'_>, needs: &Needs, fault: CheckFault) {
    let Some(need) = need_of(needs, fault) else {
        return;
    };
    put_fault(page, need, fault);
    let (first, second) = match need {
        Need::Equal(first, second) | Need::Adapt(first, second) => (first, second),
    };
    page.name(first.clock);
    page.name(second.clock);
    put_places(page, scene);
    put_check_helps(page, need, fault)
}

/// What has no word.
#[derive(Clone, Copy)]
enum Lacking {
    Stream,
    Call,
    Operand,
}

// Whether one of the names that are declared stands at this span.
fn declares(decls: &[Decl], span: Span) -> bool {
    for decl in decls {
        if decl.name.span == span {
            return true;
        }
    }
    false
}

// Whether a definition declares the span.
fn defines(def: &Def, span: Span) -> bool {
    declares(def.left.list(), span)
}

// Whether an expression is a call that stands at this span.
fn calls(expr: &Expr, span: Span) -> bool {
    match expr {
        Expr::Call { node, at: None, .. } => node.span == span,
        _ => false,
    }
}

// What stands at a span of a node that keeps it from being written.
fn lacking_at(node: &Node, span: Span) -> Lacking {
    if declares(node.params.list(), span) {
        return Lacking::Stream;
    }
    for def in node.defs.list() {
        if defines(def, span) {
            return Lacking::Stream;
        }
        if calls(&def.right, span) {
            return Lacking::Call;
        }
    }
    Lacking::Operand
}

/// Puts what a node lacks last that has to be written.
pub(crate) fn put_unwritten(page: &mut Page<'_>, tree: Option<&Node>, span: Span) {
    page.show_span(span);
    let lacking = match tree {
        Some(tree) => lacking_at(tree, span),
        None => Lacking::Operand,
    };
    let name = page.bytes(span);
    match lacking {
        Lacking::Stream => {
            page.quote(name);
            page.say(" has no word\n");
            page.put(b"what helps: `");
            page.put(name);
            page.say(" :: (..)` with the word of its clock; `lucy clocks` finds it\n")
        }
        Lacking::Call => {
            page.say("the call has no word of its base\n");
            page.put(b"what helps: `");
            page.put(name);
            page.say(" at (..)` with the word of its base; `lucy clocks` finds it\n")
        }
        Lacking::Operand => {
            page.say(
                "here stands a call without the word of its base, or an expression where a name is wanted:\n",
            );
            page.say("an operand of `when`, `whenot` or `buffer`, or an argument of a call\n");
            page.helps(
                "define it under a name with its word, or `at (..)` behind the callee's name; `lucy clocks` finds words",
            )
        }
    }
}
