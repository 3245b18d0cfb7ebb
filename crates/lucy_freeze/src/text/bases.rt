// The words of calls, written behind their names.
use crate::text::writer::Writer;
use lucy_tree::Expr;
use lucy_word::Word;

/// The words of a node, and which numbers come next: of a stream, of a place of an expression, and of a call, each from 1.
#[derive(Clone, Copy)]
pub(crate) struct Walk<'a> {
    pub words: &'a [Word],
    pub places: usize,
    pub stream: usize,
    pub place: usize,
    pub call: usize,
}

impl<'a> Walk<'a> {
    /// The word of the next stream.
    pub(crate) fn next_stream(&mut self) -> Option<&'a Word> {
        let word = self.words.get(self.stream);
        self.stream = self.stream.saturating_add(1);
        word
    }

    /// Passes so many places.
    pub(crate) fn pass(&mut self, places: usize) {
        self.place = self.place.saturating_add(places);
    }

    /// Passes a call with so many results, and answers the word of its base.
    pub(crate) fn next_call(&mut self, results: usize) -> Option<&'a Word> {
        self.pass(results);
        let word = self.words.get(self.places.saturating_add(self.call));
        self.call = self.call.saturating_add(1);
        word
    }

    /// Passes an expression that has one result, and answers the word of its base where it is a call.
    pub(crate) fn next(&mut self, expr: &Expr) -> Option<&'a Word> {
        match expr {
            Expr::Var { .. } => None,
            Expr::Call { .. } => self.next_call(1),
            _ => {
                self.pass(1);
                None
            }
        }
    }
}

/// Whether operands of an expression have to get names.
#[cycle(cuts)]
pub(crate) fn has_cuts(expr: &Expr) -> bool {
    match expr {
        Expr::Lit { .. } => false,
        Expr::Var { .. } => false,
        Expr::Op { args, .. } => have_cuts(args.list()),
        Expr::Host { args, .. } => have_cuts(args.list()),
        Expr::When { operand, .. } => !is_name(operand),
        Expr::Merge { one, zero, .. } => has_cuts(one) || has_cuts(zero),
        Expr::Fby { operand, .. } => has_cuts(operand),
        Expr::Buffer { operand, .. } => !is_name(operand),
        Expr::Call { args, .. } => !are_names(args.list()),
    }
}

#[cycle(cuts)]
fn have_cuts(list: &[Expr]) -> bool {
    for expr in list {
        if has_cuts(expr) {
            return true;
        }
    }
    false
}

fn is_name(expr: &Expr) -> bool {
    match expr {
        Expr::Var { .. } => true,
        _ => false,
    }
}

fn are_names(list: &[Expr]) -> bool {
    for expr in list {
        if !is_name(expr) {
            return false;
        }
    }
    true
}

// Passes an expression, which has so many results where it is a call, and writes the word of a call behind its name.
fn enter(writer: &mut Writer<'_>, walk: &mut Walk<'_>, expr: &Expr, results: usize) {
    match expr {
        Expr::Var { .. } => {}
        Expr::Call { node, at, .. } => {
            let word = walk.next_call(results);
            if at.is_none() {
                writer.copy_to(node.span.to as usize);
                writer.sheet.say(" at ");
                writer.sheet.clock(word);
            }
        }
        _ => walk.pass(1),
    }
}

/// Writes the words of the calls of an expression, which has so many results where it is a call itself.
#[cycle(bases)]
pub(crate) fn put_bases(writer: &mut Writer<'_>, walk: &mut Walk<'_>, expr: &Expr, results: usize) {
    enter(writer, walk, expr, results);
    match expr {
        Expr::Lit { .. } => {}
        Expr::Var { .. } => {}
        Expr::Op { args, .. } => put_all_bases(writer, walk, args.list()),
        Expr::Host { args, .. } => put_all_bases(writer, walk, args.list()),
        Expr::When { operand, .. } => put_bases(writer, walk, operand, 1),
        Expr::Merge { one, zero, .. } => {
            put_bases(writer, walk, one, 1);
            put_bases(writer, walk, zero, 1)
        }
        Expr::Fby { operand, .. } => put_bases(writer, walk, operand, 1),
        Expr::Buffer { operand, .. } => put_bases(writer, walk, operand, 1),
        Expr::Call { args, .. } => put_all_bases(writer, walk, args.list()),
    }
}

// Writes those of operands.
#[cycle(bases)]
fn put_all_bases(writer: &mut Writer<'_>, walk: &mut Walk<'_>, list: &[Expr]) {
    for expr in list {
        put_bases(writer, walk, expr, 1);
    }
}
