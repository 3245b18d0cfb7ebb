// What is written of a form beside its parts.
use crate::text::sheet::Sheet;
use lucy_host::Op;
use lucy_token::sign_of;
use lucy_tree::Expr;
use lucy_word::Word;

/// How a part of a form is written: as it is, as an operand, which is a literal or a name or stands in parentheses, or as a name.
#[derive(Clone, Copy)]
pub(crate) enum Part {
    Plain,
    Operand,
    Name,
}

/// Parts in a row: what stands between the first two, and between others, with this on either side, and how each part is written.
#[derive(Clone, Copy)]
pub(crate) struct Row {
    pub first: &'static str,
    pub later: &'static str,
    pub side: &'static str,
    pub part: Part,
}

// Parts with this between them, and how each is written.
fn parted(side: &'static str, between: &'static str, part: Part) -> Row {
    Row {
        first: between,
        later: between,
        side,
        part,
    }
}

/// The parts of an expression.
pub(crate) fn row_of(expr: &Expr) -> Row {
    match expr {
        Expr::Op { op: Op::If, .. } => Row {
            first: "then",
            later: "else",
            side: " ",
            part: Part::Operand,
        },
        Expr::Op { op, .. } => parted(" ", sign_of(*op), Part::Operand),
        Expr::Host { .. } => parted("", ", ", Part::Plain),
        Expr::Merge { .. } | Expr::Fby { .. } => parted("", " ", Part::Operand),
        _ => parted("", ", ", Part::Name),
    }
}

/// How a part begins: as it is, with a name that it gets, or with a parenthesis.
#[derive(Clone, Copy)]
pub(crate) enum Opening {
    None,
    Name,
    Parenthesis,
}

/// How an expression begins that is written as such a part.
pub(crate) fn opening_of(expr: &Expr, part: Part) -> Opening {
    match (part, expr) {
        (Part::Plain, _) => Opening::None,
        (_, Expr::Var { .. }) => Opening::None,
        (Part::Operand, Expr::Lit { .. }) => Opening::None,
        (Part::Operand, _) => Opening::Parenthesis,
        (Part::Name, _) => Opening::Name,
    }
}

impl Row {
    /// Puts what stands before a part last, which counts from 0.
    pub(crate) fn put_gap(self, k: usize, sheet: &mut Sheet) {
        if k > 0 {
            sheet.say(self.side);
            sheet.say(if k == 1 { self.first } else { self.later });
            sheet.say(self.side);
        }
    }
}

// Puts the front of a buffer last, up to its operand.
fn put_bound(most: Option<u64>, sheet: &mut Sheet) {
    sheet.say("buffer ");
    if let Some(most) = most {
        sheet.number(most);
        sheet.say(" (");
    }
}

/// Puts what stands before the parts of an expression last, where a call has this word as its base unless one is written.
pub(crate) fn put_front(expr: &Expr, base: Option<&Word>, sheet: &mut Sheet) {
    match expr {
        Expr::Lit { lit, .. } => sheet.literal(*lit),
        Expr::Var { name } => sheet.put(name.text.bytes()),
        Expr::Op { op, args, .. } => {
            if args.list().len() != 2 {
                sheet.say(sign_of(*op));
                sheet.say(" ")
            }
        }
        Expr::Host { name, .. } => {
            sheet.say("host ");
            sheet.put(name.text.bytes());
            sheet.say(" (")
        }
        Expr::When { .. } => {}
        Expr::Merge { word, .. } => {
            sheet.say("merge ");
            sheet.word(word);
            sheet.say(" ")
        }
        Expr::Fby { first, .. } => {
            sheet.literal(*first);
            sheet.say(" fby ")
        }
        Expr::Buffer { most, .. } => put_bound(*most, sheet),
        Expr::Call { node, at, .. } => {
            sheet.put(node.text.bytes());
            sheet.say(" at ");
            sheet.clock(at.as_ref().or(base));
            sheet.say(" (")
        }
    }
}

/// Puts what stands behind the parts of an expression last.
pub(crate) fn put_back(expr: &Expr, sheet: &mut Sheet) {
    match expr {
        Expr::Host { .. } => sheet.say(")"),
        Expr::Call { .. } => sheet.say(")"),
        Expr::Buffer { most: Some(_), .. } => sheet.say(")"),
        Expr::When { flip, word, .. } => {
            sheet.say(if *flip { " whenot " } else { " when " });
            sheet.word(word)
        }
        _ => {}
    }
}
