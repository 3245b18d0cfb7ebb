// Right sides whose operands get names.
use crate::find::place_of;
use crate::text::bases::Walk;
use crate::text::forms::{Opening, Part, Row, opening_of, put_back, put_front, row_of};
use crate::text::sheet::Sheet;
use lucy_place::PlacedNode;
use lucy_tree::Expr;
use std::alloc::Global;
use std::mem;

/// An operand that gets a name: the number in that, its place, from 1, and its text. While this is written, the sheet waits there on which the
/// name stands.
#[derive(Drop)]
pub(crate) struct Cut {
    pub number: u64,
    pub place: usize,
    pub text: Sheet,
}

/// A right side that is written, and its operands that get names, made of the name that is defined, and a number.
#[derive(Drop)]
pub(crate) struct Cutter<'a> {
    pub alloc: Global,
    pub node: &'a PlacedNode,
    pub base: &'a [u8],
    pub tried: u64,
    pub walk: Walk<'a>,
    pub sheet: Sheet,
    pub cuts: Vec<Cut>,
    pub full: bool,
}

// How a part goes on: its own parts in a row, the text behind it, and which operand that gets a name it is, if it is one.
#[derive(Clone, Copy)]
struct Close {
    row: Row,
    text: &'static str,
    cut: Option<usize>,
}

// How many numbers are tried for one name: a node has fewer streams.
const TRIES: u32 = 8_192;

impl<'a> Cutter<'a> {
    // Whether no stream of the node has the name that is tried.
    fn is_free(&mut self) -> bool {
        let mut name = Sheet::new(self.alloc);
        name.numbered(self.base, self.tried);
        self.full = self.full || name.full;
        self.full || place_of(self.node, &name.bytes, 0).is_none()
    }

    // Tries names up to one that no stream of the node has.
    fn try_names(&mut self) {
        for _ in 0..TRIES {
            self.tried = self.tried.saturating_add(1);
            if self.is_free() {
                return;
            }
        }
    }

    // Goes on on the sheet of an operand that gets a name, and leaves the one so far there.
    fn exchange(&mut self, cut: usize) {
        if let Some(cut) = self.cuts.get_mut(cut) {
            mem::swap(&mut self.sheet, &mut cut.text);
        }
    }

    // Begins with an operand that gets a name, which is put last, and goes on on another sheet. The operand's number is answered.
    fn begin(&mut self) -> usize {
        self.try_names();
        self.sheet.numbered(self.base, self.tried);
        let number = self.cuts.len();
        let cut = Cut {
            number: self.tried,
            place: self.walk.place,
            text: Sheet::new(self.alloc),
        };
        self.full = self.cuts.push(cut).is_err() || self.full;
        self.exchange(number);
        number
    }

    // Puts a part last up to its own parts. One that has to be a name and is none gets one.
    fn enter(&mut self, expr: &Expr, part: Part) -> Close {
        let mut close = Close {
            row: row_of(expr),
            text: "",
            cut: None,
        };
        match opening_of(expr, part) {
            Opening::None => {}
            Opening::Name => close.cut = Some(self.begin()),
            Opening::Parenthesis => {
                self.sheet.say("(");
                close.text = ")";
            }
        }
        let word = self.walk.next(expr);
        put_front(expr, word, &mut self.sheet);
        close
    }

    // Puts last what stands before a part in a row, which counts from 0.
    fn put_gap(&mut self, k: usize, row: Row) {
        row.put_gap(k, &mut self.sheet);
    }

    // Puts last what stands behind the parts of a part.
    fn leave(&mut self, expr: &Expr, close: Close) {
        put_back(expr, &mut self.sheet);
        self.sheet.say(close.text);
        if let Some(cut) = close.cut {
            self.exchange(cut);
        }
    }
}

/// Puts a part of an expression last.
#[cycle(cut)]
pub(crate) fn put_expr(cutter: &mut Cutter<'_>, expr: &Expr, part: Part) {
    let close = cutter.enter(expr, part);
    match expr {
        Expr::Op { args, .. } | Expr::Host { args, .. } | Expr::Call { args, .. } => {
            put_all(cutter, args.list(), close.row)
        }
        Expr::When { operand, .. } | Expr::Fby { operand, .. } | Expr::Buffer { operand, .. } => {
            put_expr(cutter, operand, close.row.part)
        }
        Expr::Merge { one, zero, .. } => {
            put_expr(cutter, one, close.row.part);
            cutter.put_gap(1, close.row);
            put_expr(cutter, zero, close.row.part)
        }
        _ => {}
    }
    cutter.leave(expr, close)
}

// Puts parts in a row last.
#[cycle(cut)]
fn put_all(cutter: &mut Cutter<'_>, list: &[Expr], row: Row) {
    for (k, expr) in list.iter().enumerate() {
        cutter.put_gap(k, row);
        put_expr(cutter, expr, row.part);
    }
}
