// What is written, and the spans of which is told.
use lucy_picture::{put_kind, put_place, put_spot, spot_of};
use lucy_place::{PlaceKind, PlacedNode};
use lucy_tree::{Expr, Span};
use lucy_word::Word;
use std::alloc::{AllocError, Global};

/// What is told of a text so far. Where memory runs out, it is full, and what comes then may be left out.
#[derive(Drop)]
pub(crate) struct Page<'a> {
    pub alloc: Global,
    pub text: &'a [u8],
    pub out: Vec<u8>,
    /// The spans of which is told, in order.
    pub spans: Vec<Span>,
    /// The clocks that are named, in order, of which is to be told where they stand.
    pub clocks: Vec<u32>,
    pub full: bool,
}

impl<'a> Page<'a> {
    /// Nothing told yet.
    pub(crate) fn new(alloc: Global, text: &'a [u8]) -> Page<'a> {
        Page {
            alloc,
            text,
            out: Vec::new(alloc),
            spans: Vec::new(alloc),
            clocks: Vec::new(alloc),
            full: false,
        }
    }

    // Whether something was put last.
    fn done(&mut self, good: bool) {
        self.full = self.full || !good;
    }

    /// Puts these bytes last.
    pub(crate) fn put(&mut self, bytes: &[u8]) {
        let good = self.out.extend_from_slice(bytes).is_ok();
        self.done(good);
    }

    /// Puts a text last.
    pub(crate) fn say(&mut self, text: &str) {
        self.put(text.as_bytes());
    }

    /// Puts a number last.
    pub(crate) fn number(&mut self, number: u64) {
        match format!(in self.alloc; "{number}") {
            Ok(text) => self.put(text.as_bytes()),
            Err(_) => self.full = true,
        }
    }

    /// Puts bytes last between the marks of what stands in a program.
    pub(crate) fn quote(&mut self, bytes: &[u8]) {
        self.put(b"`");
        self.put(bytes);
        self.put(b"`");
    }

    /// Puts a word last.
    pub(crate) fn word(&mut self, word: &Word) {
        let good = word.print(self.alloc, &mut self.out).is_ok();
        self.done(good);
    }

    /// Puts the name of a place last.
    pub(crate) fn place(&mut self, node: &PlacedNode, place: u32) {
        let good = put_place(self.alloc, node, place, &mut self.out).is_ok();
        self.done(good);
    }

    /// Puts what stands at a place last.
    pub(crate) fn kind(&mut self, node: &PlacedNode, kind: &PlaceKind, form: Option<&Expr>) {
        let good = put_kind(self.alloc, node, kind, form, &mut self.out).is_ok();
        self.done(good);
    }

    /// The bytes of a span.
    pub(crate) fn bytes(&self, span: Span) -> &'a [u8] {
        let text = self.text;
        let to = (span.to as usize).min(text.len());
        let from = (span.from as usize).min(to);
        &text[from..to]
    }

    /// Puts line and column of an offset last.
    pub(crate) fn at(&mut self, offset: usize) {
        let spot = spot_of(self.text, offset.min(self.text.len()));
        self.say("line ");
        self.number(spot.line as u64);
        self.say(", column ");
        self.number(spot.column as u64);
    }

    /// Keeps a span of which is told.
    pub(crate) fn keep(&mut self, span: Span) {
        let good = self.spans.push(span).is_ok();
        self.done(good);
    }

    /// Keeps a clock that is named.
    pub(crate) fn name(&mut self, clock: u32) {
        let good = self.clocks.push(clock).is_ok();
        self.done(good);
    }

    /// Puts the line of an offset last, with a mark below it.
    pub(crate) fn show(&mut self, offset: usize) {
        let offset = offset.min(self.text.len());
        let good = put_spot(self.alloc, self.text, offset, &mut self.out).is_ok();
        self.done(good);
    }

    /// Puts the line of a span last, with a mark below it, and keeps the span.
    pub(crate) fn show_span(&mut self, span: Span) {
        self.keep(span);
        self.show(span.from as usize);
    }

    /// Puts what helps last.
    pub(crate) fn helps(&mut self, text: &str) {
        self.say("what helps: ");
        self.say(text);
        self.say("\n");
    }

    /// What is told, and the spans of which is told.
    pub(crate) fn told(self) -> Result<(Vec<u8>, Vec<Span>), AllocError> {
        let Page {
            out,
            spans,
            full,
            ..
        } = self;
        if full {
            Err(AllocError)
        } else {
            Ok((out, spans))
        }
    }
}
