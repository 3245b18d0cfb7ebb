// A text that is copied with insertions.
use crate::text::sheet::Sheet;
use lucy_token::{Kind, Mark};
use lucy_tree::Decl;
use lucy_word::Word;
use std::alloc::Global;

/// A token: its kind, and where it stands in the text.
#[derive(Clone, Copy)]
pub(crate) struct Lexeme {
    pub kind: Kind,
    pub from: usize,
    pub to: usize,
}

/// A text up to some offset, with insertions, and the token that comes next.
#[derive(Drop)]
pub(crate) struct Writer<'a> {
    text: &'a [u8],
    lexemes: &'a [Lexeme],
    next: usize,
    copied: usize,
    pub sheet: Sheet,
}

// The bytes between two offsets.
fn between(text: &[u8], from: usize, to: usize) -> &[u8] {
    let to = to.min(text.len());
    &text[from.min(to)..to]
}

// How the line of an offset begins: its blanks, at least two.
fn indent_of(text: &[u8], offset: usize) -> &[u8] {
    let front = between(text, 0, offset);
    let line = match front.iter().rposition(|byte| *byte == b'\n') {
        Some(end) => between(front, end.saturating_add(1), front.len()),
        None => front,
    };
    let count = line.iter().position(|byte| *byte != b' ' && *byte != b'\t');
    let blanks = match count {
        Some(count) => between(line, 0, count),
        None => line,
    };
    if blanks.len() < 2 { b"  " } else { blanks }
}

// The offset behind a comment that begins at an offset, if one does, with the blanks before it.
fn comment_end(text: &[u8], offset: usize) -> Option<usize> {
    let rest = between(text, offset, text.len());
    let blanks = rest
        .iter()
        .position(|byte| *byte != b' ' && *byte != b'\t')?;
    let comment = between(rest, blanks, rest.len()).strip_prefix(b"(*")?;
    let end = comment
        .windows(2)
        .position(|pair| pair == b"*)".as_slice())?;
    let inside = blanks.saturating_add(end).saturating_add(4);
    Some(offset.saturating_add(inside))
}

// The offset behind the comments that begin on the line of an offset, one behind the other.
fn comments_end(text: &[u8], offset: usize) -> usize {
    let mut end = offset;
    for _ in offset..text.len() {
        match comment_end(text, end) {
            Some(behind) => end = behind,
            None => return end,
        }
    }
    end
}

impl<'a> Writer<'a> {
    /// Nothing copied yet.
    pub(crate) fn new(alloc: Global, text: &'a [u8], lexemes: &'a [Lexeme]) -> Writer<'a> {
        Writer {
            text,
            lexemes,
            next: 0,
            copied: 0,
            sheet: Sheet::new(alloc),
        }
    }

    /// The allocator.
    pub(crate) fn alloc(&self) -> Global {
        self.sheet.alloc
    }

    /// Copies up to an offset.
    pub(crate) fn copy_to(&mut self, offset: usize) {
        let text = self.text;
        self.sheet.put(between(text, self.copied, offset));
        self.copied = self.copied.max(offset);
    }

    /// Copies the rest of the text.
    pub(crate) fn copy_rest(&mut self) {
        self.copy_to(self.text.len());
    }

    /// Goes on to the token at an offset.
    pub(crate) fn seek(&mut self, offset: usize) {
        let lexemes = self.lexemes;
        for i in self.next..lexemes.len() {
            if lexemes[i].from >= offset {
                self.next = i;
                return;
            }
        }
        self.next = lexemes.len();
    }

    // The token of a number, counted from the next one.
    fn ahead(&self, number: usize) -> Option<Lexeme> {
        self.lexemes.get(self.next.saturating_add(number)).copied()
    }

    /// Whether a token, counted from the next one, is this mark.
    pub(crate) fn is_at(&self, number: usize, mark: Mark) -> bool {
        match self.ahead(number) {
            Some(lexeme) => lexeme.kind == Kind::Mark(mark),
            None => false,
        }
    }

    // Where the declaration ends whose name comes next: behind its type, where it has one.
    fn decl_end(&self) -> usize {
        let last = if self.is_at(1, Mark::Colon) { 2 } else { 0 };
        match self.ahead(last) {
            Some(lexeme) => lexeme.to,
            None => self.text.len(),
        }
    }

    /// Writes the word of a declaration behind it, where it isn't written.
    pub(crate) fn declare(&mut self, decl: &Decl, word: Option<&Word>) {
        self.seek(decl.name.span.from as usize);
        if decl.word.is_some() {
            return;
        }
        self.copy_to(self.decl_end());
        self.sheet.say(" :: ");
        self.sheet.clock(word);
    }

    // The first token of a right side: behind the next sign that defines.
    fn right_begin(&self) -> usize {
        let lexemes = self.lexemes;
        for i in self.next..lexemes.len() {
            if lexemes[i].kind == Kind::Mark(Mark::Equals) {
                return i.saturating_add(1);
            }
        }
        lexemes.len()
    }

    // The token behind a right side that begins at another: of the next definition or the next node, or behind the last one.
    fn right_end(&self, begin: usize) -> usize {
        let lexemes = self.lexemes;
        for i in begin..lexemes.len() {
            let kind = lexemes[i].kind;
            if kind == Kind::Mark(Mark::And) || kind == Kind::Mark(Mark::Let) {
                return i;
            }
        }
        lexemes.len()
    }

    // Copies the comments between tokens, the second of which stands behind the last.
    fn copy_comments(&mut self, begin: usize, end: usize) {
        let text = self.text;
        let lexemes = self.lexemes;
        for i in begin.saturating_add(1)..end {
            if let (Some(before), Some(behind)) = (
                lexemes.get(i.saturating_sub(1)),
                lexemes.get(i),
            ) {
                let comments = between(text, before.to, behind.from).trim_ascii();
                if !comments.is_empty() {
                    self.sheet.say(" ");
                    self.sheet.put(comments);
                }
            }
        }
    }

    /// Puts another right side in the place of the next one, and behind it the comments in that and those that begin on its last line.
    pub(crate) fn replace_right(&mut self, right: &Sheet) {
        let begin = self.right_begin();
        let end = self.right_end(begin);
        let lexemes = self.lexemes;
        let (Some(first), Some(last)) = (lexemes.get(begin), lexemes.get(end.saturating_sub(1)))
        else {
            return;
        };
        self.copy_to(first.from);
        self.sheet.add(right);
        self.copy_comments(begin, end);
        self.copied = last.to;
        self.next = end;
        self.copy_to(comments_end(self.text, last.to));
    }

    /// Puts the beginning of another definition, as far in as the line of an offset is.
    pub(crate) fn begin_def(&mut self, offset: usize) {
        let text = self.text;
        self.sheet.say("\n");
        self.sheet.put(indent_of(text, offset));
        self.sheet.say("and ");
    }
}
