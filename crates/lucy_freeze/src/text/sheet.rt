// What is written so far.
use lucy_tree::Lit;
use lucy_word::{Limit, Word};
use std::alloc::Global;

/// What is written so far. Where memory runs out, it is full, and what comes then may be left out. It is long where a word has more bits than
/// a written one may have.
#[derive(Drop)]
pub(crate) struct Sheet {
    pub alloc: Global,
    pub bytes: Vec<u8>,
    pub full: bool,
    pub long: bool,
}

impl Sheet {
    /// Nothing yet.
    pub(crate) fn new(alloc: Global) -> Sheet {
        Sheet {
            alloc,
            bytes: Vec::new(alloc),
            full: false,
            long: false,
        }
    }

    /// Puts these bytes last.
    pub(crate) fn put(&mut self, bytes: &[u8]) {
        let good = self.bytes.extend_from_slice(bytes).is_ok();
        self.full = self.full || !good;
    }

    /// Puts a text last.
    pub(crate) fn say(&mut self, text: &str) {
        self.put(text.as_bytes());
    }

    /// Puts a number last.
    pub(crate) fn number(&mut self, number: u64) {
        match format!(in self.alloc; "{number}") {
            Ok(text) => self.put(text.as_bytes()),
            Err(_) => self.full = true,
        }
    }

    /// Puts a name last that is made of another and a number.
    pub(crate) fn numbered(&mut self, base: &[u8], number: u64) {
        self.put(base);
        self.say("_");
        self.number(number);
    }

    /// Puts a literal last.
    pub(crate) fn literal(&mut self, literal: Lit) {
        match literal {
            Lit::Bool(true) => self.say("true"),
            Lit::Bool(false) => self.say("false"),
            Lit::Int(number) => match format!(in self.alloc; "{number}") {
                Ok(text) => self.put(text.as_bytes()),
                Err(_) => self.full = true,
            },
        }
    }

    /// Puts a word last.
    pub(crate) fn word(&mut self, word: &Word) {
        let (prefix, period) = word.lengths();
        if prefix.saturating_add(period) > Limit::Written.number() {
            self.long = true;
            return;
        }
        let good = word.print(self.alloc, &mut self.bytes).is_ok();
        self.full = self.full || !good;
    }

    /// Puts the word of a clock last, where there is one.
    pub(crate) fn clock(&mut self, word: Option<&Word>) {
        if let Some(word) = word {
            self.word(word);
        }
    }

    /// Puts what is written on another sheet last.
    pub(crate) fn add(&mut self, other: &Sheet) {
        self.put(&other.bytes);
        self.full = self.full || other.full;
        self.long = self.long || other.long;
    }
}
