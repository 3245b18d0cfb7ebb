// A sheet to print on, and what is printed there of single tokens and of the blanks between them.
ghost use Rattle.std.specs.Prelude.{◌≡◌, ◌∷◌, ◌++◌, [], IfOk, Some, pos};
ghost use Rattle.lucy_token.specs.declared.token.What.TheVariants as what;
ghost use Rattle.lucy_grammar.specs.PrintTokens as spec;
ghost use Rattle.lucy_grammar.specs.Sheets.{Adds};

use lucy_host::DataType;
use lucy_token::Mark;
use lucy_tree::{Lit, Name};
use lucy_word::Word;
use std::alloc::{AllocError, Global};
use std::marker::Model;

/// What is printed so far. Once memory ran out, no more is, and in the end there is no text: so who prints has no way out but the
/// last. Contracts see the text, or nothing then.
#[derive(Drop)]
pub(crate) struct Sheet {
    alloc: Global,
    bytes: Vec<u8>,
    full: bool,
}

impl Model for Sheet {
    ghost use Rattle.std.specs.Prelude.{ℕ, List, Option, Some, None, if◌then◌else◌};

    ghost Value = { Option (List ℕ) };

    ghost view = { λ sheet. if sheet.full then None else Some sheet.bytes.items };
}

impl Sheet {
    /// An empty one.
    pub(crate) fn new(alloc: Global) -> Sheet
        ensures { result ≡ Some [] }
    {
        Sheet {
            alloc,
            bytes: Vec::new(alloc),
            full: false,
        }
    }

    /// The text.
    pub(crate) fn text(self) -> Result<Vec<u8>, AllocError>
        ensures { IfOk result (λ text. self ≡ Some text.items) }
    {
        let Sheet { bytes, full, .. } = self;
        if full {
            return Err(AllocError);
        }
        Ok(bytes)
    }

    /// These bytes.
    pub(crate) fn bytes(&mut self, bytes: &[u8])
        ensures { Adds bytes.now self.old self.new }
    {
        if self.full {
            return;
        }
        match self.bytes.extend_from_slice(bytes) {
            Ok(()) => {}
            Err(_) => self.full = true,
        }
    }

    /// A keyword or a sign.
    pub(crate) fn mark(&mut self, mark: Mark)
        ensures { Adds (spec.spaced_text (spec.the mark)) self.old self.new }
    {
        self.bytes(mark.text().as_bytes());
    }

    /// A blank.
    pub(crate) fn blank(&mut self)
        ensures { Adds spec.blank self.old self.new }
    {
        self.bytes(b" ");
    }

    /// A keyword or a sign, with a blank behind it.
    pub(crate) fn leading(&mut self, sign: Mark)
        ensures { Adds (spec.spaced_text (spec.the sign) ++ spec.blank) self.old self.new }
    {
        self.mark(sign);
        self.blank();
    }

    /// A keyword or a sign, with a blank before it and one behind it.
    pub(crate) fn between(&mut self, sign: Mark)
        ensures { Adds (32 ∷ (spec.spaced_text (spec.the sign) ++ spec.blank)) self.old self.new }
    {
        self.blank();
        self.leading(sign);
    }

    /// `, `
    pub(crate) fn comma(&mut self)
        ensures { Adds (44 ∷ spec.blank) self.old self.new }
    {
        self.bytes(b", ");
    }

    /// A name.
    pub(crate) fn name(&mut self, name: &Name)
        ensures { Adds (spec.spaced_text (spec.name_token name.now)) self.old self.new }
    {
        self.bytes(name.text.bytes());
    }

    /// A word.
    pub(crate) fn word(&mut self, word: &Word)
        ensures { Adds (spec.spaced_text (spec.word_token word.now)) self.old self.new }
    {
        if self.full {
            return;
        }
        match word.print(self.alloc, &mut self.bytes) {
            Ok(()) => {}
            Err(AllocError) => self.full = true,
        }
    }

    /// A literal.
    pub(crate) fn lit(&mut self, lit: Lit)
        ensures { Adds (spec.spaced_text (spec.lit_token lit)) self.old self.new }
    {
        match lit {
            Lit::Int(number) => self.number(number),
            Lit::Bool(true) => self.mark(Mark::True),
            Lit::Bool(false) => self.mark(Mark::False),
        }
    }

    fn number(&mut self, number: i64)
        ensures { Adds (spec.spaced_text (spec.one (what.Number number))) self.old self.new }
    {
        match format!(in self.alloc; "{number}") {
            Ok(text) => self.bytes(text.as_bytes()),
            Err(_) => self.full = true,
        }
    }

    /// A written bound.
    pub(crate) fn bound(&mut self, most: u64)
        ensures { Adds (spec.spaced_text (spec.one (what.Number (pos most)))) self.old self.new }
    {
        match format!(in self.alloc; "{most}") {
            Ok(text) => self.bytes(text.as_bytes()),
            Err(_) => self.full = true,
        }
    }
}

/// `when`, or with `flip` `whenot`.
pub(crate) fn when_mark(flip: bool) -> Mark
    ensures { result ≡ spec.when_mark flip }
{
    if flip { Mark::Whenot } else { Mark::When }
}

/// The keyword of a type.
pub(crate) fn type_mark(holds: DataType) -> Mark
    ensures { result ≡ spec.type_mark holds }
{
    match holds {
        DataType::Int => Mark::Int,
        DataType::Bool => Mark::Bool,
    }
}
