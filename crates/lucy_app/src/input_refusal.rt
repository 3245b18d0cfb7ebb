// Why the input of `order` has no answer: each cause with its status and its line.
ghost use Rattle.std.specs.Prelude.{◌≡◌, IfOk};
ghost use Rattle.lucy_app.specs.InputRefusals.{input_told};

use crate::limit::limit_text;
use lucy_word::Limit;
use std::alloc::{AllocError, Global};

/// Why the input of `order` has no answer.
#[derive(Drop)]
pub enum InputCause {
    /// It has so many words, where two are wanted.
    Count(usize),
    /// The field with the first number, from 1, spells no word. The second number is the offset within the field of its first
    /// byte that doesn't fit, or the field's length where more bytes are missing.
    BadWord(u64, u64),
    /// The word with this number, from 1, has no one in its period.
    NoOne(u64),
    /// It passes a limit.
    Limit(Limit),
}

impl InputCause {
    /// The status that the program ends with.
    pub fn status(&self) -> u8
        ensures { result ≡ (input_told self.now).0 }
    {
        match self {
            InputCause::Count(_) => 3,
            InputCause::BadWord(_, _) => 3,
            InputCause::NoOne(_) => 3,
            InputCause::Limit(_) => 6,
        }
    }

    /// The line on the fault sink.
    pub fn line(&self, alloc: Global) -> Result<Vec<u8>, AllocError>
        ensures { IfOk result (λ v. v.items ≡ (input_told self.now).1) }
    {
        let line = match self {
            InputCause::Count(count) => format!(in alloc; "lucy: input: {count} words, 2 wanted\n"),
            InputCause::BadWord(number, at) => {
                format!(in alloc; "lucy: input word {number}: bad at {at}\n")
            }
            InputCause::NoOne(number) => {
                format!(in alloc; "lucy: input word {number}: no one in the period\n")
            }
            InputCause::Limit(limit) => {
                return limit_text(alloc, *limit);
            }
        };
        Ok(line?.into_bytes())
    }
}
