// The fields of a text, one after the other.
ghost use Rattle.std.specs.Prelude.{◌≡◌, ◌≤◌, drop, length, take, ◌-◌, ◌∷◌, [], None, IfSome};
ghost use Rattle.lucy_fields.specs.Fields.{is_blank, fields, fields_from};
ghost use Rattle.lucy_fields.specs.Steps.{BeginsGap, BeginsField, IsFull};

use std::marker::Model;

/// Whether it is a space, a tab, CR or LF.
pub fn is_blank(byte: u8) -> bool
    ensures { result ≡ is_blank byte }
{
    byte == b' ' || byte == b'\t' || byte == b'\r' || byte == b'\n'
}

// Where the first byte that is no blank stands, from a place on, or the end.
fn past_blanks(text: &[u8], from: usize) -> usize
    requires { from ≤ length text.now }
    ensures within { result ≤ length text.now }
    ensures stops { BeginsField (drop result text.now) }
    ensures same { fields_from result (drop result text.now) ≡ fields_from from (drop from text.now) }
{
    let mut at = from;
    'blanks: while at < text.len() && is_blank(text[at]) {
        at += 1;
    }
    at
}

// Where the first blank stands, from a place on, or the end.
fn past_field(text: &[u8], from: usize) -> usize
    requires { from ≤ length text.now }
    ensures from_there { from ≤ result }
    ensures within { result ≤ length text.now }
    ensures full { IsFull (take (result - from) (drop from text.now)) }
    ensures stops { BeginsGap (drop result text.now) }
{
    let mut at = from;
    'field: while at < text.len() && !is_blank(text[at]) {
        at += 1;
    }
    at
}

/// The fields of a text, in order. Contracts see those that are left, each with the offset of its first byte in the text, which
/// counts from 0.
#[derive(Drop)]
pub struct Fields<'a> {
    text: &'a [u8],
    at: usize,
}

impl<'a> Model for Fields<'a> {
    ghost use Rattle.std.specs.Prelude.{List, ℕ, drop, length, ◌≤◌};
    ghost use Rattle.lucy_fields.specs.Fields.{fields_from};

    ghost Value = { List (ℕ × List ℕ) };

    ghost view = { λ f. fields_from f.at (drop f.at f.text.now) };

    ghost invariant = { λ f. f.at ≤ length f.text.now };
}

impl<'a> Fields<'a> {
    /// The fields of a text.
    pub fn new(text: &'a [u8]) -> Fields<'a>
        ensures { result ≡ fields text.now }
    {
        Fields { text, at: 0 }
    }

    /// The next field, with the offset of its first byte. It takes a step for each byte that it passes, and no memory.
    pub fn next(&mut self) -> Option<(u64, &'a [u8])>
        ensures some { IfSome result (λ f. self.old ≡ (f.0, f.1.now) ∷ self.new) }
        ensures none { result ≡ None → (self.old ≡ []) × (self.new ≡ []) }
    {
        let from = past_blanks(self.text, self.at);
        let end = past_field(self.text, from);
        self.at = end;
        if end == from {
            return None;
        }
        Some((from as u64, &self.text[from..end]))
    }
}
