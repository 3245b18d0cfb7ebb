// Whether bytes are a name.
ghost use Rattle.std.specs.Prelude.{◌≡◌, ◌↔◌, IsTrue};
ghost use Rattle.lucy_token.specs.Written.{IsNameText, is_name_text};

use crate::front::{head, is_letter, name_len, named_in};
use crate::mark::KEYWORDS;
use crate::token::Kind;
use lucy_word::Limit;

// Whether what makes a name holds of the bytes.
fn has_form(bytes: &[u8]) -> bool
    ensures { result ≡ is_name_text bytes.now }
{
    if !is_letter(head(bytes)) || name_len(bytes) != bytes.len() {
        return false;
    }
    if bytes.len() as u64 > Limit::Name.number() {
        return false;
    }
    match named_in(&KEYWORDS, bytes) {
        Kind::Name => true,
        _ => false,
    }
}

/// Whether the bytes are a name: a letter or `_`, then letters, digits and `_`, at most 255 bytes, and no keyword.
pub fn is_name(bytes: &[u8]) -> bool
    ensures is { result ≡ is_name_text bytes.now }
    ensures name { IsTrue result ↔ IsNameText bytes.now }
{
    has_form(bytes)
}
