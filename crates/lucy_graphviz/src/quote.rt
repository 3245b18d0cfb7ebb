// Texts between quotes, so that none of them ends its quotes.
ghost use Rattle.std.specs.Prelude.{ℕ, List, ◌≡◌, ◌≢◌, ◌∷◌, ◌++◌, [], Some, false, OnOk};
ghost use Rattle.std.specs.List.{AllByRecursion};
ghost use Rattle.lucy_graphviz.specs.Quotes.{byte_in_label, in_label, quoted, read_quoted};

use std::alloc::AllocError;

// Puts a byte last as it stands between quotes.
fn put_byte(byte: u8, out: &mut Vec<u8>) -> Result<(), AllocError>
    ensures { OnOk result (out.new.items ≡ out.old.items ++ byte_in_label byte) }
{
    match byte {
        b'"' => out.extend_from_slice(b"\\\""),
        b'\\' => out.extend_from_slice(b"\\\\"),
        b'\n' => out.extend_from_slice(b"\\n"),
        _ => out.extend_from_slice(&[byte]),
    }
}

// Puts a text last as it stands between quotes.
fn put_escaped(text: &[u8], out: &mut Vec<u8>) -> Result<(), AllocError>
    ensures { OnOk result (out.new.items ≡ out.old.items ++ in_label text.now) }
{
    'each: for byte in text {
        put_byte(*byte, out)?;
    }
    Ok(())
}

/// Puts a text last between quotes, which no byte of it ends.
pub fn put_quoted(text: &[u8], out: &mut Vec<u8>) -> Result<(), AllocError>
    ensures { OnOk result (out.new.items ≡ out.old.items ++ quoted text.now) }
{
    out.extend_from_slice(b"\"")?;
    put_escaped(text, out)?;
    out.extend_from_slice(b"\"")
}

/// What is quoted ends where it is closed, and reads as the text of a label; and no line feed stands between the quotes.
pub fn quoted_texts_read_back()
    ensures reads { (text rest : List ℕ) → read_quoted false (in_label text ++ 34 ∷ rest) ≡ Some (record { text = text; rest = rest }) }
    ensures line_feeds { (text : List ℕ) → AllByRecursion (λ byte. byte ≢ 10) (in_label text) }
{}
