// Texts in XML.
ghost use Rattle.std.specs.Prelude.{List, ℕ, ◌≡◌, ◌++◌, Some, OnOk};
ghost use Rattle.lucy_svg.specs.Escaping.{escaped_byte, escaped, unescaped};

use std::alloc::AllocError;

// Puts these bytes last.
fn put(out: &mut Vec<u8>, bytes: &[u8]) -> Result<(), AllocError>
    ensures { OnOk result (out.new.items ≡ out.old.items ++ bytes.now) }
{
    out.extend_from_slice(bytes)?;
    Ok(())
}

// Puts a byte last, a mark of XML by its name.
fn put_byte(byte: u8, out: &mut Vec<u8>) -> Result<(), AllocError>
    ensures { OnOk result (out.new.items ≡ out.old.items ++ escaped_byte byte) }
{
    match byte {
        b'"' => put(out, b"&quot;"),
        b'&' => put(out, b"&amp;"),
        b'\'' => put(out, b"&#39;"),
        b'<' => put(out, b"&lt;"),
        b'>' => put(out, b"&gt;"),
        _ => put(out, &[byte]),
    }
}

/// Puts a text last as it stands in XML, in an element or between quotes: its marks by their names, so that no text ends what it stands in.
pub fn put_escaped(text: &[u8], out: &mut Vec<u8>) -> Result<(), AllocError>
    ensures { OnOk result (out.new.items ≡ out.old.items ++ escaped text.now) }
{
    'each: for byte in text {
        put_byte(*byte, out)?;
    }
    Ok(())
}

/// A text as it stands in XML is read as that text: no bare mark is in it.
pub fn escaped_texts_are_read_back()
    ensures { (text : List ℕ) → unescaped (escaped text) ≡ Some text }
{}
