// Texts and marks, as SVG. Lengths are in pixels.
ghost use Rattle.std.specs.Prelude.{List, ℕ, ◌≡◌, ◌++◌, string_bytes, IfOk, OnOk};
ghost use Rattle.lucy_picture.specs.Holding.{Extends};
ghost use Rattle.lucy_svg.specs.Labels.{width_of, front_of, label_begin, element_text, label_text, count_text, line_text};

use crate::escape::put_escaped;
use std::alloc::{AllocError, Global};

/// How texts of a class are set: how wide a letter is, and how many letters are shown.
#[derive(Clone, Copy)]
pub struct Font {
    pub class: &'static str,
    pub letter: u64,
    pub most: usize,
}

/// That of first lines.
pub const HEAD: Font = Font {
    class: "head",
    letter: 8,
    most: 96,
};

/// That of names.
pub const NAME: Font = Font {
    class: "name",
    letter: 8,
    most: 40,
};

/// That of words and notes.
pub const SMALL: Font = Font {
    class: "small",
    letter: 6,
    most: 52,
};

impl Font {
    /// How wide a text of so many letters is.
    pub fn width(&self, letters: usize) -> u64
        ensures { result ≡ width_of self.now letters }
    {
        (letters.min(self.most) as u64).saturating_mul(self.letter)
    }
}

/// Puts this text last.
pub fn put(out: &mut Vec<u8>, text: &str) -> Result<(), AllocError>
    ensures { OnOk result (out.new.items ≡ out.old.items ++ text.now) }
{
    out.extend_from_slice(text.as_bytes())?;
    Ok(())
}

/// Puts a text last that was made, where there was memory for it.
pub(crate) fn put_made(
    out: &mut Vec<u8>,
    made: Result<String, AllocError>,
) -> Result<(), AllocError>
    ensures is { (text : List ℕ) → IfOk made (λ s. string_bytes s ≡ text) → OnOk result (out.new.items ≡ out.old.items ++ text) }
    ensures more { OnOk result (Extends out.old.items out.new.items) }
{
    out.extend_from_slice(made?.as_bytes())?;
    Ok(())
}

// Puts so many letters of a text last, where it has more the last two as dots.
fn put_front(text: &[u8], most: usize, out: &mut Vec<u8>) -> Result<(), AllocError>
    ensures { OnOk result (out.new.items ≡ out.old.items ++ front_of most text.now) }
{
    if text.len() <= most {
        return put_escaped(text, out);
    }
    put_escaped(&text[..most.saturating_sub(2)], out)?;
    put(out, "..")
}

// Puts the begin of the element of a text last that is so wide.
fn put_begin(
    alloc: Global,
    font: &Font,
    at: (u64, u64),
    wide: u64,
    out: &mut Vec<u8>,
) -> Result<(), AllocError>
    ensures { OnOk result (out.new.items ≡ out.old.items ++ label_begin font.now at.0 at.1 wide) }
{
    let (x, y) = at;
    let class = font.class;
    let begin = format!(in alloc;
        "<text class=\"{class}\" x=\"{x}\" y=\"{y}\" textLength=\"{wide}\" lengthAdjust=\"spacingAndGlyphs\">"
    );
    put_made(out, begin)
}

// Puts the element of a text last.
fn put_element(
    alloc: Global,
    font: &Font,
    at: (u64, u64),
    text: &[u8],
    out: &mut Vec<u8>,
) -> Result<(), AllocError>
    ensures { OnOk result (out.new.items ≡ out.old.items ++ element_text font.now at.0 at.1 text.now) }
{
    let letters = text.len();
    let wide = font.width(letters);
    put_begin(alloc, font, at, wide, out)?;
    put_front(text, font.most, out)?;
    put(out, "</text>")
}

/// Puts a text last that begins at a point.
pub fn put_label(
    alloc: Global,
    font: &Font,
    at: (u64, u64),
    text: &[u8],
    out: &mut Vec<u8>,
) -> Result<(), AllocError>
    ensures { OnOk result (out.new.items ≡ out.old.items ++ label_text font.now at.0 at.1 text.now) }
{
    if text.len() == 0 {
        return Ok(());
    }
    put_element(alloc, font, at, text, out)?;
    Ok(())
}

/// Puts a text last that begins at a point and was made, where there was memory for it.
pub(crate) fn put_made_label(
    alloc: Global,
    font: &Font,
    at: (u64, u64),
    made: Result<String, AllocError>,
    out: &mut Vec<u8>,
) -> Result<(), AllocError>
    ensures { OnOk result (Extends out.old.items out.new.items) }
{
    put_label(alloc, font, at, made?.as_bytes(), out)?;
    Ok(())
}

/// Puts a number last whose middle is above or below a point.
pub(crate) fn put_count(
    alloc: Global,
    x: u64,
    y: u64,
    number: u64,
    out: &mut Vec<u8>,
) -> Result<(), AllocError>
    ensures { OnOk result (out.new.items ≡ out.old.items ++ count_text x y number) }
{
    let text = format!(in alloc; "<text class=\"count\" x=\"{x}\" y=\"{y}\">{number}</text>");
    put_made(out, text)
}

/// Puts a line last.
pub(crate) fn put_line(
    alloc: Global,
    class: &str,
    from: (u64, u64),
    to: (u64, u64),
    out: &mut Vec<u8>,
) -> Result<(), AllocError>
    ensures { OnOk result (out.new.items ≡ out.old.items ++ line_text class.now from.0 from.1 to.0 to.1) }
{
    let (x, y) = from;
    let (right, down) = to;
    let text = format!(in alloc; "<path class=\"{class}\" d=\"M{x} {y}L{right} {down}\"/>");
    put_made(out, text)
}
