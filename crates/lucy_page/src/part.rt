// Links and pictures.
ghost use Rattle.std.specs.Prelude.{◌≡◌, ◌++◌, OnOk};
ghost use Rattle.lucy_page.specs.Pages.{linked};

use lucy_svg::{put, put_escaped};
use std::alloc::{AllocError, Global};

/// Puts a text last that is linked to a place in the page.
pub(crate) fn put_link(place: &str, text: &[u8], out: &mut Vec<u8>) -> Result<(), AllocError>
    ensures { OnOk result (out.new.items ≡ out.old.items ++ linked place.now text.now) }
{
    put(out, "<a href=\"#")?;
    put_escaped(place.as_bytes(), out)?;
    put(out, "\">")?;
    put_escaped(text, out)?;
    put(out, "</a>")
}

/// Puts a text last that is made for that.
pub(crate) fn put_made(
    out: &mut Vec<u8>,
    made: Result<String, AllocError>,
) -> Result<(), AllocError> {
    put(out, &made?)
}

/// Puts a text last that is linked to a place in the page, whose name is made for that.
pub(crate) fn put_made_link(
    place: Result<String, AllocError>,
    text: &[u8],
    out: &mut Vec<u8>,
) -> Result<(), AllocError> {
    put_link(&place?, text, out)
}

/// Puts the begin of an SVG of this size last, in pixels.
pub(crate) fn begin_svg(
    alloc: Global,
    width: u64,
    height: u64,
    out: &mut Vec<u8>,
) -> Result<(), AllocError> {
    put_made(
        out,
        format!(in alloc;
            "<svg class=\"lucy\" width=\"{width}\" height=\"{height}\" viewBox=\"0 0 {width} {height}\">"
        ),
    )
}

/// Where a stream is defined, by the numbers of its node from 0 and of its place from 1.
pub(crate) fn definition(alloc: Global, node: u32, place: u32) -> Result<String, AllocError> {
    format!(in alloc; "d{node}-{place}")
}
