// What stands before the lanes: names and words.
ghost use Rattle.std.specs.Prelude.{◌≡◌, ◌∷◌, ◌++◌, [], IfOk, OnOk};
ghost use Rattle.lucy_program.specs.Names.{place_name};
ghost use Rattle.lucy_picture.specs.Lines.{word_text};
ghost use Rattle.lucy_picture.specs.Holding.{Extends, Puts};
ghost use Rattle.lucy_svg.specs.Names.{told_by};
ghost use Rattle.lucy_svg.specs.Sheets.{IsLaneName, lane_name};

use crate::print::ink::{HEAD, NAME, SMALL, put, put_label, put_made, put_made_label};
use crate::told::Told;
use lucy_picture::{Fill, Row, put_place, put_word};
use lucy_place::PlacedNode;
use lucy_word::Word;
use std::alloc::{AllocError, Global};

// How far the names stand from the edge.
const EDGE: u64 = 8;

/// The names of a chronogram: those of a node, with its words, each linked to where it is defined where a number of the node is given.
#[derive(Drop)]
pub struct Side<'a> {
    pub node: &'a PlacedNode,
    pub words: &'a [Word],
    pub linked: Option<u32>,
    pub told: Told,
}

/// The text of the word of a place, by its number.
pub fn word_text(alloc: Global, words: &[Word], place: u32) -> Result<Vec<u8>, AllocError>
    ensures { IfOk result (λ v. v.items ≡ word_text words.now place) }
{
    let mut text = Vec::new(alloc);
    put_word(alloc, words, place, &mut text)?;
    Ok(text)
}

// How the size of a buffer is told, and when it is reached first.
fn size_text(alloc: Global, fill: &Fill) -> Result<String, AllocError> {
    let size = fill.size;
    match fill.full {
        Some(at) => format!(in alloc; "size {size}, first at {at}"),
        None => format!(in alloc; "size {size}, not reached here"),
    }
}

// How a buffer is told, with its bound where one is written.
fn buffer_text(alloc: Global, node: &PlacedNode, fill: &Fill) -> Result<String, AllocError> {
    let number = fill.buffer;
    let index = number.saturating_sub(1);
    match node.bounds.list().get(index as usize) {
        Some(Some(most)) => format!(in alloc; "buffer {number} at most {most}"),
        _ => format!(in alloc; "buffer {number}"),
    }
}

// The end of a link, where there is one.
fn link_end(linked: bool) -> &'static str {
    if linked { "</a>" } else { "" }
}

impl<'a> Side<'a> {
    // How wide the name and the word of a place are.
    fn width_of(&self, alloc: Global, place: u32) -> Result<u64, AllocError> {
        let name = self.told.text(alloc, self.node, place)?.len();
        let word = word_text(alloc, self.words, place)?.len();
        Ok(NAME.width(name.saturating_add(4)).max(SMALL.width(word)))
    }

    /// How wide they are, those of rows and of buffers.
    pub(crate) fn width(
        &self,
        alloc: Global,
        rows: &[Row],
        fills: &[Fill],
    ) -> Result<u64, AllocError> {
        let mut most = NAME.width(22);
        for row in rows {
            most = self.width_of(alloc, row.place)?.max(most);
        }
        for fill in fills {
            most = self.width_of(alloc, fill.operand)?.max(most);
            most = self.width_of(alloc, fill.place)?.max(most);
        }
        Ok(most.saturating_add(EDGE).saturating_add(EDGE))
    }

    // Puts the begin of a link last, to where the stream is defined by which a place is told, if there is one; answers whether there is.
    fn put_link(&self, alloc: Global, place: u32, out: &mut Vec<u8>) -> Result<bool, AllocError>
        ensures { OnOk result (Extends out.old.items out.new.items) }
    {
        let Some(number) = self.linked else {
            return Ok(false);
        };
        let Some(stream) = self.told.of(place) else {
            return Ok(false);
        };
        put_made(out, format!(in alloc; "<a href=\"#d{number}-{stream}\">"))?;
        Ok(true)
    }

    // How a place is told, behind a text.
    fn name_text(&self, alloc: Global, before: &str, place: u32) -> Result<Vec<u8>, AllocError>
        ensures { IfOk result (λ v. v.items ≡ before.now ++ place_name self.now.node.now (told_by self.now.told place)) }
    {
        let mut text = Vec::new(alloc);
        put(&mut text, before)?;
        put_place(
            alloc,
            self.node,
            self.told.of(place).unwrap_or(place),
            &mut text,
        )?;
        Ok(text)
    }

    // Puts a place last, behind a text.
    fn put_place(
        &self,
        alloc: Global,
        before: &str,
        place: u32,
        top: u64,
        out: &mut Vec<u8>,
    ) -> Result<(), AllocError>
        ensures { OnOk result (Puts (IsLaneName self.now.node.now self.now.told) (lane_name before.now place ∷ []) out.old.items out.new.items) }
    {
        let text = self.name_text(alloc, before, place)?;
        let y = top.saturating_add(13);
        put_label(alloc, &NAME, (EDGE, y), &text, out)?;
        Ok(())
    }

    // Puts the word of a place last.
    fn put_word(
        &self,
        alloc: Global,
        place: u32,
        top: u64,
        out: &mut Vec<u8>,
    ) -> Result<(), AllocError>
        ensures { OnOk result (Extends out.old.items out.new.items) }
    {
        let word = word_text(alloc, self.words, place)?;
        put_label(alloc, &SMALL, (EDGE, top.saturating_add(26)), &word, out)?;
        Ok(())
    }

    /// Puts a place last, behind a text, with its word below.
    pub(crate) fn put_name(
        &self,
        alloc: Global,
        before: &str,
        place: u32,
        top: u64,
        out: &mut Vec<u8>,
    ) -> Result<(), AllocError>
        ensures { OnOk result (Puts (IsLaneName self.now.node.now self.now.told) (lane_name before.now place ∷ []) out.old.items out.new.items) }
    {
        let linked = self.put_link(alloc, place, out)?;
        self.put_place(alloc, before, place, top, out)?;
        put(out, link_end(linked))?;
        self.put_word(alloc, place, top, out)
    }

    /// Puts what is told of a buffer last.
    pub(crate) fn put_buffer(
        &self,
        alloc: Global,
        fill: &Fill,
        top: u64,
        out: &mut Vec<u8>,
    ) -> Result<(), AllocError>
        ensures { OnOk result (Extends out.old.items out.new.items) }
    {
        let (upper, lower) = (top.saturating_add(16), top.saturating_add(28));
        let name = buffer_text(alloc, self.node, fill);
        put_made_label(alloc, &HEAD, (EDGE, upper), name, out)?;
        let size = size_text(alloc, fill);
        put_made_label(alloc, &SMALL, (EDGE, lower), size, out)
    }

    /// Puts what a band shows last.
    pub(crate) fn put_note(
        &self,
        alloc: Global,
        text: &str,
        y: u64,
        out: &mut Vec<u8>,
    ) -> Result<(), AllocError>
        ensures { OnOk result (Extends out.old.items out.new.items) }
    {
        put_label(alloc, &SMALL, (EDGE, y), text.as_bytes(), out)?;
        Ok(())
    }
}
