// Lanes of marks, each at an instant.
ghost use Rattle.std.specs.Prelude.{◌≡◌, ◌-◌, ◌*◌, ◌^◌, ◌∷◌, ◌++◌, [], flat_map, min, OnOk};
ghost use Rattle.lucy_picture.specs.Holding.{Extends, Puts};
ghost use Rattle.lucy_svg.specs.Sheets.{IsLane, of_marks, of_items};
ghost use Rattle.lucy_svg.specs.Sheets as spec;

use crate::join::Join;
use crate::print::ink::{put, put_count, put_line, put_made};
use lucy_picture::Turn;
use std::alloc::{AllocError, Global};

/// The lanes of a chronogram: how many instants they have, and how wide each is, in pixels.
#[derive(Clone, Copy)]
pub struct Lanes {
    pub shown: u64,
    pub cell: u64,
}

impl Lanes {
    /// How wide they are.
    pub(crate) fn width(&self) -> u64
        ensures { result ≡ min (self.now.shown * self.now.cell) (2 ^ 64 - 1) }
    {
        self.shown.saturating_mul(self.cell)
    }

    // The middle of an instant, from 1.
    fn middle(&self, instant: u64) -> u64
        ensures { result ≡ spec.middle self.now.cell instant }
    {
        instant
            .saturating_mul(self.cell)
            .saturating_sub(self.cell / 2)
    }

    /// Where an instant ends.
    pub(crate) fn end(&self, instant: u64) -> u64 {
        instant.saturating_mul(self.cell)
    }

    // Puts the number of an instant last, where it is one of every ten, from the first on.
    fn put_tick(
        &self,
        alloc: Global,
        instant: u64,
        y: u64,
        out: &mut Vec<u8>,
    ) -> Result<(), AllocError>
        ensures { OnOk result (Extends out.old.items out.new.items) }
    {
        if instant % 10 != 1 {
            return Ok(());
        }
        put_count(alloc, self.middle(instant), y, instant, out)?;
        Ok(())
    }

    /// Puts the numbers of every tenth instant last, from the first on.
    pub(crate) fn put_ruler(
        &self,
        alloc: Global,
        y: u64,
        out: &mut Vec<u8>,
    ) -> Result<(), AllocError>
        ensures { OnOk result (Extends out.old.items out.new.items) }
    {
        'each: for i in 0..self.shown {
            self.put_tick(alloc, i + 1, y, out)?;
        }
        Ok(())
    }

    // Puts a line last behind an instant, where a period begins there.
    fn put_turn(
        &self,
        alloc: Global,
        turn: Option<Turn>,
        instant: u64,
        top: u64,
        bottom: u64,
        out: &mut Vec<u8>,
    ) -> Result<(), AllocError>
        ensures { OnOk result (Extends out.old.items out.new.items) }
    {
        if !begins(turn, instant) {
            return Ok(());
        }
        let x = self.end(instant);
        put_line(alloc, "turn", (x, top), (x, bottom), out)?;
        Ok(())
    }

    /// Puts a line last where each period begins.
    pub(crate) fn put_turns(
        &self,
        alloc: Global,
        turn: Option<Turn>,
        top: u64,
        bottom: u64,
        out: &mut Vec<u8>,
    ) -> Result<(), AllocError>
        ensures { OnOk result (Extends out.old.items out.new.items) }
    {
        'each: for i in 1..self.shown {
            self.put_turn(alloc, turn, i, top, bottom, out)?;
        }
        Ok(())
    }

    // Puts the point of a mark last, where there is one.
    fn put_point(
        &self,
        alloc: Global,
        y: u64,
        instant: u64,
        mark: bool,
        out: &mut Vec<u8>,
    ) -> Result<(), AllocError>
        ensures { OnOk result (out.new.items ≡ out.old.items ++ spec.point self.now.cell y instant mark) }
    {
        if mark {
            let x = self.middle(instant);
            put_made(out, format!(in alloc; "M{x} {y}h0"))
        } else {
            Ok(())
        }
    }

    // Puts the points of marks last, one at each instant that has one.
    fn put_points(
        &self,
        alloc: Global,
        marks: &[bool],
        y: u64,
        out: &mut Vec<u8>,
    ) -> Result<(), AllocError>
        ensures { OnOk result (out.new.items ≡ out.old.items ++ spec.points self.now.cell y 1 marks.now) }
    {
        'each: for (i, mark) in marks.iter().enumerate() {
            self.put_point(alloc, y, i as u64 + 1, *mark, out)?;
        }
        Ok(())
    }

    /// Puts a lane of marks last, of this class, at a height.
    pub(crate) fn put_marks(
        &self,
        alloc: Global,
        class: &str,
        marks: &[bool],
        y: u64,
        out: &mut Vec<u8>,
    ) -> Result<(), AllocError>
        ensures { OnOk result (Puts (IsLane self.now.cell) (of_marks marks.now ∷ []) out.old.items out.new.items) }
    {
        put_line(alloc, "rail", (0, y), (self.width(), y), out)?;
        put_made(out, format!(in alloc; "<path class=\"{class}\" d=\""))?;
        self.put_points(alloc, marks, y, out)?;
        put(out, "\"/>")?;
        Ok(())
    }

    // Puts the line of an item last.
    fn put_join(
        &self,
        alloc: Global,
        join: Join,
        top: u64,
        bottom: u64,
        out: &mut Vec<u8>,
    ) -> Result<(), AllocError>
        ensures { OnOk result (out.new.items ≡ out.old.items ++ spec.join_line self.now.cell top bottom join) }
    {
        let from = self.middle(join.written);
        let to = self.middle(join.read);
        put_made(out, format!(in alloc; "M{from} {top}L{to} {bottom}"))
    }

    // Puts those of items last.
    fn put_lines(
        &self,
        alloc: Global,
        joins: &[Join],
        top: u64,
        bottom: u64,
        out: &mut Vec<u8>,
    ) -> Result<(), AllocError>
        ensures { OnOk result (out.new.items ≡ out.old.items ++ flat_map (spec.join_line self.now.cell top bottom) joins.now) }
    {
        'each: for join in joins {
            self.put_join(alloc, *join, top, bottom, out)?;
        }
        Ok(())
    }

    /// Puts a line last for each item, from where it is written to where it is read.
    pub(crate) fn put_joins(
        &self,
        alloc: Global,
        joins: &[Join],
        top: u64,
        bottom: u64,
        out: &mut Vec<u8>,
    ) -> Result<(), AllocError>
        ensures { OnOk result (Puts (IsLane self.now.cell) (of_items joins.now ∷ []) out.old.items out.new.items) }
    {
        put(out, "<path class=\"join\" d=\"")?;
        self.put_lines(alloc, joins, top, bottom, out)?;
        put(out, "\"/>")?;
        Ok(())
    }

    /// Puts numbers last, one at each instant.
    pub(crate) fn put_numbers(
        &self,
        alloc: Global,
        numbers: &[u64],
        y: u64,
        out: &mut Vec<u8>,
    ) -> Result<(), AllocError>
        ensures { OnOk result (Extends out.old.items out.new.items) }
    {
        'each: for (i, number) in numbers.iter().enumerate() {
            let x = self.middle((i as u64).saturating_add(1));
            put_count(alloc, x, y, *number, out)?;
        }
        Ok(())
    }

    /// Puts a frame last round an instant, where one is given.
    pub(crate) fn put_frame(
        &self,
        alloc: Global,
        instant: Option<u64>,
        top: u64,
        height: u64,
        out: &mut Vec<u8>,
    ) -> Result<(), AllocError>
        ensures { OnOk result (Extends out.old.items out.new.items) }
    {
        let Some(instant) = instant else {
            return Ok(());
        };
        let x = self.end(instant.saturating_sub(1));
        let cell = self.cell;
        let frame = format!(in alloc;
            "<rect class=\"full\" x=\"{x}\" y=\"{top}\" width=\"{cell}\" height=\"{height}\" rx=\"3\"/>"
        );
        put_made(out, frame)
    }
}

// Whether a period begins behind an instant.
fn begins(turn: Option<Turn>, instant: u64) -> bool {
    let Some(turn) = turn else {
        return false;
    };
    if instant < turn.prefix || turn.period == 0 {
        return false;
    }
    (instant - turn.prefix) % turn.period == 0
}
