// How a chronogram is laid out: names at the left, and lanes behind them.
ghost use Rattle.std.specs.Prelude.{◌≡◌, ◌-◌, ◌*◌, ◌<◌, ◌^◌, ◌∷◌, [], Some, length, map, min, slice_get, IfOk, OnOk};
ghost use Rattle.lucy_picture.specs.Holding.{Extends, Puts};
ghost use Rattle.lucy_svg.specs.Names.{AreTold};
ghost use Rattle.lucy_svg.specs.Sheets.{of_marks, of_items, IsLaneName, IsLane, buffer_names, buffer_lanes, row_name, row_lane, fill_names, fill_lanes, names_of, lanes_of};

use crate::drawing::Drawing;
use crate::flow::{Flow, fill_at};
use crate::print::band::{Band, most_of};
use crate::print::ink::put_line;
use crate::print::lane::Lanes;
use crate::print::side::Side;
use crate::told::Told;
use lucy_picture::{Fill, Row, Turn};
use lucy_place::PlacedNode;
use lucy_word::Word;
use std::alloc::{AllocError, Global};

// How high the ruler is, a stream, the head of a buffer, and what lies between what goes in and what comes out.
const RULER: u64 = 24;

const ROW: u64 = 34;

const HEAD: u64 = 40;

const GAP: u64 = 24;

/// A chronogram that is laid out, in pixels.
#[derive(Drop)]
pub struct Sheet<'a> {
    /// What is told of its names.
    pub side: Side<'a>,
    /// Where its instants are.
    pub lanes: Lanes,
    /// What it shows.
    pub drawing: &'a Drawing,
    turn: Option<Turn>,
    /// How wide the names are.
    pub names: u64,
    /// How wide the lanes are.
    pub width: u64,
    /// How high both are.
    pub height: u64,
}

// How wide an instant is, for the greatest number in it.
fn cell_of(fills: &[Fill]) -> u64 {
    let mut most = 0;
    for fill in fills {
        most = fill.size.max(most);
    }
    let more = u64::from(most.checked_ilog10().unwrap_or(0));
    more.saturating_mul(6).saturating_add(12).max(16)
}

// Where the lanes of a buffer end, for the top of its head.
fn joins_end(top: u64) -> u64 {
    top.saturating_add(HEAD + ROW + GAP + ROW)
}

// The band of the counts of a buffer below its lanes.
fn counts_band(flow: &Flow, top: u64) -> Band {
    let most = most_of(flow.written.list());
    Band {
        top: joins_end(top).saturating_add(12),
        height: most.saturating_mul(4).max(24).min(96),
        most,
    }
}

// The band of what waits below that.
fn waits_band(fill: &Fill, counts: &Band) -> Band {
    Band {
        top: counts.bottom().saturating_add(16),
        height: fill.size.saturating_mul(10).max(20).min(60),
        most: fill.size,
    }
}

// Where a buffer ends, for the top of its head.
fn fill_end(fill: &Fill, flow: &Flow, top: u64) -> u64 {
    let counts = counts_band(flow, top);
    waits_band(fill, &counts).bottom().saturating_add(26)
}

// How high all is.
fn height_of(drawing: &Drawing) -> u64 {
    let rows = drawing.chart.rows.len() as u64;
    let mut top = rows.saturating_mul(ROW).saturating_add(RULER);
    for (fill, flow) in drawing.chart.fills.iter().zip(drawing.flows.iter()) {
        top = fill_end(fill, flow, top);
    }
    top
}

impl<'a> Sheet<'a> {
    /// The chronogram of a node, with the words of its clocks, which comes again as it is said, at so many instants; its names are linked
    /// to where they are defined where the node's number is given.
    pub fn new(
        alloc: Global,
        node: &'a PlacedNode,
        words: &'a [Word],
        linked: Option<u32>,
        turn: Option<Turn>,
        shown: u64,
        drawing: &'a Drawing,
    ) -> Result<Sheet<'a>, AllocError>
        ensures node { IfOk result (λ s. s.side.node.now ≡ node.now) }
        ensures told { IfOk result (λ s. AreTold node.now s.side.told) }
        ensures drawing { IfOk result (λ s. s.drawing.now ≡ drawing.now) }
        ensures width { IfOk result (λ s. s.width ≡ min (shown * s.lanes.cell) (2 ^ 64 - 1)) }
    {
        let cell = cell_of(&drawing.chart.fills);
        let lanes = Lanes { shown, cell };
        let side = Side {
            node,
            words,
            linked,
            told: Told::new(alloc, node)?,
        };
        let names = side.width(alloc, &drawing.chart.rows, &drawing.chart.fills)?;
        Ok(Sheet {
            side,
            lanes,
            drawing,
            turn,
            names,
            width: lanes.width(),
            height: height_of(drawing),
        })
    }

    // Puts what is told of a buffer and its bands last.
    fn put_fill_names(
        &self,
        alloc: Global,
        fill: &Fill,
        flow: &Flow,
        top: u64,
        out: &mut Vec<u8>,
    ) -> Result<(), AllocError>
        ensures { OnOk result (Puts (IsLaneName self.now.side.node.now self.now.side.told) (buffer_names fill.now) out.old.items out.new.items) }
    {
        let side = &self.side;
        let counts = counts_band(flow, top);
        let waits = waits_band(fill, &counts);
        side.put_buffer(alloc, fill, top, out)?;
        let lane = top.saturating_add(HEAD);
        side.put_name(alloc, "in ", fill.operand, lane, out)?;
        let lane = lane.saturating_add(ROW + GAP);
        side.put_name(alloc, "out ", fill.place, lane, out)?;
        side.put_note(alloc, "gone in, come out", counts.bottom(), out)?;
        side.put_note(alloc, "waiting", waits.bottom(), out)?;
        Ok(())
    }

    // Puts the names of streams last; answers where they end.
    fn put_row_names(&self, alloc: Global, out: &mut Vec<u8>) -> Result<u64, AllocError>
        ensures { OnOk result (Puts (IsLaneName self.now.side.node.now self.now.side.told) (map row_name self.now.drawing.now.chart.rows.items) out.old.items out.new.items) }
    {
        let mut top = RULER;
        let rows = self.drawing.chart.rows.as_slice();
        'each: for i in 0..rows.len() {
            self.side
                .put_name(alloc, "", row_at(rows, i).place, top, out)?;
            top = top.saturating_add(ROW);
        }
        Ok(top)
    }

    // Puts those of buffers last, from where the streams end.
    fn put_buffer_names(
        &self,
        alloc: Global,
        begin: u64,
        out: &mut Vec<u8>,
    ) -> Result<(), AllocError>
        ensures { OnOk result (Puts (IsLaneName self.now.side.node.now self.now.side.told) (fill_names self.now.drawing.now.chart.fills.items self.now.drawing.now.flows.items) out.old.items out.new.items) }
    {
        let mut top = begin;
        let fills = self.drawing.chart.fills.as_slice();
        let flows = self.drawing.flows.as_slice();
        let both = fills.len().min(flows.len());
        'each: for i in 0..both {
            let fill = fill_at(fills, i);
            let flow = flow_at(flows, i);
            self.put_fill_names(alloc, fill, flow, top, out)?;
            top = fill_end(fill, flow, top);
        }
        Ok(())
    }

    /// Puts the names last, as elements of an SVG whose left upper corner is theirs.
    pub fn put_names(&self, alloc: Global, out: &mut Vec<u8>) -> Result<(), AllocError>
        ensures { OnOk result (Puts (IsLaneName self.now.side.node.now self.now.side.told) (names_of self.now.drawing.now) out.old.items out.new.items) }
    {
        let begin = self.put_row_names(alloc, out)?;
        self.put_buffer_names(alloc, begin, out)
    }

    // Puts what goes into a buffer last.
    fn put_written(
        &self,
        alloc: Global,
        fill: &Fill,
        y: u64,
        out: &mut Vec<u8>,
    ) -> Result<(), AllocError>
        ensures { OnOk result (Puts (IsLane self.now.lanes.cell) (of_marks fill.now.written ∷ []) out.old.items out.new.items) }
    {
        let marks = fill.written.list();
        self.lanes.put_marks(alloc, "item in", marks, y, out)
    }

    // Puts what comes out of it last.
    fn put_read(
        &self,
        alloc: Global,
        fill: &Fill,
        y: u64,
        out: &mut Vec<u8>,
    ) -> Result<(), AllocError>
        ensures { OnOk result (Puts (IsLane self.now.lanes.cell) (of_marks fill.now.read ∷ []) out.old.items out.new.items) }
    {
        let marks = fill.read.list();
        self.lanes.put_marks(alloc, "item out", marks, y, out)
    }

    // Puts its items last.
    fn put_joins(
        &self,
        alloc: Global,
        flow: &Flow,
        from: u64,
        to: u64,
        out: &mut Vec<u8>,
    ) -> Result<(), AllocError>
        ensures { OnOk result (Puts (IsLane self.now.lanes.cell) (of_items flow.now.joins ∷ []) out.old.items out.new.items) }
    {
        let joins = flow.joins.list();
        self.lanes.put_joins(alloc, joins, from, to, out)
    }

    // Puts what goes in and out last, and a line for each item.
    fn put_items(
        &self,
        alloc: Global,
        fill: &Fill,
        flow: &Flow,
        top: u64,
        out: &mut Vec<u8>,
    ) -> Result<(), AllocError>
        ensures { OnOk result (Puts (IsLane self.now.lanes.cell) (buffer_lanes fill.now flow.now) out.old.items out.new.items) }
    {
        let upper = top.saturating_add(HEAD + 14);
        let lower = upper.saturating_add(ROW + GAP);
        self.put_written(alloc, fill, upper, out)?;
        self.put_read(alloc, fill, lower, out)?;
        let from = upper.saturating_add(6);
        self.put_joins(alloc, flow, from, lower.saturating_sub(6), out)
    }

    // Puts the stairs of a buffer last: how many have gone in and come out, and below how many wait.
    fn put_bands(
        &self,
        alloc: Global,
        fill: &Fill,
        flow: &Flow,
        top: u64,
        out: &mut Vec<u8>,
    ) -> Result<(), AllocError>
        ensures { OnOk result (Extends out.old.items out.new.items) }
    {
        let lanes = &self.lanes;
        let counts = counts_band(flow, top);
        let waits = waits_band(fill, &counts);
        let below = waits.bottom().saturating_add(14);
        let height = waits.height.saturating_add(18);
        counts.put_stairs(alloc, lanes, "stairs in", flow.written.list(), false, out)?;
        counts.put_stairs(alloc, lanes, "stairs out", flow.read.list(), false, out)?;
        waits.put_stairs(alloc, lanes, "waits", fill.waits.list(), true, out)?;
        lanes.put_numbers(alloc, fill.waits.list(), below, out)?;
        lanes.put_frame(alloc, fill.full, waits.top, height, out)
    }

    // Puts the lanes of a buffer last, and its stairs.
    fn put_fill(
        &self,
        alloc: Global,
        fill: &Fill,
        flow: &Flow,
        top: u64,
        out: &mut Vec<u8>,
    ) -> Result<(), AllocError>
        ensures { OnOk result (Puts (IsLane self.now.lanes.cell) (buffer_lanes fill.now flow.now) out.old.items out.new.items) }
    {
        put_line(alloc, "rail", (0, top), (self.width, top), out)?;
        self.put_items(alloc, fill, flow, top, out)?;
        self.put_bands(alloc, fill, flow, top, out)
    }

    // Puts a stream last.
    fn put_row(
        &self,
        alloc: Global,
        row: &Row,
        top: u64,
        out: &mut Vec<u8>,
    ) -> Result<(), AllocError>
        ensures { OnOk result (Puts (IsLane self.now.lanes.cell) (row_lane row.now ∷ []) out.old.items out.new.items) }
    {
        let marks = row.marks.list();
        self.lanes
            .put_marks(alloc, "item", marks, top.saturating_add(14), out)
    }

    // Puts the streams last; answers where they end.
    fn put_rows(&self, alloc: Global, out: &mut Vec<u8>) -> Result<u64, AllocError>
        ensures { OnOk result (Puts (IsLane self.now.lanes.cell) (map row_lane self.now.drawing.now.chart.rows.items) out.old.items out.new.items) }
    {
        let mut top = RULER;
        let rows = self.drawing.chart.rows.as_slice();
        'each: for i in 0..rows.len() {
            self.put_row(alloc, row_at(rows, i), top, out)?;
            top = top.saturating_add(ROW);
        }
        Ok(top)
    }

    // Puts the buffers last, from where the streams end.
    fn put_fills(&self, alloc: Global, begin: u64, out: &mut Vec<u8>) -> Result<(), AllocError>
        ensures { OnOk result (Puts (IsLane self.now.lanes.cell) (fill_lanes self.now.drawing.now.chart.fills.items self.now.drawing.now.flows.items) out.old.items out.new.items) }
    {
        let mut top = begin;
        let fills = self.drawing.chart.fills.as_slice();
        let flows = self.drawing.flows.as_slice();
        let both = fills.len().min(flows.len());
        'each: for i in 0..both {
            let fill = fill_at(fills, i);
            let flow = flow_at(flows, i);
            self.put_fill(alloc, fill, flow, top, out)?;
            top = fill_end(fill, flow, top);
        }
        Ok(())
    }

    /// Puts the lanes last, as elements of an SVG whose left upper corner is theirs.
    pub fn put_lanes(&self, alloc: Global, out: &mut Vec<u8>) -> Result<(), AllocError>
        ensures { OnOk result (Puts (IsLane self.now.lanes.cell) (lanes_of self.now.drawing.now) out.old.items out.new.items) }
    {
        let lanes = &self.lanes;
        lanes.put_ruler(alloc, 14, out)?;
        lanes.put_turns(alloc, self.turn, RULER, self.height, out)?;
        let begin = self.put_rows(alloc, out)?;
        self.put_fills(alloc, begin, out)?;
        Ok(())
    }
}

// The stream of a number, from 0.
fn row_at(rows: &[Row], number: usize) -> &Row
    requires { number < length rows.now }
    ensures { slice_get rows.now number ≡ Some result.now }
{
    &rows[number]
}

// How items go through the buffer of a number, from 0.
fn flow_at(flows: &[Flow], number: usize) -> &Flow
    requires { number < length flows.now }
    ensures { slice_get flows.now number ≡ Some result.now }
{
    &flows[number]
}
