// The net of a node, as SVG: a box for each place, in columns by layers, and a line for all that a place reads.
ghost use Rattle.std.specs.Prelude.{List, ℕ, ◌<◌, length};
ghost use Rattle.lucy_host.specs.Operators.{Operator};
ghost use Rattle.lucy_program.specs.declared.options.Options.{Options as Choices};
ghost use Rattle.lucy_program.specs.Accepting.{IsAccepted};

use crate::layout::{Spot, spot_at, spots};
use crate::part::{begin_svg, definition, put_made};
use lucy_diagram::{Diagram, DrawnPlace, Edge, Figure, diagram_of, put_text};
use lucy_place::{PlaceEntry, PlaceKind, PlacedNode};
use lucy_program::Accepted;
use lucy_svg::{NAME, SMALL, put, put_label, word_text};
use lucy_tree::Program;
use std::alloc::{AllocError, Global};

// How high a box is, and how far boxes stand from each other and from the edge.
const HIGH: u64 = 36;

const PITCH: u64 = 52;

const GAP: u64 = 56;

const EDGE: u64 = 12;

/// What stands in a box: its label and the word of its clock.
#[derive(Drop)]
struct Label {
    text: Vec<u8>,
    word: Vec<u8>,
}

/// Where a column stands, and how wide its boxes are.
#[derive(Clone, Copy)]
struct Column {
    left: u64,
    width: u64,
}

/// A net that is laid out.
#[derive(Drop)]
struct Net {
    labels: Vec<Label>,
    spots: Vec<Spot>,
    columns: Vec<Column>,
}

// Puts the size of the buffer at a place last, where one stands there.
fn put_size(
    alloc: Global,
    node: &PlacedNode,
    diagram: &Diagram,
    place: u32,
    text: &mut Vec<u8>,
) -> Result<(), AllocError> {
    let index = place.saturating_sub(1) as usize;
    if let Some(
        PlaceEntry {
            kind: PlaceKind::Buffer(number, _),
            ..
        },
    ) = node.places.list().get(index)
    {
        let number = number.saturating_sub(1) as usize;
        if let Some(buffer) = diagram.buffers.get(number) {
            let size = buffer.size;
            return put_made(text, format!(in alloc; " size {size}"));
        }
    }
    Ok(())
}

// What stands in the box of a place: that of a buffer with its size.
fn label_of(
    alloc: Global,
    program: &Program,
    accepted: &Accepted,
    number: u32,
    diagram: &Diagram,
    place: u32,
) -> Result<Label, AllocError>
    requires { number < length accepted.now.placed.nodes }
{
    let words = match accepted.clocks.get(number as usize) {
        Some(clock) => clock.words.list(),
        None => &[],
    };
    let mut text = Vec::new(alloc);
    put_text(alloc, program, &accepted.placed, number, place, &mut text)?;
    put_size(
        alloc,
        accepted.placed.node(number),
        diagram,
        place,
        &mut text,
    )?;
    let word = word_text(alloc, words, place)?;
    Ok(Label { text, word })
}

// The labels of the places of a node, in order.
fn labels(
    alloc: Global,
    program: &Program,
    accepted: &Accepted,
    number: u32,
    diagram: &Diagram,
) -> Result<Vec<Label>, AllocError>
    requires { number < length accepted.now.placed.nodes }
{
    let mut labels = Vec::new(alloc);
    for drawn in &diagram.places {
        let label = label_of(alloc, program, accepted, number, diagram, drawn.place)?;
        labels.push(label)?;
    }
    Ok(labels)
}

// How wide the box of a label is.
fn width_of(label: &Label) -> u64 {
    let text = NAME.width(label.text.len());
    text.max(SMALL.width(label.word.len())).saturating_add(16)
}

// As many columns as boxes stand in, each without a width.
fn narrow(alloc: Global, spots: &[Spot]) -> Result<Vec<u64>, AllocError> {
    let mut count = 0usize;
    for spot in spots {
        count = spot.column.saturating_add(1).max(count);
    }
    let mut widths = Vec::new(alloc);
    for _ in 0..count.min(spots.len()) {
        widths.push(0u64)?;
    }
    Ok(widths)
}

// Makes columns as wide as the boxes in them.
fn widen(labels: &[Label], spots: &[Spot], widths: &mut [u64]) {
    for (label, spot) in labels.iter().zip(spots.iter()) {
        if spot.column < widths.len() {
            widths[spot.column] = width_of(label).max(widths[spot.column]);
        }
    }
}

// How wide the boxes of each column are, where these stand.
fn widths(alloc: Global, labels: &[Label], spots: &[Spot]) -> Result<Vec<u64>, AllocError> {
    let mut widths = narrow(alloc, spots)?;
    widen(labels, spots, &mut widths);
    Ok(widths)
}

// The columns from left to right.
fn columns(alloc: Global, widths: &[u64]) -> Result<Vec<Column>, AllocError> {
    let mut columns = Vec::new(alloc);
    let mut left = EDGE;
    for width in widths {
        columns.push(Column {
            left,
            width: *width,
        })?;
        left = left.saturating_add(*width).saturating_add(GAP);
    }
    Ok(columns)
}

// Puts the tip of a line last, by where it begins and how far it goes.
fn put_tip(
    alloc: Global,
    begin: (u64, u64),
    end: u64,
    out: &mut Vec<u8>,
) -> Result<(), AllocError> {
    let (x, y) = begin;
    let (above, below) = (y.saturating_sub(4), y.saturating_add(4));
    put_made(
        out,
        format!(in alloc; "<path class=\"tip\" d=\"M{x} {above}L{end} {y}L{x} {below}\"/>"),
    )
}

// Puts a curve last from a point to another, which is drawn to one and then another between them.
fn put_curve(
    alloc: Global,
    class: &str,
    from: (u64, u64),
    first: (u64, u64),
    second: (u64, u64),
    to: (u64, u64),
    out: &mut Vec<u8>,
) -> Result<(), AllocError> {
    let ((x, y), (a, b), (c, d), (right, down)) = (from, first, second, to);
    put_made(
        out,
        format!(in alloc;
            "<path class=\"{class}\" d=\"M{x} {y}C{a} {b} {c} {d} {right} {down}\"/>"
        ),
    )
}

impl Net {
    // The net of a node, by its number from 0.
    fn new(
        alloc: Global,
        program: &Program,
        accepted: &Accepted,
        number: u32,
        diagram: &Diagram,
    ) -> Result<Net, AllocError>
        requires { number < length accepted.now.placed.nodes }
    {
        let labels = labels(alloc, program, accepted, number, diagram)?;
        let spots = spots(alloc, diagram)?;
        let widths = widths(alloc, &labels, &spots)?;
        let columns = columns(alloc, &widths)?;
        Ok(Net {
            labels,
            spots,
            columns,
        })
    }

    // The column of a spot.
    fn column(&self, spot: Spot) -> Column {
        match self.columns.get(spot.column) {
            Some(column) => *column,
            None => Column { left: 0, width: 0 },
        }
    }

    // How wide it is.
    fn width(&self) -> u64 {
        match self.columns.last() {
            Some(last) => last.left.saturating_add(last.width).saturating_add(EDGE),
            None => EDGE,
        }
    }

    // How high it is.
    fn height(&self) -> u64 {
        let mut rows = 0u64;
        for spot in &self.spots {
            rows = spot.row.saturating_add(1).max(rows);
        }
        rows.saturating_mul(PITCH).saturating_add(EDGE)
    }

    // The upper edge of a spot's box.
    fn top(&self, spot: Spot) -> u64 {
        spot.row.saturating_mul(PITCH).saturating_add(EDGE)
    }

    // The middle of a spot's box, by its height.
    fn middle(&self, spot: Spot) -> u64 {
        self.top(spot).saturating_add(HIGH / 2)
    }

    // Puts a line to the right last, which dips so far below where it begins and ends.
    fn put_line(
        &self,
        alloc: Global,
        class: &str,
        from: Spot,
        to: Spot,
        dip: u64,
        out: &mut Vec<u8>,
    ) -> Result<(), AllocError> {
        let column = self.column(from);
        let x = column.left.saturating_add(column.width);
        let right = self.column(to).left;
        let (y, down) = (self.middle(from), self.middle(to));
        let (bend, turn) = (x.saturating_add(GAP / 2), right.saturating_sub(GAP / 2));
        let (low, deep) = (y.saturating_add(dip), down.saturating_add(dip));
        let (first, second) = ((bend, low), (turn, deep));
        put_curve(alloc, class, (x, y), first, second, (right, down), out)?;
        put_tip(alloc, (right.saturating_sub(6), down), right, out)
    }

    // Puts a line last between two boxes of one column, at the right of them.
    fn put_loop(
        &self,
        alloc: Global,
        class: &str,
        from: Spot,
        to: Spot,
        out: &mut Vec<u8>,
    ) -> Result<(), AllocError> {
        let column = self.column(from);
        let x = column.left.saturating_add(column.width);
        let bend = x.saturating_add(GAP / 2);
        let y = self.middle(from).saturating_sub(8);
        let down = self.middle(to).saturating_add(8);
        let (first, second) = ((bend, y), (bend, down));
        put_curve(alloc, class, (x, y), first, second, (x, down), out)?;
        put_tip(alloc, (x.saturating_add(6), down), x, out)
    }

    // Puts the line of an edge last: to the right, within a column at the right of it, and back to the left below the boxes.
    fn put_edge(&self, alloc: Global, edge: &Edge, out: &mut Vec<u8>) -> Result<(), AllocError> {
        let from = spot_at(&self.spots, edge.from.saturating_sub(1) as usize);
        let to = spot_at(&self.spots, edge.to.saturating_sub(1) as usize);
        let class = if edge.late { "late" } else { "reads" };
        if from.column == to.column {
            return self.put_loop(alloc, class, from, to, out);
        }
        let dip = if from.column < to.column {
            0
        } else {
            PITCH - 10
        };
        self.put_line(alloc, class, from, to, dip, out)
    }

    // Puts the frame of a box last.
    fn put_frame(
        &self,
        alloc: Global,
        figure: Figure,
        spot: Spot,
        width: u64,
        out: &mut Vec<u8>,
    ) -> Result<(), AllocError> {
        let left = self.column(spot).left;
        let top = self.top(spot);
        let class = class_of(figure);
        let round = if is_round(figure) { HIGH / 2 } else { 3 };
        put_made(
            out,
            format!(in alloc;
                "<rect class=\"{class}\" x=\"{left}\" y=\"{top}\" width=\"{width}\" height=\"{HIGH}\" rx=\"{round}\"/>"
            ),
        )
    }

    // Puts the box of a place last, by its number from 0 in the drawing.
    fn put_box(
        &self,
        alloc: Global,
        figure: Figure,
        place: usize,
        label: &Label,
        out: &mut Vec<u8>,
    ) -> Result<(), AllocError> {
        let spot = spot_at(&self.spots, place);
        let left = self.column(spot).left.saturating_add(8);
        let top = self.top(spot);
        self.put_frame(alloc, figure, spot, self.column(spot).width, out)?;
        put_label(
            alloc,
            &NAME,
            (left, top.saturating_add(15)),
            &label.text,
            out,
        )?;
        put_label(
            alloc,
            &SMALL,
            (left, top.saturating_add(29)),
            &label.word,
            out,
        )
    }

    // Puts the box of a place last, that of a stream linked to where it is defined.
    fn put_linked(
        &self,
        alloc: Global,
        number: u32,
        drawn: DrawnPlace,
        place: usize,
        label: &Label,
        out: &mut Vec<u8>,
    ) -> Result<(), AllocError> {
        if !is_round(drawn.figure) {
            self.put_box(alloc, drawn.figure, place, label, out)?;
            return put(out, "\n");
        }
        begin_link(definition(alloc, number, drawn.place), out)?;
        self.put_box(alloc, drawn.figure, place, label, out)?;
        put(out, "</a>\n")
    }

    // Puts the boxes last, those of streams linked to where these are defined.
    fn put_boxes(
        &self,
        alloc: Global,
        number: u32,
        diagram: &Diagram,
        out: &mut Vec<u8>,
    ) -> Result<(), AllocError> {
        let boxes = diagram.places.iter().zip(self.labels.iter());
        for (i, (drawn, label)) in boxes.enumerate() {
            self.put_linked(alloc, number, *drawn, i, label, out)?;
        }
        Ok(())
    }

    // Puts the picture last.
    fn put_svg(
        &self,
        alloc: Global,
        number: u32,
        diagram: &Diagram,
        out: &mut Vec<u8>,
    ) -> Result<(), AllocError> {
        begin_svg(alloc, self.width(), self.height(), out)?;
        for edge in &diagram.edges {
            self.put_edge(alloc, edge, out)?;
        }
        self.put_boxes(alloc, number, diagram, out)?;
        put(out, "</svg></div>\n")
    }
}

// Whether a place is a stream with a name.
fn is_round(figure: Figure) -> bool {
    match figure {
        Figure::Parameter | Figure::Name => true,
        _ => false,
    }
}

// How a box looks.
fn class_of(figure: Figure) -> &'static str {
    match figure {
        Figure::Buffer => "box buffer",
        Figure::CallResult => "box call",
        Figure::Parameter | Figure::Name => "box stream",
        _ => "box",
    }
}

// Puts the begin of a link last to where a stream is defined.
fn begin_link(place: Result<String, AllocError>, out: &mut Vec<u8>) -> Result<(), AllocError> {
    put(out, "<a href=\"#")?;
    put_made(out, place)?;
    put(out, "\">")
}

// Puts the net of a node last whose diagram this is.
fn put_diagram(
    alloc: Global,
    program: &Program,
    accepted: &Accepted,
    number: u32,
    diagram: &Diagram,
    out: &mut Vec<u8>,
) -> Result<(), AllocError>
    requires { number < length accepted.now.placed.nodes }
{
    let net = Net::new(alloc, program, accepted, number, diagram)?;
    Ok(net.put_svg(alloc, number, diagram, out)?)
}

/// Puts the net of a node of an accepted program last, by its number from 0. The tree is that of the program's text.
pub(crate) fn put_net(
    alloc: Global,
    program: &Program,
    accepted: &Accepted,
    number: u32,
    out: &mut Vec<u8>,
) -> Result<(), AllocError>
    requires accepted { (ops : List Operator) × (o : Choices) × (text : List ℕ) × IsAccepted ops o text accepted.now }
    requires node { number < length accepted.now.placed.nodes }
{
    put(out, "<h3>Net</h3>\n<div class=\"across\">")?;
    let diagram = diagram_of(alloc, accepted, number)?;
    put_diagram(alloc, program, accepted, number, &diagram, out)
}
