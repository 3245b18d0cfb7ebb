// Chronograms as SVG.
ghost use Rattle.std.specs.Prelude.{List, ℕ, ◌≡◌, ◌<◌, Some, length, map, slice_get, IfOk, ◌++◌, OnOk, string_bytes, ◌-◌, ◌*◌, ◌^◌, min};
ghost use Rattle.lucy_host.specs.Operators.{Operator};
ghost use Rattle.lucy_place.specs.declared.placed.PlacedNode.{PlacedNode as Node};
ghost use Rattle.lucy_need.specs.Meeting.{assigned};
ghost use Rattle.lucy_clock.specs.declared.node_clock.NodeClock.{NodeClock as Clock};
ghost use Rattle.lucy_program.specs.declared.options.Options.{Options as Choices};
ghost use Rattle.lucy_program.specs.Accepting.{IsAccepted};
ghost use Rattle.lucy_picture.specs.Charts.{chart_row, named_places, AreFills};
ghost use Rattle.lucy_svg.specs.Flows.{AreFlows};
ghost use Rattle.lucy_svg.specs.Escaping.{escaped};
ghost use Rattle.lucy_svg.specs.Names.{AreTold, stream_of, told_by};
ghost use Rattle.lucy_program.specs.Names.{place_name};
ghost use Rattle.lucy_svg.specs.Labels.{label_text};
ghost use Rattle.lucy_picture.specs.Lines.{word_text};
ghost use Rattle.lucy_svg.specs.Notes as spec;
ghost use Rattle.lucy_svg.specs.Sheets.{PutsPicture, IsLaneName, names_of, IsLane, lanes_of};
ghost use Rattle.lucy_picture.specs.Holding.{Puts};

use lucy_picture::Turn;
use lucy_place::PlacedNode;
use lucy_program::Accepted;
use lucy_svg::{Drawing, Font, Sheet, Told};
use lucy_word::Word;
use std::alloc::{AllocError, Global};

/// Pins `lucy_svg::drawing_of`.
pub fn drawing_of(
    alloc: Global,
    accepted: &Accepted,
    node: u32,
    shown: u64,
) -> Result<Drawing, AllocError>
    requires accepted { (ops : List Operator) × (o : Choices) × (text : List ℕ) × IsAccepted ops o text accepted.now }
    requires node { node < length accepted.now.placed.nodes }
    ensures rows { (n : Node) (c : Clock) → slice_get accepted.now.placed.nodes node ≡ Some n →
        slice_get accepted.now.clocks.items node ≡ Some c → IfOk result (λ d. d.chart.rows.items ≡ map (chart_row (assigned c.words) shown) (named_places n)) }
    ensures fills { (n : Node) (c : Clock) → slice_get accepted.now.placed.nodes node ≡ Some n →
        slice_get accepted.now.clocks.items node ≡ Some c → IfOk result (λ d. AreFills n c shown d.chart.fills.items) }
    ensures flows { (n : Node) (c : Clock) → slice_get accepted.now.placed.nodes node ≡ Some n →
        slice_get accepted.now.clocks.items node ≡ Some c → IfOk result (λ d. AreFlows c shown d.chart.fills.items d.flows.items) }
{
    lucy_svg::drawing_of(alloc, accepted, node, shown)
}

/// Pins `lucy_svg::put_escaped`.
pub fn put_escaped(text: &[u8], out: &mut Vec<u8>) -> Result<(), AllocError>
    ensures { OnOk result (out.new.items ≡ out.old.items ++ escaped text.now) }
{
    lucy_svg::put_escaped(text, out)
}

/// Pins `lucy_svg::Told::new`.
pub fn told(alloc: Global, node: &PlacedNode) -> Result<Told, AllocError>
    ensures { IfOk result (AreTold node.now) }
{
    Told::new(alloc, node)
}

/// Pins `lucy_svg::Told::of`.
pub fn told_of(told: &Told, place: u32) -> Option<u32>
    ensures { result ≡ stream_of told.now place }
{
    told.of(place)
}

/// Pins `lucy_svg::Told::text`.
pub fn text_of(
    told: &Told,
    alloc: Global,
    node: &PlacedNode,
    place: u32,
) -> Result<Vec<u8>, AllocError>
    ensures { IfOk result (λ v. v.items ≡ place_name node.now (told_by told.now place)) }
{
    told.text(alloc, node, place)
}

/// Pins `lucy_svg::put_label`.
pub fn put_label(
    alloc: Global,
    font: &Font,
    at: (u64, u64),
    text: &[u8],
    out: &mut Vec<u8>,
) -> Result<(), AllocError>
    ensures { OnOk result (out.new.items ≡ out.old.items ++ label_text font.now at.0 at.1 text.now) }
{
    lucy_svg::put_label(alloc, font, at, text, out)
}

/// Pins `lucy_svg::word_text`.
pub fn word_text(alloc: Global, words: &[Word], place: u32) -> Result<Vec<u8>, AllocError>
    ensures { IfOk result (λ v. v.items ≡ word_text words.now place) }
{
    lucy_svg::word_text(alloc, words, place)
}

/// Pins `lucy_svg::shown_of`.
pub fn shown_of(turn: Option<Turn>, instants: Option<u64>) -> u64
    ensures { result ≡ spec.shown_of turn instants }
{
    lucy_svg::shown_of(turn, instants)
}

/// Pins `lucy_svg::turn_text`.
pub fn turn_text(alloc: Global, turn: Option<Turn>) -> Result<String, AllocError>
    ensures { IfOk result (λ s. string_bytes s ≡ spec.turn_text turn) }
{
    lucy_svg::turn_text(alloc, turn)
}

/// Pins `lucy_svg::shown_text`.
pub fn shown_text(alloc: Global, turn: Option<Turn>, shown: u64) -> Result<String, AllocError>
    ensures { IfOk result (λ s. string_bytes s ≡ spec.shown_text turn shown) }
{
    lucy_svg::shown_text(alloc, turn, shown)
}

/// Pins `lucy_svg::put_time_svg`.
pub fn put_time_svg(
    alloc: Global,
    accepted: &Accepted,
    node: u32,
    turn: Option<Turn>,
    shown: u64,
    drawing: &Drawing,
    out: &mut Vec<u8>,
) -> Result<(), AllocError>
    requires { node < length accepted.now.placed.nodes }
    ensures { (n : Node) → slice_get accepted.now.placed.nodes node ≡ Some n → OnOk result (PutsPicture n drawing.now out.old.items out.new.items) }
{
    lucy_svg::put_time_svg(alloc, accepted, node, turn, shown, drawing, out)
}

/// Pins `lucy_svg::Sheet::new`.
pub fn sheet<'a>(
    alloc: Global,
    node: &'a PlacedNode,
    words: &'a [Word],
    linked: Option<u32>,
    turn: Option<Turn>,
    shown: u64,
    drawing: &'a Drawing,
) -> Result<Sheet<'a>, AllocError>
    ensures node { IfOk result (λ s. s.side.node.now ≡ node.now) }
    ensures told { IfOk result (λ s. AreTold node.now s.side.told) }
    ensures drawing { IfOk result (λ s. s.drawing.now ≡ drawing.now) }
    ensures width { IfOk result (λ s. s.width ≡ min (shown * s.lanes.cell) (2 ^ 64 - 1)) }
{
    Sheet::new(alloc, node, words, linked, turn, shown, drawing)
}

/// Pins `lucy_svg::Sheet::put_names`.
pub fn put_names<'a>(sheet: &Sheet<'a>, alloc: Global, out: &mut Vec<u8>) -> Result<(), AllocError>
    ensures { OnOk result (Puts (IsLaneName sheet.now.side.node.now sheet.now.side.told) (names_of sheet.now.drawing.now) out.old.items out.new.items) }
{
    sheet.put_names(alloc, out)
}

/// Pins `lucy_svg::Sheet::put_lanes`.
pub fn put_lanes<'a>(sheet: &Sheet<'a>, alloc: Global, out: &mut Vec<u8>) -> Result<(), AllocError>
    ensures { OnOk result (Puts (IsLane sheet.now.lanes.cell) (lanes_of sheet.now.drawing.now) out.old.items out.new.items) }
{
    sheet.put_lanes(alloc, out)
}
