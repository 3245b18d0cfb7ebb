// What chronograms show of a node, and where it stands in a text.
ghost use Rattle.std.specs.Prelude.{List, ℕ, ◌≡◌, ◌<◌, Some, length, map, slice_get, IfOk, IfSome, IfNone, ◌≤◌, ◌++◌, OnOk};
ghost use Rattle.std.specs.Option.{option_map};
ghost use Rattle.lucy_host.specs.Operators.{Operator};
ghost use Rattle.lucy_need.specs.Meeting.{assigned};
ghost use Rattle.lucy_clock.specs.declared.node_clock.NodeClock.{NodeClock as Clock};
ghost use Rattle.lucy_program.specs.declared.options.Options.{Options as Choices};
ghost use Rattle.lucy_program.specs.Accepting.{IsAccepted};
ghost use Rattle.lucy_picture.specs.Charts.{chart_row, named_places, AreFills};
ghost use Rattle.lucy_net.specs.Lengths.{AreLengths};
ghost use Rattle.lucy_picture.specs.Turns.{shown_clocks, AreTooLong};
ghost use Rattle.lucy_tree.specs.View.{tree_of, node_tree, NodeTree, ProgramTree};
ghost use Rattle.lucy_picture.specs.Forms.{form_at, IsOfForm};
ghost use Rattle.lucy_picture.specs.Offsets as offsets;
ghost use Rattle.lucy_picture.specs.Spots.{IsSpot};
ghost use Rattle.lucy_flat.specs.Instances.{words_in};
ghost use Rattle.lucy_program.specs.Names.{place_name};
ghost use Rattle.lucy_picture.specs.Kinds as kinds;
ghost use Rattle.lucy_picture.specs.Spots as spots;
ghost use Rattle.lucy_picture.specs.Lines as lines;
ghost use Rattle.lucy_tree.specs.Tree.{Tree};
ghost use Rattle.lucy_place.specs.declared.entry.PlaceEntry.{PlaceEntry as Entry};
ghost use Rattle.lucy_naming.specs.Places.{as_placed};
ghost use Rattle.lucy_place.specs.Standing.{at_one};
ghost use Rattle.lucy_naming.specs.Streams.{streams};

use lucy_clock::NodeClock;
use lucy_picture::{Chart, Spot, Turn};
use lucy_place::{PlaceEntry, PlaceKind, PlacedNode};
use lucy_program::Accepted;
use lucy_tree::{Expr, Node, Span};
use lucy_word::Word;
use std::alloc::{AllocError, Global};

/// Pins `lucy_picture::chart_of`.
pub fn chart_of(
    alloc: Global,
    accepted: &Accepted,
    node: u32,
    shown: u64,
) -> Result<Chart, AllocError>
    requires accepted { (ops : List Operator) × (o : Choices) × (text : List ℕ) × IsAccepted ops o text accepted.now }
    requires node { node < length accepted.now.placed.nodes }
    ensures rows { (n : PlacedNode) (c : Clock) → slice_get accepted.now.placed.nodes node ≡ Some n →
        slice_get accepted.now.clocks.items node ≡ Some c → IfOk result (λ t. t.rows.items ≡ map (chart_row (assigned c.words) shown) (named_places n)) }
    ensures fills { (n : PlacedNode) (c : Clock) → slice_get accepted.now.placed.nodes node ≡ Some n →
        slice_get accepted.now.clocks.items node ≡ Some c → IfOk result (λ t. AreFills n c shown t.fills.items) }
{
    lucy_picture::chart_of(alloc, accepted, node, shown)
}

/// Pins `lucy_picture::turn_of`.
pub fn turn_of(alloc: Global, accepted: &Accepted, node: u32) -> Result<Option<Turn>, AllocError>
    requires accepted { (ops : List Operator) × (o : Choices) × (text : List ℕ) × IsAccepted ops o text accepted.now }
    requires node { node < length accepted.now.placed.nodes }
    ensures some { (n : PlacedNode) (c : Clock) → slice_get accepted.now.placed.nodes node ≡ Some n →
        slice_get accepted.now.clocks.items node ≡ Some c → IfOk result (λ turn. IfSome turn (λ t. AreLengths (map (assigned c.words) (shown_clocks n)) t.prefix t.period)) }
    ensures none { (n : PlacedNode) (c : Clock) → slice_get accepted.now.placed.nodes node ≡ Some n →
        slice_get accepted.now.clocks.items node ≡ Some c → IfOk result (λ turn. IfNone turn (AreTooLong (map (assigned c.words) (shown_clocks n)))) }
{
    lucy_picture::turn_of(alloc, accepted, node)
}

/// Pins `lucy_picture::form_of`.
pub fn form_of(node: &Node, place: u32) -> Option<&Expr>
    ensures { option_map (λ e. tree_of e.now) result ≡ form_at (node_tree node.now) place }
{
    lucy_picture::form_of(node, place)
}

/// Pins `lucy_picture::span_of`.
pub fn span_of(expr: &Expr) -> Span
    ensures { result ≡ offsets.span_of (tree_of expr.now) }
{
    lucy_picture::span_of(expr)
}

/// Pins `lucy_picture::offset_of`.
pub fn offset_of(entry: &PlaceEntry, form: Option<&Expr>) -> u32
    ensures { result ≡ offsets.offset_of entry.now (option_map (λ e. tree_of e.now) form.entry) }
{
    lucy_picture::offset_of(entry, form)
}

/// Pins `lucy_picture::spot_of`.
pub fn spot_of(text: &[u8], offset: usize) -> Spot
    requires { offset ≤ length text.now }
    ensures { IsSpot text.now offset result }
{
    lucy_picture::spot_of(text, offset)
}

/// Pins `lucy_picture::words_at`.
pub fn words_at(clocks: &[NodeClock], node: u32) -> &[Word]
    ensures { result.now ≡ words_in (slice_get clocks.now node) }
{
    lucy_picture::words_at(clocks, node)
}

/// Pins `lucy_picture::put_place`.
pub fn put_place(
    alloc: Global,
    node: &PlacedNode,
    place: u32,
    out: &mut Vec<u8>,
) -> Result<(), AllocError>
    ensures { OnOk result (out.new.items ≡ out.old.items ++ place_name node.now place) }
{
    lucy_picture::put_place(alloc, node, place, out)
}

/// Pins `lucy_picture::put_kind`.
pub fn put_kind(
    alloc: Global,
    node: &PlacedNode,
    kind: &PlaceKind,
    form: Option<&Expr>,
    out: &mut Vec<u8>,
) -> Result<(), AllocError>
    ensures { OnOk result (out.new.items ≡ out.old.items ++ kinds.kind_text node.now kind.now (option_map (λ e. tree_of e.now) form.entry)) }
{
    lucy_picture::put_kind(alloc, node, kind, form, out)
}

/// Pins `lucy_picture::put_entry`.
pub fn put_entry(
    alloc: Global,
    node: &PlacedNode,
    place: u32,
    entry: &PlaceEntry,
    form: Option<&Expr>,
    out: &mut Vec<u8>,
) -> Result<(), AllocError>
    ensures { OnOk result (out.new.items ≡ out.old.items ++ kinds.entry_text node.now place entry.now (option_map (λ e. tree_of e.now) form.entry)) }
{
    lucy_picture::put_entry(alloc, node, place, entry, form, out)
}

/// Pins `lucy_picture::put_spot`.
pub fn put_spot(
    alloc: Global,
    text: &[u8],
    offset: usize,
    out: &mut Vec<u8>,
) -> Result<(), AllocError>
    requires { offset ≤ length text.now }
    ensures { OnOk result (spots.PutsSpot text.now offset out.old.items out.new.items) }
{
    lucy_picture::put_spot(alloc, text, offset, out)
}

/// Pins `lucy_picture::put_word`.
pub fn put_word(
    alloc: Global,
    words: &[Word],
    place: u32,
    out: &mut Vec<u8>,
) -> Result<(), AllocError>
    ensures { OnOk result (out.new.items ≡ out.old.items ++ lines.word_text words.now place) }
{
    lucy_picture::put_word(alloc, words, place, out)
}

/// Pins `lucy_picture::put_time`.
pub fn put_time(
    alloc: Global,
    accepted: &Accepted,
    node: u32,
    turn: Option<Turn>,
    shown: u64,
    chart: &Chart,
    out: &mut Vec<u8>,
) -> Result<(), AllocError>
    requires { node < length accepted.now.placed.nodes }
    ensures { (n : PlacedNode) → slice_get accepted.now.placed.nodes node ≡ Some n →
        OnOk result (lines.PutsChart n (words_in (slice_get accepted.now.clocks.items node)) turn shown chart.now out.old.items out.new.items) }
{
    lucy_picture::put_time(alloc, accepted, node, turn, shown, chart, out)
}

/// Pins `lucy_picture::forms_stand_at_their_places`.
pub fn forms_stand_at_their_places()
    ensures { (ops : List Operator) (above : ProgramTree) (n : NodeTree) (place : ℕ) (entry : Entry) → at_one (as_placed ops above n).places place ≡ Some entry → length (streams n) < place →
        (t : Tree) × (form_at n place ≡ Some t) × IsOfForm t entry.kind }
{
    lucy_picture::forms_stand_at_their_places();
}
