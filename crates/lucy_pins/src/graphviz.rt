// Drawings of a node and of a net for Graphviz, and texts between its quotes.
ghost use Rattle.std.specs.Prelude.{List, ℕ, ◌≡◌, ◌<◌, Some, length, slice_get, ◌-◌, ◌++◌, false, true, IfSome, OnOk, ◌≢◌, ◌∷◌};
ghost use Rattle.std.specs.Option.{unwrap_or};
ghost use Rattle.std.specs.List.{AllByRecursion};
ghost use Rattle.lucy_host.specs.Operators.{Operator};
ghost use Rattle.lucy_tree.specs.View.{program_tree};
ghost use Rattle.lucy_place.specs.declared.placed.PlacedNode.{PlacedNode as Node};
ghost use Rattle.lucy_program.specs.declared.options.Options.{Options as Choices};
ghost use Rattle.lucy_program.specs.Accepting.{IsAccepted};
ghost use Rattle.lucy_graphviz.specs.Graphs.{PutsNode};
ghost use Rattle.lucy_graphviz.specs.Nets.{net_text};
ghost use Rattle.lucy_graphviz.specs.Quotes.{quoted, in_label, read_quoted};

use lucy_program::Accepted;
use lucy_tree::Program;
use std::alloc::{AllocError, Global};

/// Pins `lucy_graphviz::put_net`.
pub fn put_net(
    alloc: Global,
    program: &Program,
    accepted: &Accepted,
    node: Option<u32>,
    flat: bool,
    out: &mut Vec<u8>,
) -> Result<(), AllocError>
    requires accepted { (ops : List Operator) × (o : Choices) × (text : List ℕ) × IsAccepted ops o text accepted.now }
    requires node { IfSome node (λ n. n < length accepted.now.placed.nodes) }
    ensures node { (n : Node) → flat ≡ false → slice_get accepted.now.placed.nodes (unwrap_or node (length accepted.now.placed.nodes - 1)) ≡ Some n →
        OnOk result (PutsNode (program_tree program.now) accepted.now (unwrap_or node (length accepted.now.placed.nodes - 1)) n
        out.old.items out.new.items) }
    ensures flat { (n : Node) → flat ≡ true → slice_get accepted.now.placed.nodes (length accepted.now.placed.nodes - 1) ≡ Some n →
        OnOk result (out.new.items ≡ out.old.items
        ++ net_text (program_tree program.now) accepted.now n.name.text) }
{
    lucy_graphviz::put_net(alloc, program, accepted, node, flat, out)
}

/// Pins `lucy_graphviz::put_quoted`.
pub fn put_quoted(text: &[u8], out: &mut Vec<u8>) -> Result<(), AllocError>
    ensures { OnOk result (out.new.items ≡ out.old.items ++ quoted text.now) }
{
    lucy_graphviz::put_quoted(text, out)
}

/// Pins `lucy_graphviz::quoted_texts_read_back`.
pub fn quoted_texts_read_back()
    ensures reads { (text rest : List ℕ) → read_quoted false (in_label text ++ 34 ∷ rest) ≡ Some (record { text = text; rest = rest }) }
    ensures line_feeds { (text : List ℕ) → AllByRecursion (λ byte. byte ≢ 10) (in_label text) }
{
    lucy_graphviz::quoted_texts_read_back();
}
