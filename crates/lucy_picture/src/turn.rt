// After how many instants the streams of a node come again together.
ghost use Rattle.std.specs.Prelude.{List, ℕ, ◌≡◌, ◌<◌, ◌≤◌, ◌+◌, ◌∷◌, ◌++◌, [], Some, max};
ghost use Rattle.std.specs.Prelude.{length, map, slice_get, IfOk, IfSome, IfNone, OnOk};
ghost use Rattle.std.specs.List.{AllByRecursion};
ghost use Rattle.lucy_host.specs.Operators.{Operator};
ghost use Rattle.lucy_word.specs.Limits.{limit_number};
ghost use Rattle.lucy_word.specs.Multiple.{IsLcm};
ghost use Rattle.lucy_place.specs.declared.placed.PlacedNode.{PlacedNode as Node};
ghost use Rattle.lucy_place.specs.Proper.{IsProperNode};
ghost use Rattle.lucy_need.specs.Meeting.{assigned};
ghost use Rattle.lucy_clock.specs.declared.node_clock.NodeClock.{NodeClock as Clock};
ghost use Rattle.lucy_net.specs.Lengths.{AreLengths};
ghost use Rattle.lucy_program.specs.declared.options.Options.{Options as Choices};
ghost use Rattle.lucy_program.specs.Accepting.{IsAccepted};
ghost use Rattle.lucy_picture.specs.Turns.{buffer_clocks, shown_clocks, whole, AreTooLong};

use crate::named::{named_places, push};
use crate::words::{clocks_at, word_of};
use lucy_place::PlacedNode;
use lucy_program::{Accepted, first_operand};
use lucy_word::{Limit, Word, lcm};
use std::alloc::{AllocError, Global};

/// When streams come again together: behind so many instants of a prefix, after each period.
#[derive(Clone, Copy)]
pub struct Turn {
    pub prefix: u64,
    pub period: u64,
}

impl Turn {
    /// How many instants there are up to the end of the second period, or the greatest number where they are more.
    pub fn whole(&self) -> u64
        ensures { result ≡ whole self.now }
    {
        self.prefix
            .saturating_add(self.period)
            .saturating_add(self.period)
    }
}

// That with one word more, if it is not too long already.
fn with_word(so_far: Turn, word: &Word) -> Option<Turn>
    requires some { 0 < so_far.period }
    requires short { so_far.prefix + so_far.period ≤ limit_number Limit.Schedule }
    ensures prefix { IfSome result (λ t. t.prefix ≡ max so_far.prefix (length word.now.prefix)) }
    ensures period { IfSome result (λ t. IsLcm so_far.period (length word.now.period) t.period) }
    ensures short { IfSome result (λ t. t.prefix + t.period ≤ limit_number Limit.Schedule) }
    ensures nonempty { 0 < length word.now.period }
    ensures none { IfNone result ((m : ℕ) × IsLcm so_far.period (length word.now.period) m ×
        (limit_number Limit.Schedule < max so_far.prefix (length word.now.prefix) + m)) }
{
    let (prefix, period) = word.lengths();
    let prefix = so_far.prefix.max(prefix);
    let period = lcm(so_far.period, period);
    if prefix + period <= Limit::Schedule.number() {
        Some(Turn { prefix, period })
    } else {
        None
    }
}

// That of the words of these clocks.
fn common_turn(words: &[Word], clocks: &[u32]) -> Option<Turn>
    requires { AllByRecursion (λ c. c < length words.now) clocks.now }
    ensures some { IfSome result (λ t. AreLengths (map (assigned words.now) clocks.now) t.prefix t.period) }
    ensures none { IfNone result (AreTooLong (map (assigned words.now) clocks.now)) }
{
    let mut turn = Turn {
        prefix: 0,
        period: 1,
    };
    'each: for i in 0..clocks.len() {
        turn = with_word(turn, word_of(words, clocks[i]))?;
    }
    Some(turn)
}

// Puts the clocks of a buffer last.
fn put_buffer(node: &PlacedNode, place: u32, clocks: &mut Vec<u32>) -> Result<(), AllocError>
    ensures { OnOk result (clocks.new.items ≡ clocks.old.items ++ buffer_clocks node.now (place ∷ [])) }
{
    push(clocks, first_operand(node, place).unwrap_or(0))?;
    push(clocks, place)
}

// The clocks that are shown of a node.
fn shown_clocks(alloc: Global, node: &PlacedNode) -> Result<Vec<u32>, AllocError>
    requires { (above : List Node) × IsProperNode above node.now }
    ensures { IfOk result (λ v. v.items ≡ shown_clocks node.now) }
{
    let mut clocks = named_places(alloc, node)?;
    'each: for place in node.buffers.list() {
        put_buffer(node, *place, &mut clocks)?;
    }
    Ok(clocks)
}

/// When all streams that a chronogram shows of a node of an accepted program, by its number from 0, come again together: those of its
/// named places, and those that its buffers are written and read on. None, where prefix and period together have more instants than
/// `Limit::Schedule` allows.
pub fn turn_of(alloc: Global, accepted: &Accepted, node: u32) -> Result<Option<Turn>, AllocError>
    requires accepted { (ops : List Operator) × (o : Choices) × (text : List ℕ) × IsAccepted ops o text accepted.now }
    requires node { node < length accepted.now.placed.nodes }
    ensures some { (n : Node) (c : Clock) → slice_get accepted.now.placed.nodes node ≡ Some n →
        slice_get accepted.now.clocks.items node ≡ Some c → IfOk result (λ turn. IfSome turn (λ t. AreLengths (map (assigned c.words) (shown_clocks n)) t.prefix t.period)) }
    ensures none { (n : Node) (c : Clock) → slice_get accepted.now.placed.nodes node ≡ Some n →
        slice_get accepted.now.clocks.items node ≡ Some c → IfOk result (λ turn. IfNone turn (AreTooLong (map (assigned c.words) (shown_clocks n)))) }
{
    let clock = clocks_at(&accepted.clocks, node);
    let clocks = shown_clocks(alloc, accepted.placed.node(node))?;
    Ok(common_turn(clock.words.list(), &clocks))
}
