// What is known of a text before a token.
ghost use Rattle.std.specs.Prelude.{◌≡◌, ◌+◌, ◌^◌, ◌<◌, OnOk};
ghost use Rattle.lucy_token.specs.Before as before;
ghost use Rattle.lucy_token.specs.States as spec;

use crate::mark::Mark;
use crate::token::Kind;
use lucy_word::Limit;
use std::alloc::{AllocError, Global};
use std::marker::Model;

/// Where in a node a token stands: in its head, on the left or the right of a definition's `=`, or between the `=` of several
/// names and the `(` of the call that is due there.
#[derive(Clone, Copy)]
pub enum Side {
    Head,
    Left,
    Right,
    Called,
}

/// What is known at an open parenthesis: the commas behind it at its own depth, and how many operands a `merge` there
/// still wants.
#[derive(Clone, Copy)]
pub struct Level {
    pub commas: u32,
    pub wanted: u32,
}

/// What is known before a token; contracts see the `ScanState`. The innermost of the levels outside is the last.
#[derive(Drop)]
pub(crate) struct Context {
    before: Kind,
    side: Side,
    counted: u32,
    nodes: u32,
    level: Level,
    outer: Vec<Level>,
}

impl Model for Context {
    ghost use Rattle.std.specs.Prelude.{reverse};
    ghost use Rattle.lucy_token.specs.States.{ScanState};

    ghost Value = { ScanState };

    ghost view = { λ c. record { before = c.before; side = c.side; counted = c.counted; nodes = c.nodes; level = c.level; outer = reverse c.outer.items } };
}

const FRESH: Level = Level {
    commas: 0,
    wanted: 0,
};

fn side_defined(before: Kind) -> Side
    ensures { result ≡ spec.side_defined before }
{
    match before {
        Kind::Mark(Mark::Close) => Side::Called,
        _ => Side::Right,
    }
}

fn side_after(side: Side, before: Kind, kind: Kind) -> Side
    ensures { result ≡ spec.side_after side before kind }
{
    match (side, kind) {
        (_, Kind::Mark(Mark::Let)) => Side::Head,
        (_, Kind::Mark(Mark::Rec | Mark::And)) => Side::Left,
        (Side::Left | Side::Called, Kind::Mark(Mark::Equals)) => side_defined(before),
        (Side::Called, Kind::Mark(Mark::Open)) => Side::Right,
        (side, _) => side,
    }
}

fn counted_after(side: Side, counted: u32, kind: Kind) -> u32
    requires { counted + 1 < 2 ^ 32 }
    ensures { result ≡ spec.counted_after side counted kind }
{
    match (side, kind) {
        (_, Kind::Mark(Mark::Let | Mark::Rec | Mark::And)) => 0,
        (_, Kind::Mark(Mark::Open | Mark::Close)) => counted,
        (Side::Head, _) => counted,
        _ => counted + 1,
    }
}

fn nodes_after(nodes: u32, kind: Kind) -> u32
    requires { nodes + 1 < 2 ^ 32 }
    ensures { result ≡ spec.nodes_after nodes kind }
{
    match kind {
        Kind::Mark(Mark::Let) => nodes + 1,
        _ => nodes,
    }
}

fn served(level: Level) -> Level
    ensures { result ≡ spec.served level }
{
    Level {
        commas: level.commas,
        wanted: level.wanted.saturating_sub(1),
    }
}

fn merging(before: Kind, level: Level) -> Level
    ensures { result ≡ spec.merging before level }
{
    match before {
        Kind::Mark(Mark::Merge) => Level {
            commas: level.commas,
            wanted: 2,
        },
        _ => level,
    }
}

fn level_after(before: Kind, level: Level, kind: Kind) -> Level
    requires { level.commas + 1 < 2 ^ 32 }
    ensures { result ≡ spec.level_after before level kind }
{
    match kind {
        Kind::Word => merging(before, level),
        Kind::Name | Kind::Number | Kind::Mark(Mark::True | Mark::False) => served(level),
        Kind::Mark(Mark::Comma) => Level {
            commas: level.commas + 1,
            wanted: level.wanted,
        },
        _ => level,
    }
}

// Whether a word stands behind a token of this kind, and nothing else.
pub(crate) fn wants_word(kind: Kind) -> bool
    ensures { result ≡ before.wants_word kind }
{
    matches!(
        kind,
        Kind::Mark(Mark::When | Mark::Whenot | Mark::Merge | Mark::Colons | Mark::At)
    )
}

// Whether a word behind it wants a zero in its period.
pub(crate) fn wants_zero(kind: Kind) -> bool
    ensures { result ≡ before.wants_zero kind }
{
    matches!(kind, Kind::Mark(Mark::Whenot | Mark::Merge))
}

fn precedes_operand(kind: Kind) -> bool
    ensures { result ≡ before.precedes_operand kind }
{
    matches!(
        kind,
        Kind::Mark(
            Mark::Equals
                | Mark::Open
                | Mark::Comma
                | Mark::If
                | Mark::Then
                | Mark::Else
                | Mark::Not
                | Mark::Buffer
                | Mark::Fby
                | Mark::Same
                | Mark::Differs
                | Mark::Less
                | Mark::AtMost
                | Mark::Greater
                | Mark::AtLeast
                | Mark::Plus
                | Mark::Minus
                | Mark::Star
                | Mark::Slash
                | Mark::Percent
                | Mark::Both
                | Mark::Either
        )
    )
}

fn is_comma(kind: Kind) -> bool
    ensures { result ≡ spec.is_comma kind }
{
    matches!(kind, Kind::Mark(Mark::Comma))
}

// Whether an entry may begin so, or is left to the grammar.
fn begins_entry(side: Side, kind: Kind) -> bool
    ensures { result ≡ spec.begins_entry side kind }
{
    matches!((side, kind), (Side::Right, _) | (_, Kind::Name))
}

fn is_right(side: Side) -> bool
    ensures { result ≡ spec.is_right side }
{
    matches!(side, Side::Right)
}

fn past(limit: Limit, n: u64) -> Option<Limit>
    ensures { result ≡ before.limit_past limit n }
{
    if limit.number() <= n {
        Some(limit)
    } else {
        None
    }
}

fn past_tokens(side: Side, n: u64) -> Option<Limit>
    ensures { result ≡ spec.past_tokens side n }
{
    match side {
        Side::Head => None,
        Side::Left | Side::Right | Side::Called => past(Limit::Tokens, n),
    }
}

impl Context {
    // Before the first token of a text.
    pub(crate) fn start(alloc: Global) -> Context
        ensures { result ≡ spec.start }
    {
        Context {
            before: Kind::End,
            side: Side::Head,
            counted: 0,
            nodes: 0,
            level: FRESH,
            outer: Vec::new(alloc),
        }
    }

    // The kind of the token before.
    pub(crate) fn before(&self) -> Kind
        ensures { result ≡ self.now.before }
    {
        self.before
    }

    // Whether an operand begins here, if anything may.
    #[tactic(auto, unfolding(crate::specs::States::begins_operand))]
    pub(crate) fn begins_operand(&self) -> bool
        ensures { result ≡ spec.begins_operand self.now }
    {
        is_right(self.side) && (precedes_operand(self.before) || 1 <= self.level.wanted)
    }

    // The limit that a token of this kind passes, if one.
    #[tactic(auto, unfolding(crate::specs::States::limit_passed))]
    pub(crate) fn limit_passed(&self, kind: Kind) -> Option<Limit>
        ensures { result ≡ spec.limit_passed self.now kind }
    {
        match kind {
            Kind::Mark(Mark::Open) => past(Limit::Depth, self.outer.len() as u64),
            Kind::Mark(Mark::Close | Mark::And) => None,
            Kind::Mark(Mark::Let) => past(Limit::Nodes, self.nodes as u64),
            _ => past_tokens(self.side, self.counted as u64),
        }
    }

    // Whether a token of this kind here is the first of an entry past the last one that a list may have.
    #[tactic(auto, unfolding(crate::specs::States::is_past_last))]
    pub(crate) fn is_past_last(&self, kind: Kind) -> bool
        ensures { result ≡ spec.is_past_last self.now kind }
    {
        is_comma(self.before)
            && Limit::Names.number() <= self.level.commas as u64
            && begins_entry(self.side, kind)
    }

    // Goes on behind a token of this kind.
    #[tactic(auto, unfolding(crate::specs::States::after))]
    pub(crate) fn pass(&mut self, kind: Kind) -> Result<(), AllocError>
        requires { spec.HasCountRoom self.old }
        ensures { OnOk result (self.new ≡ spec.after self.old kind) }
    {
        match kind {
            Kind::Mark(Mark::Open) => {
                self.outer.push(self.level)?;
                self.level = FRESH;
            }
            Kind::Mark(Mark::Close) => {
                self.level = match self.outer.pop() {
                    Some(level) => served(level),
                    None => FRESH,
                };
            }
            _ => self.level = level_after(self.before, self.level, kind),
        }
        self.counted = counted_after(self.side, self.counted, kind);
        self.nodes = nodes_after(self.nodes, kind);
        self.side = side_after(self.side, self.before, kind);
        self.before = kind;
        Ok(())
    }
}
