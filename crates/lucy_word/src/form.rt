// The form of a word's text, and the place where it breaks.
ghost use Rattle.std.specs.Prelude.{◌≡◌, ◌↔◌, IsTrue, MatchResult};
ghost use Rattle.lucy_word.specs.Bits.{Bits};
ghost use Rattle.lucy_word.specs.Forms.{IsBadAt};
ghost use Rattle.lucy_word.specs.Spelling.{Spells};
ghost use Rattle.lucy_word.specs.Spelling as spelling;
ghost use Rattle.lucy_word.specs.Stages as spec;
ghost use Rattle.lucy_word.specs.Cutting.{IsDigitRun, Stays};
ghost use Rattle.lucy_word.specs.Cutting as kept;

use crate::digits::whole;
use crate::limbs::WIDTH;

/// How far the text of a word was read: behind whole items or at their beginning, behind a digit, behind a digit's `{`, in the
/// digits of a count, or behind all. `inside` is whether its `(` was read, and `some` whether an item stands behind it.
#[derive(Clone, Copy)]
pub enum Stage {
    Item { inside: bool, some: bool },
    Digit { inside: bool },
    Brace { inside: bool },
    Count { inside: bool },
    Closed,
}

pub(crate) fn is_digit(c: u8) -> bool
    ensures { result ≡ spelling.is_digit c }
{
    c == b'0' || c == b'1'
}

fn is_decimal(c: u8) -> bool
    ensures { result ≡ spec.is_decimal c }
{
    b'0' <= c && c <= b'9'
}

fn ended(inside: bool, some: bool, c: u8) -> Option<Stage>
    ensures { result ≡ spec.ended inside some c }
{
    if c == b'(' && !inside {
        Some(Stage::Item {
            inside: true,
            some: false,
        })
    } else if c == b')' && inside && some {
        Some(Stage::Closed)
    } else {
        None
    }
}

impl Stage {
    /// Before the first byte.
    pub fn begin() -> Stage
        ensures { result ≡ spec.begin }
    {
        Stage::Item {
            inside: false,
            some: false,
        }
    }

    /// Behind one byte more, where it may stand there.
    pub fn next(self, c: u8) -> Option<Stage>
        ensures { result ≡ spec.next self c }
    {
        match self {
            Stage::Item { inside, some } => {
                if is_digit(c) {
                    Some(Stage::Digit { inside })
                } else {
                    ended(inside, some, c)
                }
            }
            Stage::Digit { inside } => {
                if is_digit(c) {
                    Some(Stage::Digit { inside })
                } else if c == b'{' {
                    Some(Stage::Brace { inside })
                } else {
                    ended(inside, true, c)
                }
            }
            Stage::Brace { inside } => {
                if is_decimal(c) {
                    Some(Stage::Count { inside })
                } else {
                    None
                }
            }
            Stage::Count { inside } => {
                if is_decimal(c) {
                    Some(Stage::Count { inside })
                } else if c == b'}' {
                    Some(Stage::Item { inside, some: true })
                } else {
                    None
                }
            }
            Stage::Closed => None,
        }
    }
}

// Whether the digits of a count begin with the next byte.
fn at_count(stage: Stage) -> bool
    ensures { result ≡ kept.at_count stage }
{
    matches!(stage, Stage::Brace { .. })
}

// Whether the last byte is a digit that may stand alone.
fn at_digit(stage: Stage) -> bool
    ensures { result ≡ kept.at_digit stage }
{
    matches!(stage, Stage::Digit { .. })
}

// Whether all was read.
fn is_closed(stage: Stage) -> bool
    ensures { IsTrue result ↔ (stage ≡ Stage.Closed) }
{
    matches!(stage, Stage::Closed)
}

// Where the digits of the count begin that were read last, if the next byte stands here.
fn count_from(stage: Stage, i: usize, from: usize) -> usize
    ensures { result ≡ kept.count_from stage i from }
{
    if at_count(stage) { i } else { from }
}

// Whether digits of a count were read and all are 0, with this byte.
fn all_zeros(stage: Stage, zeros: bool, c: u8) -> bool
    ensures { result ≡ kept.all_zeros stage zeros c }
{
    if at_count(stage) {
        c == b'0'
    } else {
        zeros && c == b'0'
    }
}

// Whether a count ends that is 0.
fn is_zero(zeros: bool, c: u8) -> bool
    ensures { IsTrue result ↔ (IsTrue zeros × (c ≡ 125)) }
{
    zeros && c == b'}'
}

// Behind the digits from a place on, as far as they fill limbs.
pub(crate) fn limbs_end(text: &[u8], from: usize) -> usize
    ensures { IsDigitRun text.now from result }
{
    let mut i = from;
    'limbs: while let Some(_) = whole(text, i) {
        i += WIDTH;
    }
    i
}

// Behind the digits from a place on.
fn digits_end(text: &[u8], from: usize) -> usize
    ensures { IsDigitRun text.now from result }
{
    let mut i = limbs_end(text, from);
    'digits: while i < text.len() {
        if !is_digit(text[i]) {
            return i;
        }
        i += 1;
    }
    i
}

// Behind the bytes from a place on that leave the stage as it is: digits behind a digit.
fn stay(text: &[u8], stage: Stage, from: usize) -> usize
    ensures { Stays text.now stage from result }
{
    if at_digit(stage) {
        digits_end(text, from)
    } else {
        from
    }
}

// Whether the text spells a word; else the least place where its form breaks or the digits of a count begin that is 0.
pub(crate) fn check(text: &[u8]) -> Result<(), u64>
    ensures { MatchResult result (λ _. (w : Bits) × Spells text.now w) (IsBadAt text.now) }
{
    let mut stage = Stage::begin();
    let mut from = 0;
    let mut zero = false;
    let mut i = 0;
    'bytes: while i < text.len() {
        let c = text[i];
        let Some(then) = stage.next(c) else {
            return Err(i as u64);
        };
        if is_zero(zero, c) {
            return Err(from as u64);
        }
        from = count_from(stage, i, from);
        zero = all_zeros(stage, zero, c);
        stage = then;
        i = stay(text, stage, i + 1);
    }
    if is_closed(stage) {
        Ok(())
    } else {
        Err(i as u64)
    }
}
