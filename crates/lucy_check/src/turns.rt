// How two words come again past the longer prefix.
ghost use Rattle.lucy_check.specs.Turns.{AreTurns, AreRounds, AreShort};

use lucy_word::{Word, lcm};

/// Lengths in instants, and how many ones come in them, past the longer prefix.
#[derive(Clone, Copy)]
pub(crate) struct Turns {
    /// The length of the longer prefix.
    pub(crate) start: u64,
    /// The least number of whole periods of the first word that is no shorter than a step.
    pub(crate) turn: u64,
    /// The ones of the first word in a turn.
    pub(crate) gain: u64,
    /// The period of the second word.
    pub(crate) step: u64,
    /// The ones of the second word in a step.
    pub(crate) cost: u64,
    /// After so many steps turns and steps end together.
    pub(crate) rounds: u64,
    /// The greatest common divisor of turn and step.
    pub(crate) classes: u64,
}

/// Those of two words.
pub(crate) fn turns_of(a: &Word, b: &Word) -> Turns
    ensures are { AreTurns a.now b.now result }
    ensures round { AreRounds result }
    ensures short { AreShort result }
{
    let (prefix_a, period_a) = a.lengths();
    let (prefix_b, step) = b.lengths();
    let (ones_a, _) = a.rate();
    let (cost, _) = b.rate();
    let periods = (step - 1) / period_a + 1;
    let turn = periods * period_a;
    let rounds = lcm(turn, step) / step;
    Turns {
        start: prefix_a.max(prefix_b),
        turn,
        gain: periods * ones_a,
        step,
        cost,
        rounds,
        classes: turn / rounds,
    }
}
