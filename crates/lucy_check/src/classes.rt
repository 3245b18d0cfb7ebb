// The greatest lead of one word over another, in time linear in their lengths and without memory.
//
// Past the longer prefix, `m` steps (periods of `b`) from a place in its first period, `b` has had what it had there and
// the cost of `m` steps. So the greatest lead from a place on is the best there, the greatest count of `a` less the cost
// of the steps to it, less what `b` had at the place. `a` gains the same by each turn, so the best of an instant is known
// from that of its place in the turn, and the best one step earlier is the greater of the count there and the best less
// the cost of a step. Steps back lead through all places of one class, those that agree modulo the greatest common
// divisor of turn and step (the remainder theorem): after one round the best goes over all of them.
ghost use Rattle.std.specs.Prelude.{◌≡◌, ◌⊎◌, ℕ, ◌+◌, ◌<◌, ◌≤◌, ◌^◌};
ghost use Rattle.lucy_word.specs.Bits.{ones_to};
ghost use Rattle.lucy_word.specs.Adaptable.{IsSize};
ghost use Rattle.lucy_check.specs.Rates.{IsNoSlower};
ghost use Rattle.lucy_check.specs.Leads.{IsLeadAmong};
ghost use Rattle.lucy_check.specs.Turns.{IsTurn, AreTurns, AreRounds, AreShort, InClass, IsBest, IsLeadFrom};

use crate::turns::{Turns, turns_of};
use lucy_word::Word;

// The greatest lead up to an instant.
fn lead_to(a: &Word, b: &Word, last: u64) -> u64
    requires { last < 2 ^ 63 }
    ensures { IsLeadAmong a.now b.now (λ i. i ≤ last) result }
{
    let mut most = 0u64;
    for i in 0..last + 1 {
        most = most.max(a.ones(i).saturating_sub(b.ones(i)));
    }
    most
}

// The place in the turn one step earlier, and the best there.
fn step_back(a: &Word, t: Turns, place: u64, best: u64) -> (u64, u64)
    requires turn { IsTurn a.now t }
    requires longer { t.step ≤ t.turn }
    requires short { AreShort t }
    requires within { place < t.turn }
    requires best { best < 2 ^ 62 }
    ensures within { result.0 < t.turn }
    ensures back { (result.0 + t.step ≡ place) ⊎ (result.0 + t.step ≡ place + t.turn) }
    ensures best { (steps : ℕ) → IsBest a.now t place best steps → IsBest a.now t result.0 result.1 (steps + 1) }
{
    let (earlier, carried) = if t.step <= place {
        (place - t.step, best)
    } else {
        (place + t.turn - t.step, best + t.gain)
    };
    (
        earlier,
        a.ones(t.start + earlier)
            .max(carried.saturating_sub(t.cost)),
    )
}

// The greatest lead from a place on, with the best there, where the place is one of `b`'s period; else 0.
fn lead_from(b: &Word, t: Turns, place: u64, best: u64) -> u64
    requires { AreShort t }
    ensures { IsLeadFrom b.now t place best result }
{
    if place < t.step {
        best.saturating_sub(b.ones(t.start + place))
    } else {
        0
    }
}

// The best at the first place of a class, found by a round of steps back.
fn round_best(a: &Word, t: Turns, class: u64) -> u64
    requires turn { IsTurn a.now t }
    requires round { AreRounds t }
    requires short { AreShort t }
    requires class { class < t.classes }
    ensures { IsBest a.now t class result (t.rounds + 1) }
{
    let mut place = class;
    let mut best = a.ones(t.start + class);
    for i in 0..t.rounds {
        (place, best) = step_back(a, t, place, best);
    }
    best
}

// The greatest lead at the instants of one class.
fn class_lead(a: &Word, b: &Word, t: Turns, class: u64) -> u64
    requires turns { AreTurns a.now b.now t }
    requires round { AreRounds t }
    requires short { AreShort t }
    requires rate { IsNoSlower b.now a.now }
    requires class { class < t.classes }
    ensures { IsLeadAmong a.now b.now (InClass t class) result }
{
    let mut place = class;
    let mut best = round_best(a, t, class);
    let mut most = 0u64;
    for i in 0..t.rounds {
        most = most.max(lead_from(b, t, place, best));
        (place, best) = step_back(a, t, place, best);
    }
    most
}

/// The greatest lead of `a` over `b` at all instants, where `b` is no slower.
pub(crate) fn lead_by_classes(a: &Word, b: &Word) -> u64
    requires { IsNoSlower b.now a.now }
    ensures { IsSize a.now b.now result }
{
    let turns = turns_of(a, b);
    let mut most = lead_to(a, b, turns.start);
    for class in 0..turns.classes {
        most = most.max(class_lead(a, b, turns, class));
    }
    most
}
