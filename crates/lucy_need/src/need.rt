// Needs and their terms.
ghost use Rattle.std.specs.Prelude.{◌≡◌};
ghost use Rattle.std.specs.List.{AllByRecursion};
ghost use Rattle.lucy_need.specs.Meeting.{first_of, second_of};
ghost use Rattle.lucy_need.specs.Stored.{HasWords};

use lucy_word::{Word, words_are_stored};
use std::marker::Model;

/// A clock on a word: of the ones of the clock of this number, those whose number is that of a one of the word (Cohen and
/// others 2006).
#[derive(Drop)]
pub struct Term {
    pub clock: u32,
    pub word: Word,
}

/// What two terms have to be to each other.
#[derive(Drop)]
pub enum Need {
    /// They have the same bits at every instant.
    Equal(Term, Term),
    /// The first is adaptable to the second (Mandel, Plateau and Pouzet 2010): a buffer that is written on the first may be
    /// read on the second.
    Adapt(Term, Term),
}

impl Need {
    /// The two terms.
    pub fn terms(&self) -> (&Term, &Term)
        ensures first { result.0.now ≡ first_of self.now }
        ensures second { result.1.now ≡ second_of self.now }
    {
        match self {
            Need::Equal(s, t) => (s, t),
            Need::Adapt(s, t) => (s, t),
        }
    }
}

// The words of a need are words as they lie in memory.
fn has_words(need: &Need)
    ensures { HasWords need.now }
{
    match need {
        Need::Equal(s, t) | Need::Adapt(s, t) => {
            words_are_stored(&s.word);
            words_are_stored(&t.word);
        }
    }
}

// And those of needs, which a walk over them tells.
fn have_words(needs: &[Need])
    ensures { AllByRecursion HasWords needs.now }
{
    for need in needs {
        has_words(need);
    }
}

/// Needs in order, the first of which has number 0. Contracts see their list.
#[derive(Drop)]
pub struct NeedList {
    list: Vec<Need>,
}

impl Model for NeedList {
    ghost use Rattle.std.specs.Prelude.{List};
    ghost use Rattle.std.specs.List.{AllByRecursion};
    ghost use Rattle.lucy_need.specs.declared.need.Need.{Need};
    ghost use Rattle.lucy_need.specs.Stored.{HasWords};

    ghost Value = { List Need };

    ghost view = { λ needs. needs.list.items };

    ghost invariant = { λ needs. AllByRecursion HasWords needs.list.items };
}

impl NeedList {
    /// These needs. It looks at each of them once.
    pub fn new(list: Vec<Need>) -> NeedList
        ensures { result ≡ list.items }
    {
        have_words(&list);
        NeedList::of_stored(list)
    }

    /// These needs, whose words are known to be as all are in memory, so that it looks at none of them.
    pub fn of_stored(list: Vec<Need>) -> NeedList
        requires { AllByRecursion HasWords list.items }
        ensures { result ≡ list.items }
    {
        NeedList { list }
    }

    /// The needs.
    pub fn list(&self) -> &[Need]
        ensures { result.now ≡ self.now }
    {
        &self.list
    }
}

/// The needs of a node, and how many clocks it has: clock 0 is its base, clock p that of place p, and behind those of the
/// places come the clocks of the bases of its calls.
#[derive(Drop)]
pub struct Needs {
    pub clocks: u32,
    pub list: NeedList,
}

/// The words of needs are words as they lie in memory: each has a one in its period, no more bits than are allowed, and is in
/// shortest form.
pub fn needs_have_words(needs: &Needs)
    ensures { AllByRecursion HasWords needs.now.list }
{
    // For the proof: a look inside tells what holds of all needs in memory.
    let _ = &needs.list.list;
}
