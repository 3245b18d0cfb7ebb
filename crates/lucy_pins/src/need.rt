// The needs of a node.
ghost use Rattle.std.specs.Prelude.{◌≡◌, IfOk};
ghost use Rattle.std.specs.List.{AllByRecursion};
ghost use Rattle.lucy_word.specs.Always.{always};
ghost use Rattle.lucy_word.specs.Stored.{IsStored};
ghost use Rattle.lucy_need.specs.Meeting.{first_of, second_of};
ghost use Rattle.lucy_need.specs.Stored.{HasWords};
ghost use Rattle.lucy_need.specs.Laws.{BitsLaw, EqualLaw, SampledLaw, AdaptLaw};

use lucy_need::{Need, NeedList, Needs, Term};
use lucy_word::Word;
use std::alloc::{AllocError, Global};

/// Pins `lucy_need::always`.
pub fn always(alloc: Global) -> Result<Word, AllocError>
    ensures is { IfOk result (λ w. w ≡ always) }
    ensures stored { IfOk result IsStored }
{
    lucy_need::always(alloc)
}

/// Pins `lucy_need::Need::terms`.
pub fn terms_of(need: &Need) -> (&Term, &Term)
    ensures first { result.0.now ≡ first_of need.now }
    ensures second { result.1.now ≡ second_of need.now }
{
    need.terms()
}

/// Pins `lucy_need::NeedList::of_stored`.
pub fn stored_needs(list: Vec<Need>) -> NeedList
    requires { AllByRecursion HasWords list.items }
    ensures { result ≡ list.items }
{
    NeedList::of_stored(list)
}

/// Pins `lucy_need::needs_have_words`.
pub fn needs_have_words(needs: &Needs)
    ensures { AllByRecursion HasWords needs.now.list }
{
    lucy_need::needs_have_words(needs);
}

/// Pins `lucy_need::needs_are_of_bits`.
pub fn needs_are_of_bits()
    ensures { BitsLaw }
{
    lucy_need::needs_are_of_bits();
}

/// Pins `lucy_need::plain_needs`.
pub fn plain_needs()
    ensures equal { EqualLaw }
    ensures sampled { SampledLaw }
    ensures adapt { AdaptLaw }
{
    lucy_need::plain_needs();
}
