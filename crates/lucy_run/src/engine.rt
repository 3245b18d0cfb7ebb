// What plays an accepted program.
ghost use Rattle.std.specs.Prelude.{◌≡◌, ℕ, List, Option, None};
ghost use Rattle.lucy_host.specs.Host.{lent};
ghost use Rattle.lucy_host.specs.declared.host.Host.{Host};
ghost use Rattle.lucy_run.specs.Engines.{PlayRequest, CanBePlayed, IsPlayedTo, asked_more};

use lucy_host::{Host, Inputs};
use lucy_program::Accepted;
use std::alloc::{AllocError, Global};

/// Whoever plays accepted programs by hosts with a closure of this type: how it moves the actors of their nets is its own.
pub trait Engine<F> {
    /// That it plays by this host.
    ghost plays: { Self → Host F → Type 0 };

    /// What it was asked for so far, in turn, where it tells that.
    ghost asked: { Self → Option (List PlayRequest) };

    /// The streams of main's results up to a horizon of at most 1,048,576 instants, by 1 to 64 workers: a list for each result, in
    /// order (Kahn 1974). The program is one that is accepted for the operators of the host. There is an input for each parameter of
    /// main, with the items of so many instants. It is refused for want of memory alone. That it returns isn't promised.
    fn play(
        &mut self,
        alloc: Global,
        accepted: &Accepted,
        host: &Host<F>,
        inputs: Inputs,
        instants: u64,
        workers: u32,
    ) -> Result<Inputs, AllocError>
        requires plays { plays self.old host.now }
        requires can { CanBePlayed (lent host.now) accepted.now inputs instants workers }
        ensures played { IsPlayedTo (lent host.now) accepted.now inputs instants result }
        ensures tells { asked self.new ≡ asked_more (record { instants = instants; workers = workers }) (asked self.old) };
}

/// An engine that is a closure. It plays by a host if the closure may be called with all that can be played, and answers its streams. It
/// tells nothing of what it was asked for.
#[derive(Drop)]
pub struct ClosureEngine<C> {
    pub call: C,
}

impl<F, C: Fn(Global, &Accepted, &Host<F>, Inputs, u64, u32) -> Result<Inputs, AllocError>> Engine<
    F,
> for ClosureEngine<C> {
    ghost plays = { λ engine host. (alloc : _) (accepted : _) (lender : _) (inputs : _) (instants workers : ℕ) →
        lender.now ≡ host → CanBePlayed (lent host) accepted.now inputs instants workers →
        C.pre engine.call alloc accepted lender inputs instants workers
        × ((answer : _) → C.post engine.call alloc accepted lender inputs instants workers answer →
        IsPlayedTo (lent host) accepted.now inputs instants answer) };

    ghost asked = { λ _. None };

    fn play(
        &mut self,
        alloc: Global,
        accepted: &Accepted,
        host: &Host<F>,
        inputs: Inputs,
        instants: u64,
        workers: u32,
    ) -> Result<Inputs, AllocError> {
        (self.call)(alloc, accepted, host, inputs, instants, workers)
    }
}
