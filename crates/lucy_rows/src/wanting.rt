// An engine that is asked, tells what for, and then wants memory.
ghost use Rattle.std.specs.Prelude.{◌≡◌, [], ◌∷◌, Some, None};
ghost use Rattle.std.specs.Option.{option_map_or};

use lucy_app::Engine;
use lucy_host::{Host, Inputs};
use lucy_program::Accepted;
use std::alloc::{AllocError, Global};

/// What an engine is asked for: to play up to an instant, by so many workers.
#[derive(Clone, Copy)]
pub(crate) struct Request {
    pub instants: u64,
    pub workers: u32,
}

/// It plays once, and keeps what it was asked for then.
#[derive(Clone, Copy)]
pub(crate) struct Wanting {
    pub request: Option<Request>,
}

impl<F> Engine<F> for Wanting {
    ghost plays = { λ engine _. engine.request ≡ None };

    ghost asked = { λ engine. Some (option_map_or (λ one. record { instants = one.instants; workers = one.workers } ∷ []) engine.request []) };

    fn play(
        &mut self,
        _alloc: Global,
        _accepted: &Accepted,
        _host: &Host<F>,
        _inputs: Inputs,
        instants: u64,
        workers: u32,
    ) -> Result<Inputs, AllocError> {
        self.request = Some(Request { instants, workers });
        Err(AllocError)
    }
}
