ghost use Rattle.std.specs.Prelude.{ℕ, ◌≡◌, ◌+◌, ◌^◌, ◌<◌};

/// A gate that workers pass. `Worker::advance` passes it once and then moves its actors.
pub trait Gate {
    /// That the worker of a number has passed. A gate need not say anything of it.
    ghost passed: { Self → ℕ → Type 0 } = { λ _ _. Unit {0} };

    /// Lets the worker of this number pass. It may wait for others, but has to return.
    fn pass(&self, worker: u32)
        ensures { passed self.now worker };
}

/// A gate that is always open.
#[derive(Clone, Copy)]
pub struct OpenGate;

impl Gate for OpenGate {
    fn pass(&self, _worker: u32) {}
}

// How often a worker has passed its gate in a turn.
#[derive(Drop)]
pub(crate) struct Passages {
    pub(crate) count: u32,
}

impl Passages {
    pub(crate) fn none() -> Passages
        ensures { result.count ≡ 0 }
    {
        Passages { count: 0 }
    }

    // Passes the gate once, and counts it.
    pub(crate) fn pass<G: Gate + Sync>(&mut self, gate: &G, worker: u32)
        requires few { self.old.count + 1 < 2 ^ 32 }
        ensures passed { G.passed gate.now worker }
        ensures counted { self.new.count ≡ self.old.count + 1 }
    {
        gate.pass(worker);
        self.count += 1;
    }
}
