// A gate at which two workers wait for each other.
use lucy_worker::Gate;
use std::sync::atomic::{AtomicU64, Ordering};

// How often a worker looks for the other one: ten million turns of a hundred looks, since threads may begin late.
const MOST_LOOKS: u64 = 1_000_000_000;

/// It lets a worker pass once the other one has come to it as often, or after so many looks in vain. Then nobody waits any more.
#[derive(Drop)]
pub(crate) struct Pair {
    first: AtomicU64,
    second: AtomicU64,
    late: AtomicU64,
}

impl Pair {
    pub(crate) fn new() -> Pair {
        Pair {
            first: AtomicU64::new(0),
            second: AtomicU64::new(0),
            late: AtomicU64::new(0),
        }
    }

    fn counter(&self, worker: u32) -> &AtomicU64 {
        if worker == 0 {
            &self.first
        } else {
            &self.second
        }
    }

    /// How often the worker of this number, 0 or else 1, came.
    pub(crate) fn passes(&self, worker: u32) -> u64 {
        self.counter(worker).load(Ordering::SeqCst)
    }

    /// Whether one looked in vain.
    pub(crate) fn is_late(&self) -> bool {
        self.late.load(Ordering::SeqCst) > 0
    }
}

impl Gate for Pair {
    fn pass(&self, worker: u32) {
        let before = self.counter(worker).fetch_add(1, Ordering::SeqCst);
        for _ in 0..MOST_LOOKS {
            if self.passes(1 - worker.min(1)) > before || self.is_late() {
                return;
            }
        }
        self.late.store(1, Ordering::SeqCst);
    }
}
