// A gate at which workers wait for each other, one that tells who came, and one that holds a worker back.
use lucy_worker::Gate;
use std::io;
use std::sync::atomic::{AtomicU64, Ordering};

// How often a worker looks for the others: ten million turns of a hundred looks. That is a second or so, since threads may
// begin late where processors are busy.
const MOST_LOOKS: u64 = 1_000_000_000;

/// It lets a worker pass once the first workers, so many of them and four at most, have come to it as often, or after so many looks in
/// vain. Then nobody waits any more.
#[derive(Drop)]
pub(crate) struct Together {
    workers: u32,
    marks: [AtomicU64; 4],
    late: AtomicU64,
}

impl Together {
    pub(crate) fn new(workers: u32) -> Together {
        Together {
            workers,
            marks: [
                AtomicU64::new(0),
                AtomicU64::new(0),
                AtomicU64::new(0),
                AtomicU64::new(0),
            ],
            late: AtomicU64::new(0),
        }
    }

    fn mark(&self, worker: u32) -> &AtomicU64 {
        &self.marks[worker.min(3) as usize]
    }

    // Whether each came more than so often.
    fn have_come(&self, before: u64) -> bool {
        for worker in 0..self.workers {
            if self.mark(worker).load(Ordering::SeqCst) <= before {
                return false;
            }
        }
        true
    }

    fn is_late(&self) -> bool {
        self.late.load(Ordering::SeqCst) > 0
    }

    /// Prints how often each came, and whether one looked in vain.
    pub(crate) fn print(&self, rt: &impl Print) -> io::Result<()> {
        print!(rt; "entered")?;
        for worker in 0..self.workers {
            print!(rt; " {}", self.mark(worker).load(Ordering::SeqCst))?;
        }
        println!(rt; ", late {}", u32::from(self.is_late()))
    }
}

impl Gate for Together {
    fn pass(&self, worker: u32) {
        let before = self.mark(worker).fetch_add(1, Ordering::SeqCst);
        for _ in 0..MOST_LOOKS {
            if self.have_come(before) || self.is_late() {
                return;
            }
        }
        self.late.store(1, Ordering::SeqCst);
    }
}

/// It lets every worker pass, and marks its number, which is below 64.
#[derive(Drop)]
pub(crate) struct Came {
    workers: AtomicU64,
}

impl Came {
    pub(crate) fn new() -> Came {
        Came {
            workers: AtomicU64::new(0),
        }
    }

    /// Prints the numbers of those of 64 workers that came.
    pub(crate) fn print(&self, rt: &impl Print) -> io::Result<()> {
        let workers = self.workers.load(Ordering::SeqCst);
        for worker in 0..64u32 {
            if workers >> worker & 1 == 1 {
                print!(rt; " {worker}")?;
            }
        }
        println!(rt;)
    }
}

impl Gate for Came {
    fn pass(&self, worker: u32) {
        self.workers.fetch_or(1 << (worker % 64), Ordering::SeqCst);
    }
}

/// It holds one worker back until the mark is set, or after so many looks in vain.
#[derive(Drop)]
pub(crate) struct Held<'a> {
    held: u32,
    mark: &'a AtomicU64,
    late: AtomicU64,
}

impl<'a> Held<'a> {
    pub(crate) fn new(held: u32, mark: &'a AtomicU64) -> Held<'a> {
        Held {
            held,
            mark,
            late: AtomicU64::new(0),
        }
    }

    /// Whether it looked in vain.
    pub(crate) fn is_late(&self) -> bool {
        self.late.load(Ordering::SeqCst) > 0
    }
}

impl<'a> Gate for Held<'a> {
    fn pass(&self, worker: u32) {
        if worker != self.held {
            return;
        }
        for _ in 0..MOST_LOOKS / 4 {
            if self.mark.load(Ordering::SeqCst) > 0 {
                return;
            }
        }
        self.late.store(1, Ordering::SeqCst);
    }
}
