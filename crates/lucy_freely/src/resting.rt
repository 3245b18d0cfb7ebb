// Where workers rest. Nothing is claimed of it.
use crossbeam_utils::sync::{Parker, Unparker};
use std::alloc::{AllocError, Global};
use std::sync::{Mutex, Wait};
use std::thread;

/// A place to rest for each of so many workers, and what wakes each.
#[derive(Drop)]
pub(crate) struct Beds {
    pub parkers: Vec<Mutex<Option<Parker>>>,
    pub wakers: Vec<Unparker>,
}

impl Beds {
    /// So many.
    pub(crate) fn new(alloc: Global, workers: u32) -> Result<Beds, AllocError> {
        let mut parkers = Vec::new(alloc);
        let mut wakers = Vec::new(alloc);
        for _ in 0..workers {
            let parker = Parker::new(alloc)?;
            let waker = parker.unparker().clone()?;
            if wakers.push(waker).is_err() || parkers.push(Mutex::new(Some(parker))).is_err() {
                return Err(AllocError);
            }
        }
        Ok(Beds { parkers, wakers })
    }
}

/// The parker of the worker of this number, which counts from 0.
pub(crate) fn parker_of<R: Wait>(
    rt: &R,
    parkers: &[Mutex<Option<Parker>>],
    number: usize,
) -> Option<Parker> {
    parkers.get(number)?.lock(rt).take()
}

/// Waits for a token of another worker, or gives way to others once.
pub(crate) fn rest<R: Wait>(rt: &R, parker: &Option<Parker>) {
    match parker {
        Some(parker) => parker.park(rt),
        None => thread::yield_now(),
    }
}

/// Gives a token to every worker but this one.
pub(crate) fn wake(wakers: &[Unparker], but: usize) {
    for (number, waker) in wakers.iter().enumerate() {
        if number != but {
            waker.unpark();
        }
    }
}
