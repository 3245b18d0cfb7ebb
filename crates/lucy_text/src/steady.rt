ghost use Rattle.std.specs.Prelude.{◌≡◌, ℕ, ◌<◌, List, Some, None, ◌++◌, min, length, take, drop, nat_eq};

use crate::unread::Unread;
use crate::{Failed, Sink, Source};
use std::marker::Model;

/// Bytes in memory, given as many a call as the buffer holds. It never fails.
#[derive(Drop)]
pub struct SteadySource {
    unread: Unread,
}

impl Model for SteadySource {
    ghost Value = { List ℕ };

    ghost view = { λ s. s.unread };
}

impl SteadySource {
    /// A source of these bytes.
    pub fn new(bytes: Vec<u8>) -> SteadySource
        ensures { result ≡ bytes.items }
    {
        SteadySource {
            unread: Unread::new(bytes),
        }
    }
}

impl Source for SteadySource {
    ghost seen = { λ s. record { left = Some s; ended = nat_eq (length s) 0; faults = 0; since_stop = None } };

    fn read(&mut self, into: &mut [u8]) -> Result<usize, Failed>
        requires { 0 < length into.old }
        ensures count { result ≡ Ok (min (length self.old) (length into.old)) }
        ensures copied { into.new
            ≡ take (length into.old) self.old ++ drop (length self.old) into.old }
        ensures rest { self.new ≡ drop (length into.old) self.old }
    {
        Ok(self.unread.give(into.len(), into))
    }
}

/// Drops what it takes, and takes all. It never fails.
#[derive(Drop)]
pub struct SteadySink {}

impl SteadySink {
    /// A sink. All are alike.
    pub fn new() -> SteadySink
        ensures { result ≡ record {} }
    {
        SteadySink {}
    }
}

impl Sink for SteadySink {
    ghost seen = { λ _. record { written = None; faults = 0; since_stop = None } };

    fn write(&mut self, from: &[u8]) -> Result<usize, Failed>
        requires { 0 < length from.now }
        ensures { result ≡ Ok (length from.now) }
    {
        Ok(from.len())
    }
}
