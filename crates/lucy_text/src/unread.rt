ghost use Rattle.std.specs.Prelude.{◌≡◌, ℕ, List, ◌++◌, ◌≤◌, min, length, take, drop};

use std::marker::Model;

/// Bytes that are given from the front.
#[derive(Drop)]
pub(crate) struct Unread {
    bytes: Vec<u8>,
    at: usize,
}

impl Model for Unread {
    ghost Value = { List ℕ };

    ghost view = { λ u. drop u.at u.bytes.items };

    ghost invariant = { λ u. u.at ≤ length u.bytes.items };
}

impl Unread {
    pub(crate) fn new(bytes: Vec<u8>) -> Unread
        ensures { result ≡ bytes.items }
    {
        Unread { bytes, at: 0 }
    }

    pub(crate) fn rest(&self) -> &[u8]
        ensures { result.now ≡ self.now }
    {
        &self.bytes[self.at..]
    }

    /// Moves the next bytes to the front of `into`, at most `most`.
    pub(crate) fn give(&mut self, most: usize, into: &mut [u8]) -> usize
        ensures count { result ≡ min most (min (length self.old) (length into.old)) }
        ensures copied { into.new ≡ take result self.old ++ drop result into.old }
        ensures rest { self.new ≡ drop result self.old }
    {
        let rest = &self.bytes[self.at..];
        let n = most.min(rest.len().min(into.len()));
        into[..n].copy_from_slice(&rest[..n]);
        self.at += n;
        n
    }
}
