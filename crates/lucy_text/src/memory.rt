ghost use Rattle.std.specs.Prelude.{◌≡◌, ◌-◌, ◌<◌, ◌≤◌, ◌↔◌, ◌⊎◌, [], Some, ◌++◌, min, length, take, drop};
ghost use Rattle.std.specs.Prelude.{nat_eq, vec_capacity, Contains, IsErr, IfOk, OnErr};
ghost use Rattle.lucy_text.specs.Outside.{HasCause, one_more};
ghost use Rattle.lucy_text.specs.Memory.{SourceState, source_after, source_after_fault};
ghost use Rattle.lucy_text.specs.Memory.{SinkState, sink_after, sink_after_fault};

use crate::calls::Calls;
use crate::unread::Unread;
use crate::{Failed, Sink, Source};
use std::marker::Model;

/// Bytes in memory, given at most `most` a call. The calls whose numbers, from 1, are in `fails`
/// fail. The number of calls stands still at the greatest u64.
#[derive(Drop)]
pub struct MemSource {
    unread: Unread,
    most: usize,
    calls: Calls,
}

impl Model for MemSource {
    ghost Value = { SourceState };

    ghost view = { λ s. record {
      left = s.unread;
      most = s.most;
      fails = s.calls.fails.items;
      calls = s.calls.made;
      faults = s.calls.faults;
      since_stop = s.calls.since_stop;
    } };

    ghost invariant = { λ s. 1 ≤ s.most };
}

impl MemSource {
    /// A source that no call has read yet.
    pub fn new(bytes: Vec<u8>, most: usize, fails: Vec<u64>) -> MemSource
        requires { 1 ≤ most }
        ensures { result
            ≡ record { left = bytes.items; most = most; fails = fails.items; calls = 0; faults = 0; since_stop = 0 } }
    {
        MemSource {
            unread: Unread::new(bytes),
            most,
            calls: Calls::new(fails),
        }
    }

    /// The bytes left.
    pub fn left(&self) -> &[u8]
        ensures { result.now ≡ self.now.left }
    {
        self.unread.rest()
    }
}

impl Source for MemSource {
    ghost seen = { λ s. record {
      left = Some s.left;
      ended = nat_eq (length s.left) 0;
      faults = s.faults;
      since_stop = Some s.since_stop;
    } };

    fn read(&mut self, into: &mut [u8]) -> Result<usize, Failed>
        requires { 0 < length into.old }
        ensures fails { IsErr result ↔ Contains self.old.fails (one_more self.old.calls) }
        ensures count { IfOk result (λ n.
            n ≡ min self.old.most (min (length self.old.left) (length into.old))) }
        ensures copied { IfOk result (λ n. into.new ≡ take n self.old.left ++ drop n into.old) }
        ensures ok { IfOk result (λ n. self.new ≡ source_after self.old n) }
        ensures untouched { OnErr result (into.new ≡ into.old) }
        ensures err { OnErr result (self.new ≡ source_after_fault self.old) }
        ensures nothing_left { IfOk result (λ n. n ≡ 0 → self.old.left ≡ []) }
        ensures cause { HasCause self.old.faults self.new.faults result }
    {
        if self.calls.next_fails() {
            return Err(self.calls.fault());
        }
        let n = self.unread.give(self.most, into);
        self.calls.went(n == 0);
        Ok(n)
    }
}

/// Takes at most `most` bytes a call, and in all no more than the room that was reserved in the
/// vector it is made of. The calls whose numbers, from 1, are in `fails` fail, and so does one with
/// no room left. The number of calls stands still at the greatest u64.
#[derive(Drop)]
pub struct MemSink {
    bytes: Vec<u8>,
    room: usize,
    most: usize,
    calls: Calls,
}

impl Model for MemSink {
    ghost Value = { SinkState };

    ghost view = { λ s. record {
      written = s.bytes.items;
      room = s.room;
      most = s.most;
      fails = s.calls.fails.items;
      calls = s.calls.made;
      faults = s.calls.faults;
      since_stop = s.calls.since_stop;
    } };

    ghost invariant = { λ s.
        (1 ≤ s.most) × (length s.bytes.items ≤ s.room) × (s.room ≤ vec_capacity s.bytes) };
}

impl MemSink {
    /// An empty sink. `room` is empty, and the room is its capacity in bytes.
    pub fn new(room: Vec<u8>, most: usize, fails: Vec<u64>) -> MemSink
        requires some { 1 ≤ most }
        requires empty { room.items ≡ [] }
        ensures { result ≡ record {
          written = [];
          room = vec_capacity room;
          most = most;
          fails = fails.items;
          calls = 0;
          faults = 0;
          since_stop = 0;
        } }
    {
        MemSink {
            room: room.capacity(),
            bytes: room,
            most,
            calls: Calls::new(fails),
        }
    }

    /// The bytes written.
    pub fn bytes(&self) -> &[u8]
        ensures { result.now ≡ self.now.written }
    {
        &self.bytes
    }
}

impl Sink for MemSink {
    ghost seen = { λ s. record { written = Some s.written; faults = s.faults; since_stop = Some s.since_stop } };

    fn write(&mut self, from: &[u8]) -> Result<usize, Failed>
        requires { 0 < length from.now }
        ensures fails { IsErr result ↔ (Contains self.old.fails (one_more self.old.calls)
            ⊎ (self.old.room ≤ length self.old.written)) }
        ensures count { IfOk result (λ n.
            n ≡ min self.old.most (min (length from.now) (self.old.room - length self.old.written))) }
        ensures ok { IfOk result (λ n. self.new ≡ sink_after self.old (take n from.now)) }
        ensures err { OnErr result (self.new ≡ sink_after_fault self.old) }
        ensures some { IfOk result (λ n. 0 < n) }
        ensures cause { HasCause self.old.faults self.new.faults result }
    {
        let left = self.room - self.bytes.len();
        if self.calls.next_fails() || left == 0 {
            return Err(self.calls.fault());
        }
        let n = self.most.min(from.len().min(left));
        self.bytes.extend_from_slice(&from[..n]).unwrap();
        self.calls.went(false);
        Ok(n)
    }
}
