// A worker, seen as its number and its parts.
ghost use Rattle.std.specs.Prelude.{◌≡◌, ◌↔◌, ◌+◌, ◌<◌, ◌≤◌, All, length, slice_set, slice_index_or, IsTrue, OnOk};
ghost use Rattle.lucy_host.specs.Host.{Serves, lent};
ghost use Rattle.lucy_host.specs.Operators.{kinds_of};
ghost use Rattle.lucy_worker.specs.declared.part.Part.{Part};
ghost use Rattle.lucy_worker.specs.Parts.{IsDone};
ghost use Rattle.lucy_worker.specs.Turns.{most_moves, IsServed, IsTurnOf, HaveRun, HasGoneOn, done_by};
ghost use Rattle.lucy_worker.specs.News.{IsNew, ends_by, most_ends};
ghost use Rattle.lucy_worker.specs.Meets.{HasGiver, HasTaker, AreOfOneRing, MetBetween, MetWithin};
ghost use Rattle.lucy_worker.specs.Growing.{HasSpared, HasSpare, CanExtend, IsExtended};

use crate::gate::{Gate, Passages};
use crate::heading::Heading;
use crate::part::Part;
use crate::passing::{all_done, pass_back, pass_on};
use crate::place::EndPlace;
use crate::within::meet_within;
use lucy_host::Host;
use lucy_ring::meet;
use std::alloc::{AllocError, Global};
use std::marker::Model;

/// The actors that one thread moves.
#[derive(Drop)]
pub struct Worker {
    number: u32,
    parts: Vec<Part>,
}

impl Model for Worker {
    ghost use Rattle.lucy_worker.specs.Views.{WorkerView};

    ghost Value = { WorkerView };

    ghost use Rattle.lucy_worker.specs.Readiness.{AreReady};

    ghost view = { λ w. record { number = w.number; parts = w.parts.items } };

    ghost invariant = { λ w. AreReady w.parts.items };
}

impl Worker {
    /// A worker of this number with these actors, which have at most 65,536 ends. It takes no memory.
    pub fn new(number: u32, parts: Vec<Part>) -> Worker
        requires new { All IsNew parts.items }
        requires few { ends_by parts.items ≤ most_ends }
        ensures { result ≡ record { number = number; parts = parts.items } }
    {
        Worker { number, parts }
    }

    /// The parts, in the order in which they were handed in.
    pub fn parts(&self) -> &[Part]
        ensures { result.now ≡ self.now.parts }
    {
        self.parts.as_slice()
    }

    /// Passes the gate once, and then goes over the actors again and again and moves each as long as it can, until a pass moves nothing.
    /// Answers the number of moves. It takes no memory, and returns if the gate does.
    pub fn advance<F: Fn(u32, i64, i64) -> i64 + Sync, G: Gate + Sync>(
        &mut self,
        host: &Host<F>,
        gate: &G,
    ) -> u64
        requires serves { Serves F.pre F.post host.now }
        requires served { All (IsServed (length (lent host.now))) self.old.parts }
        ensures number { self.new.number ≡ self.old.number }
        ensures passed { G.passed gate.now self.old.number }
        ensures turned { IsTurnOf (kinds_of (lent host.now)) self.old.parts self.new.parts result }
    {
        // that it passed once is said by `enter` alone
        let _passages = self.enter(gate);
        let parts = self.parts.as_mut_slice();
        let mut heading = Heading::first();
        let mut found = pass_back(parts, host);
        let mut moves = found;
        while found > 0 {
            heading = heading.after(found);
            found = if heading.back {
                pass_back(parts, host)
            } else {
                pass_on(parts, host)
            };
            moves += found;
        }
        moves
    }

    /// One pass over the actors, while no other worker moves. Answers the number of moves. It passes no gate and takes no memory.
    pub fn pass_over<F: Fn(u32, i64, i64) -> i64 + Sync>(&mut self, host: &Host<F>) -> u64
        requires serves { Serves F.pre F.post host.now }
        requires served { All (IsServed (length (lent host.now))) self.old.parts }
        ensures number { self.new.number ≡ self.old.number }
        ensures turned { IsTurnOf (kinds_of (lent host.now)) self.old.parts self.new.parts result }
    {
        pass_on(self.parts.as_mut_slice(), host)
    }

    // Passes the gate.
    fn enter<G: Gate + Sync>(&self, gate: &G) -> Passages
        ensures passed { G.passed gate.now self.now.number }
        ensures once { result.count ≡ 1 }
    {
        let mut passages = Passages::none();
        passages.pass(gate, self.number);
        passages
    }

    /// Moves the actor of this part, which is there, as long as it can, while no other worker moves. Answers the number of moves. It
    /// passes no gate and takes no memory.
    #[inline]
    pub fn go_on<F: Fn(u32, i64, i64) -> i64 + Sync>(&mut self, host: &Host<F>, part: u32) -> u64
        requires serves { Serves F.pre F.post host.now }
        requires served { All (IsServed (length (lent host.now))) self.old.parts }
        requires there { part < length self.old.parts }
        ensures number { self.new.number ≡ self.old.number }
        ensures run { HaveRun (kinds_of (lent host.now)) self.old.parts self.new.parts }
        ensures counted { done_by self.new.parts ≡ done_by self.old.parts + result }
        ensures few { result ≤ most_moves }
        ensures gone { (d : Part) → (q : Part) × HasGoneOn (kinds_of (lent host.now)) (slice_index_or self.old.parts part d) q result
            × (self.new.parts ≡ slice_set self.old.parts part q) }
    {
        let moving = &mut self.parts[part as usize];
        moving.go_on(host)
    }

    /// Lets a giver and a taker of this worker, the ends of one ring, meet.
    pub fn meet_own(&mut self, giver: EndPlace, taker: EndPlace)
        requires giver { HasGiver self.old.parts giver }
        requires taker { HasTaker self.old.parts taker }
        requires ring { AreOfOneRing self.old.parts giver self.old.parts taker }
        ensures number { self.new.number ≡ self.old.number }
        ensures met { MetWithin self.old.parts giver taker self.new.parts }
    {
        meet_within(self.parts.as_mut_slice(), giver, taker);
    }

    /// Whether every actor has done its list of operations. It takes no memory.
    pub fn done(&self) -> bool
        ensures { IsTrue result ↔ All IsDone self.now.parts }
    {
        all_done(self.parts.as_slice())
    }

    /// The parts as they stand, in the order in which they were handed in. It takes no memory.
    pub fn into_parts(self) -> Vec<Part>
        ensures { result.items ≡ self.parts }
    {
        self.parts
    }

    /// Makes spare room in this part, which is there, for so many more items of its input and of its output. A refusal leaves all
    /// as it was but for the room, which never falls.
    pub fn reserve(
        &mut self,
        _alloc: Global,
        part: u32,
        items: u64,
        room: u64,
    ) -> Result<(), AllocError>
        requires there { part < length self.old.parts }
        ensures number { self.new.number ≡ self.old.number }
        ensures spared { (d : Part) → (q : Part) × HasSpared (slice_index_or self.old.parts part d) q
            × OnOk result (HasSpare items room q) × (self.new.parts ≡ slice_set self.old.parts part q) }
    {
        let one = &mut self.parts[part as usize];
        one.reserve(items, room)
    }

    /// Appends items to the input of this part, which is there and done, empties its output, and raises its quota to that of so
    /// many instants, at most 1,048,576. There has to be room, and an input needs an item for each firing. It takes no memory.
    pub fn extend(&mut self, part: u32, items: &[i64], instants: u64)
        requires there { part < length self.old.parts }
        requires can { (d : Part) → CanExtend (slice_index_or self.old.parts part d) items.now instants }
        ensures number { self.new.number ≡ self.old.number }
        ensures extended { (d : Part) → (q : Part) × IsExtended (slice_index_or self.old.parts part d) items.now instants q
            × (self.new.parts ≡ slice_set self.old.parts part q) }
    {
        let one = &mut self.parts[part as usize];
        one.extend(items, instants);
    }
}

/// Lets a giver of one worker and a taker of another, the ends of one ring, meet.
pub fn meet_between(first: &mut Worker, giver: EndPlace, second: &mut Worker, taker: EndPlace)
    requires giver { HasGiver first.old.parts giver }
    requires taker { HasTaker second.old.parts taker }
    requires ring { AreOfOneRing first.old.parts giver second.old.parts taker }
    ensures first { first.new.number ≡ first.old.number }
    ensures second { second.new.number ≡ second.old.number }
    ensures met { MetBetween first.old.parts giver second.old.parts taker first.new.parts second.new.parts }
{
    let part = &mut first.parts[giver.part as usize];
    let other = &mut second.parts[taker.part as usize];
    meet(
        &mut part.givers[giver.number as usize],
        &mut other.takers[taker.number as usize],
    );
}
