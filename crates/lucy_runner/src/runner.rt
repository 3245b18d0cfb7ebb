ghost use Rattle.std.specs.Prelude.{ℕ, ◌≡◌, ◌↔◌, ◌≤◌, ◌<◌, ◌+◌, ◌++◌, List, take, drop, length, slice_get, Some, IsTrue, IfOk, OnErr, All};

use crate::growing::grow_all;
use crate::making::seat_all;
use crate::meeting::meet_all;
use crate::place::{Ends, Place};
use crate::route::{FULL_ROUND, passes_along};
use crate::seat::{Seat, all_done, few_left, operations_done, pass_in_place, turn_apart};
use lucy_core::Core;
use lucy_host::{Host, Inputs, Ops};
use lucy_net::{Net, Schedule};
use lucy_worker::Gate;
use std::alloc::{AllocError, Global};
use std::marker::Model;
use std::thread::Threads;

/// A net whose actors are moved by workers, in rounds (Kahn 1974; Cohen and others 2006). Actors, rings and outputs count from 0,
/// instants from 1.
#[derive(Drop)]
pub struct Runner {
    net: Net,
    schedule: Schedule,
    ops: Ops,
    instants: u64,
    // the horizon up to which the outputs were carried away
    before: u64,
    seats: Vec<Seat>,
    // of each actor
    places: Vec<Place>,
    // of each ring
    ends: Vec<Ends>,
    // the actor of each output
    outputs: Vec<u32>,
    // all places, as one thread goes through them
    route: Vec<Place>,
    // how many blocks have begun in which there was something to do
    blocks: u32,
}

impl Model for Runner {
    ghost use Rattle.lucy_runner.specs.Views.{RunnerView};
    ghost use Rattle.lucy_runner.specs.Homes.{actors_by};
    ghost use Rattle.lucy_runner.specs.Crews.{crew_of, seen_by};
    ghost use Rattle.lucy_runner.specs.Rings.{rings_by};
    ghost use Rattle.lucy_runner.specs.Standing.{IsStanding, AreOutputs};

    ghost Value = { RunnerView };

    ghost view = { λ r. record {
      seen = seen_by r.net r.schedule r.ops r.instants (crew_of r.seats.items) r.places.items;
      before = r.before;
      rings = rings_by (crew_of r.seats.items) r.places.items r.net.rings r.ends.items;
      crew = actors_by (crew_of r.seats.items);
    } };

    ghost invariant = { λ r. IsStanding (seen_by r.net r.schedule r.ops r.instants (crew_of r.seats.items) r.places.items) r.before (crew_of r.seats.items) r.places.items r.ends.items
        × AreOutputs r.net.actors r.outputs.items };
}

// So many blocks have threads, however little they have to do.
const THREADED_BLOCKS: u32 = 16;

impl Runner {
    ghost use Rattle.lucy_host.specs.Host.{Serves, lent};
    ghost use Rattle.lucy_host.specs.Operators.{kinds_of};
    ghost use Rattle.lucy_word.specs.Bits.{ones_to};
    ghost use Rattle.lucy_word.specs.Limits.{limit_number};
    ghost use Rattle.lucy_word.specs.declared.limit.Limit.TheVariants as limit;
    ghost use Rattle.lucy_stream.specs.Fronts.{IsFront};
    ghost use Rattle.lucy_stream.specs.Runs.{none_done, IsRun, between, first_left};
    ghost use Rattle.lucy_stream.specs.States.{State, held, events, IsSame, IsState, Reaches};
    ghost use Rattle.lucy_stream.specs.Plans.{GiveBelow};
    ghost use Rattle.lucy_net.specs.declared.net.Actor.{Actor};
    ghost use Rattle.lucy_net.specs.declared.net.RingSpec.{RingSpec};
    ghost use Rattle.lucy_net.specs.Proper.{IsSupplied};
    ghost use Rattle.lucy_core.specs.Seen.{plan_of, machine_of, order_of, state_of, done_of, after_picks, CanStep, CanRun, IsOver, IsUnbegun, IsOutputOf, first_ring, stream_of};
    ghost use Rattle.lucy_runner.specs.Views.{AreRingsIn, first_runner, most_workers};
    ghost use Rattle.lucy_runner.specs.Homes.{crew_by, actors_by};
    ghost use Rattle.lucy_runner.specs.Blocks.{longer_inputs, grown_seen};
    ghost use Rattle.lucy_runner.specs.Rounds.{IsRoundTo};
    ghost use Rattle.lucy_runner.specs.Crews.{crew_of};
    ghost use Rattle.lucy_runner.specs.Turns.{AreServed};
    ghost use Rattle.lucy_runner.specs.Finishing.{HaveFinished};

    /// A runner of a core without an event so far, by 1 to 64 workers: the actor of a number is in the worker that is its home. The list
    /// of an input that doesn't fire may be missing; it is an empty one. Each ring gets its size and one slot more. All memory that rounds use is made here.
    pub fn new(alloc: Global, core: Core, workers: u32, homes: &[u32]) -> Result<Runner, AllocError>
        requires unbegun { IsUnbegun core }
        requires workers { (1 ≤ workers) × (workers ≤ most_workers) }
        requires homes { length homes.now ≡ length core.net.actors }
        requires each { All (λ home. home < workers) homes.now }
        ensures first { IfOk result (λ runner. runner ≡ first_runner core runner.crew) }
        ensures crew { IfOk result (λ runner. runner.crew ≡ crew_by workers homes.now) }
    {
        let parts = core.into_parts();
        let crew = seat_all(alloc, &parts, workers, homes)?;
        Ok(Runner {
            net: parts.net,
            schedule: parts.schedule,
            ops: parts.ops,
            instants: parts.instants,
            before: 0,
            seats: crew.seats,
            places: crew.places,
            ends: crew.ends,
            outputs: crew.outputs,
            route: crew.route,
            blocks: 0,
        })
    }

    /// A round: a turn of every worker, where there are several each in a thread of its own; then passes of one thread along all actors
    /// until none can move; and then a meeting of the two ends of every ring. Answers the number of moves, 0 exactly where every actor
    /// had done its list. It takes no memory, and returns if the gate does.
    pub fn round<R: Threads + Sync, F: Fn(u32, i64, i64) -> i64 + Sync, G: Gate + Sync>(
        &mut self,
        rt: &R,
        host: &Host<F>,
        gate: &G,
    ) -> u64
        requires serves { Serves F.pre F.post host.now }
        requires kinds { kinds_of (lent host.now) ≡ kinds_of self.old.seen.operators }
        ensures round { IsRoundTo self.old.seen self.new.seen result }
        ensures before { self.new.before ≡ self.old.before }
        ensures crew { self.new.crew ≡ self.old.crew }
    {
        let seats = self.seats.as_mut_slice();
        let turned = turn_apart(rt, seats, host, gate);
        let moves = turned + passes_along(seats, self.route.as_slice(), host, FULL_ROUND);
        meet_all(
            seats,
            self.net.rings.list(),
            self.places.as_slice(),
            self.ends.as_slice(),
        );
        moves
    }

    /// A round by one thread: in place of its turn each worker goes over its actors once and passes no gate, and behind so many moves,
    /// of at most 2^40 that count, there is no pass along the actors more.
    pub fn round_in_place<F: Fn(u32, i64, i64) -> i64 + Sync>(
        &mut self,
        host: &Host<F>,
        most: u64,
    ) -> u64
        requires serves { Serves F.pre F.post host.now }
        requires kinds { kinds_of (lent host.now) ≡ kinds_of self.old.seen.operators }
        ensures round { IsRoundTo self.old.seen self.new.seen result }
        ensures before { self.new.before ≡ self.old.before }
        ensures crew { self.new.crew ≡ self.old.crew }
    {
        let seats = self.seats.as_mut_slice();
        let turned = pass_in_place(seats, host);
        let moves = turned + passes_along(seats, self.route.as_slice(), host, most.min(FULL_ROUND));
        let rings = self.net.rings.list();
        meet_all(seats, rings, self.places.as_slice(), self.ends.as_slice());
        moves
    }

    /// A round whose turns a closure makes, which gets the seats of all workers that have actors and lasts until every actor has done its
    /// list, and then a meeting of the two ends of every ring. It takes no memory, and returns if the closure does.
    pub fn round_by_turns<T: FnOnce(&mut [Seat])>(&mut self, turns: T)
        requires { (seats : _) → AreServed (length self.old.seen.operators) (crew_of seats.now) → actors_by (crew_of seats.now) ≡ self.old.crew → T.pre turns seats
            × ((none : _) (after : _) → T.post turns seats none after →
            HaveFinished (kinds_of self.old.seen.operators) seats.now after.now) }
        ensures round { (moves : ℕ) × IsRoundTo self.old.seen self.new.seen moves }
        ensures before { self.new.before ≡ self.old.before }
        ensures crew { self.new.crew ≡ self.old.crew }
        ensures finished { IsOver self.new.seen }
    {
        let seats = self.seats.as_mut_slice();
        turns(seats);
        let (places, ends) = (self.places.as_slice(), self.ends.as_slice());
        meet_all(seats, self.net.rings.list(), places, ends);
    }

    /// Makes rounds until every actor has done its list. From the 17th call that finds something to do on they start no thread and pass no
    /// gate where fewer than 4,096 operations can be left, counting one for each ring of an actor in each firing: these take less time
    /// than threads do to start. It takes no memory, and returns if the gate does.
    pub fn go<R: Threads + Sync, F: Fn(u32, i64, i64) -> i64 + Sync, G: Gate + Sync>(
        &mut self,
        rt: &R,
        host: &Host<F>,
        gate: &G,
    )
        requires serves { Serves F.pre F.post host.now }
        requires kinds { kinds_of (lent host.now) ≡ kinds_of self.old.seen.operators }
        ensures run { (picks : List ℕ) × CanRun self.old.seen picks × (self.new.seen ≡ after_picks self.old.seen picks) }
        ensures before { self.new.before ≡ self.old.before }
        ensures crew { self.new.crew ≡ self.old.crew }
        ensures finished { IsOver self.new.seen }
    {
        let seats = self.seats.as_slice();
        let in_place = self.blocks >= THREADED_BLOCKS && few_left(seats);
        self.blocks = self.blocks.saturating_add(!all_done(seats) as u32);
        while !self.finished() {
            if in_place {
                self.round_in_place(host, FULL_ROUND);
            } else {
                self.round(rt, host, gate);
            }
        }
    }

    /// Whether every actor has done its list.
    pub fn finished(&self) -> bool
        ensures { IsTrue result ↔ IsOver self.now.seen }
    {
        all_done(self.seats.as_slice())
    }

    /// How many actors there are.
    pub fn actors(&self) -> usize
        ensures { result ≡ length self.now.seen.net.actors }
    {
        self.places.len()
    }

    /// How many operations the actor, which is there, has done. It takes no memory.
    pub fn done(&self, actor: u32) -> u64
        requires { actor < length self.now.seen.net.actors }
        ensures { result ≡ done_of self.now.seen.done actor }
    {
        let place = self.places[actor as usize];
        let parts = self.seats[place.seat as usize].worker.parts();
        operations_done(&parts[place.part as usize])
    }

    /// What the output of this number took since its items were carried away last, oldest first: in every state a front of its
    /// stream past these, in the finished one the stream cut at the horizon (Kahn 1974).
    pub fn output(&self, number: u32) -> &[i64]
        requires { (a : ℕ) × (actor : Actor) × IsOutputOf self.now.seen.net number a actor }
        ensures took { (a : ℕ) (actor : Actor) → IsOutputOf self.now.seen.net number a actor →
            result.now ≡ drop (ones_to actor.firing self.now.before) ((state_of self.now.seen).took (first_ring actor)) }
        ensures front { (a givers : ℕ) (actor : Actor) → IsOutputOf self.now.seen.net number a actor → GiveBelow (plan_of self.now.seen) givers →
            IsFront result.now (drop (ones_to actor.firing self.now.before) (stream_of self.now.seen givers (first_ring actor))) }
        ensures finished { (a givers : ℕ) (actor : Actor) → IsOutputOf self.now.seen.net number a actor → GiveBelow (plan_of self.now.seen) givers → IsOver self.now.seen →
            result.now ≡ drop (ones_to actor.firing self.now.before) (take (ones_to actor.firing self.now.seen.instants) (stream_of self.now.seen givers (first_ring actor))) }
    {
        let actor = self.outputs[number as usize];
        let place = self.places[actor as usize];
        let parts = self.seats[place.seat as usize].worker.parts();
        parts[place.part as usize].output.as_slice()
    }

    /// Moves the horizon of a finished runner on, to at most 1,048,576 instants, and appends to each input the items that follow its
    /// own, none where their list is missing: it then needs an item for each firing up to the new horizon. Rings and actors stay as they are, and the outputs' items
    /// count as carried away. All memory that rounds use is made here, before anything else is done, so a refusal changes nothing.
    pub fn more(&mut self, alloc: Global, inputs: &Inputs, instants: u64) -> Result<(), AllocError>
        requires finished { IsOver self.old.seen }
        requires later { self.old.seen.instants ≤ instants }
        requires early { instants ≤ limit_number limit.Instants }
        requires supplied { IsSupplied (longer_inputs self.old.seen.net self.old.seen.inputs inputs.now) self.old.seen.net instants }
        ensures ok { IfOk result (λ _. self.new ≡ record self.old { seen = grown_seen self.old.seen inputs.now instants; before = self.old.seen.instants }) }
        ensures refused { OnErr result (self.new ≡ self.old) }
        ensures same { IfOk result (λ _. IsSame (state_of self.new.seen) (state_of self.old.seen)) }
        ensures joined { IfOk result (λ _. (number a : ℕ) (actor : Actor) (picks : List ℕ) → IsOutputOf self.old.seen.net number a actor → CanRun self.new.seen picks →
            (state_of (after_picks self.new.seen picks)).took (first_ring actor)
            ≡ (state_of self.old.seen).took (first_ring actor) ++ drop (ones_to actor.firing self.new.before) ((state_of (after_picks self.new.seen picks)).took (first_ring actor))) }
    {
        grow_all(alloc, self.seats.as_mut_slice(), inputs, instants)?;
        self.before = self.instants;
        self.instants = instants;
        Ok(())
    }

    /// A runner is always in a state that a run of its net's events reaches, namely the events that are done, in the schedule's
    /// order. Its rings hold, by their two ends, exactly what was given to them and not taken, and have their size and one slot more.
    /// In it each ring holds at most its size and one more, and what was given to it is a front of its giver's stream
    /// (Kahn 1974). The first event of the schedule's order that isn't done is possible. Events lead from the state of a runner
    /// to that of the runner after them, and every state with no fewer operations done is reached from there.
    pub fn is_reached(&self)
        ensures run { IsRun (machine_of self.now.seen).sys none_done (between none_done (done_of self.now.seen.done) (order_of self.now.seen)) }
        ensures state { IsState (machine_of self.now.seen) (state_of self.now.seen) }
        ensures counts { (a : ℕ) → (state_of self.now.seen).done a ≡ done_of self.now.seen.done a }
        ensures rings { AreRingsIn self.now.seen self.now.rings }
        ensures most { (r : ℕ) (ring : RingSpec) → slice_get self.now.seen.net.rings r ≡ Some ring → length (held (state_of self.now.seen) r) ≤ ring.size + 1 }
        ensures fronts { (r givers : ℕ) → GiveBelow (plan_of self.now.seen) givers → IsFront ((state_of self.now.seen).gave r) (stream_of self.now.seen givers r) }
        ensures next { (a : ℕ) → first_left (done_of self.now.seen.done) (order_of self.now.seen) ≡ Some a → CanStep self.now.seen a }
        ensures events { (picks : List ℕ) → CanRun self.now.seen picks → IsSame (state_of (after_picks self.now.seen picks)) (events (machine_of self.now.seen) (state_of self.now.seen) picks) }
        ensures converse { (s : State) → IsState (machine_of self.now.seen) s → ((a : ℕ) → done_of self.now.seen.done a ≤ s.done a) →
            Reaches (machine_of self.now.seen) (state_of self.now.seen) (between (state_of self.now.seen).done s.done (order_of self.now.seen)) s }
    {
        // For the proof: a look inside tells what holds of every runner.
        let _ = &self.net;
    }
}
