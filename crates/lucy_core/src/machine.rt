ghost use Rattle.std.specs.Prelude.{ℕ, ◌≡◌, ◌↔◌, ◌≤◌, ◌<◌, ◌+◌, ◌++◌, ◌⊎◌, All, take, length, slice_get, slice_index, slice_index_or, [], List, Some, IsTrue, IfOk, IfSome, None};

use crate::circle::Circle;
use crate::cursor::Cursor;
use crate::ends::{input_for, put_out};
use crate::making::begin;
use crate::steps::{count_ended, count_event};
use crate::tray::Tray;
use lucy_host::{Host, Inputs, Ops};
use lucy_net::{ActorState, Move, Net, Schedule, after_give, after_take, give_value, next_move};
use std::alloc::{AllocError, Global};
use std::marker::Model;

/// A net with its schedule and inputs, in a state that a run of its events reaches (Kahn 1974; Cohen and others 2006).
/// Actors, rings and outputs count from 0, instants from 1.
#[derive(Drop)]
pub struct Core {
    net: Net,
    schedule: Schedule,
    inputs: Inputs,
    ops: Ops,
    instants: u64,
    states: Vec<ActorState>,
    done: Vec<u64>,
    // how many actors have a firing left
    going: u64,
    circles: Vec<Circle>,
    trays: Vec<Tray>,
    // the first event of the schedule's order that isn't done, which is always possible
    cursor: Cursor,
}

/// What a core was made of: the net, its schedule, the inputs, the operators of the host and the horizon in instants.
#[derive(Drop)]
pub struct CoreParts {
    pub net: Net,
    pub schedule: Schedule,
    pub inputs: Inputs,
    pub ops: Ops,
    pub instants: u64,
}

impl Model for Core {
    ghost use Rattle.std.specs.Prelude.{◌≡◌};
    ghost use Rattle.lucy_host.specs.Operators.{kinds_of};
    ghost use Rattle.lucy_stream.specs.Runs.{first_left};
    ghost use Rattle.lucy_core.specs.Seen.{Seen, machine_on, order_on, done_of, CanMakeCore};
    ghost use Rattle.lucy_core.specs.Cursors.{StandsInOrder};
    ghost use Rattle.lucy_core.specs.Inside.{going_in, KeepsState};

    ghost Value = { Seen };

    ghost view = { λ c. record { net = c.net; schedule = c.schedule; inputs = c.inputs; operators = c.ops; instants = c.instants; done = c.done.items } };

    ghost invariant = { λ c. CanMakeCore c.net c.schedule c.inputs c.ops c.instants
        × KeepsState c.net (machine_on c.net c.inputs (kinds_of c.ops) c.instants) (order_on c.schedule c.instants) c.instants c.done.items c.states.items c.circles.items c.trays.items
        × (c.going ≡ going_in c.states.items)
        × StandsInOrder c.schedule c.instants c.done.items c.cursor
        × (c.cursor.next ≡ first_left (done_of c.done.items) (order_on c.schedule c.instants)) };
}

impl Core {
    ghost use Rattle.std.specs.Prelude.{◌*◌};
    ghost use Rattle.lucy_host.specs.Host.{Serves, lent};
    ghost use Rattle.lucy_host.specs.Operators.{kinds_of};
    ghost use Rattle.lucy_word.specs.Bits.{ones_to};
    ghost use Rattle.lucy_word.specs.Limits.{limit_number};
    ghost use Rattle.lucy_word.specs.declared.limit.Limit.TheVariants as limit;
    ghost use Rattle.lucy_stream.specs.Fronts.{IsFront};
    ghost use Rattle.lucy_stream.specs.Systems.{Takes, Gives, op_at};
    ghost use Rattle.lucy_stream.specs.Deciding.{run_length};
    ghost use Rattle.lucy_stream.specs.Runs.{none_done, after, IsRun, between, first_left};
    ghost use Rattle.lucy_stream.specs.States.{State, held, events, IsSame, IsState, Reaches};
    ghost use Rattle.lucy_stream.specs.Plans.{GiveBelow};
    ghost use Rattle.lucy_net.specs.declared.net.Actor.{Actor};
    ghost use Rattle.lucy_net.specs.declared.net.RingSpec.{RingSpec};
    ghost use Rattle.lucy_net.specs.Moves.{move_of};
    ghost use Rattle.lucy_net.specs.Schedules.{events_at};
    ghost use Rattle.lucy_core.specs.Seen.{Seen, plan_of, machine_of, order_of, state_of, done_of, stepped, after_picks, CanStep, CanRun, IsOver, HasDoneAtMost, CanGoOn, CanMakeCore, IsUnbegun, IsOutputOf, first_ring, first_seen, stream_of};

    /// A core of a proper net with a sound schedule, without an event so far; the operators are copied. The inputs have an item
    /// for each firing of their actors up to the horizon, which is at most 1,048,576 instants. All memory is made here: no
    /// other call takes any.
    pub fn new(
        alloc: Global,
        net: Net,
        schedule: Schedule,
        inputs: Inputs,
        ops: &Ops,
        instants: u64,
    ) -> Result<Core, AllocError>
        requires { CanMakeCore net schedule inputs ops.now instants }
        ensures { IfOk result (λ core. core ≡ first_seen net schedule inputs ops.now instants) }
    {
        let ops = ops.copy(alloc)?;
        let begun = begin(alloc, &net, &schedule, instants)?;
        Ok(Core {
            net,
            schedule,
            inputs,
            ops,
            instants,
            states: begun.states,
            done: begun.done,
            going: begun.going,
            circles: begun.circles,
            trays: begun.trays,
            cursor: begun.cursor,
        })
    }

    /// The operators that a host of this core lends.
    pub fn ops(&self) -> &Ops
        ensures { result.now ≡ self.now.operators }
    {
        &self.ops
    }

    /// How many operations the actor, which is there, has done.
    pub fn done(&self, actor: u32) -> u64
        requires { actor < length self.now.net.actors }
        ensures { result ≡ done_of self.now.done actor }
    {
        self.done[actor as usize]
    }

    // The actor's next operation.
    fn next(&self, actor: u32) -> Move
        ensures { result ≡ move_of (slice_get ((machine_of self.now).sys.ops actor) (done_of self.now.done actor)) }
    {
        let index = actor as usize;
        if index >= self.states.len() {
            return Move::Done;
        }
        next_move(&self.net.actors.list()[index], &self.states[index])
    }

    /// Whether the actor's next operation is possible: a take finds an item, a give finds at most the ring's size held. A
    /// number that is no actor's isn't possible.
    pub fn can(&self, actor: u32) -> bool
        ensures { IsTrue result ↔ CanStep self.now actor }
    {
        match self.next(actor) {
            Move::Take(ring) => !self.circles[ring as usize].is_empty(),
            Move::Give(ring) => !self.circles[ring as usize].is_full(),
            Move::Done => false,
        }
    }

    // The actor takes the oldest item of the ring.
    fn take(&mut self, actor: usize, ring: usize)
        requires can { CanStep self.old actor }
        requires op { op_at (machine_of self.old).sys actor (done_of self.old.done actor) ≡ Takes ring }
        ensures { self.new ≡ stepped self.old actor }
    {
        let value = self.circles[ring].pop();
        let spec = &self.net.actors.list()[actor];
        after_take(spec, &mut self.states[actor], value);
        put_out(&spec.kind, &mut self.trays, value);
        count_event(&mut self.done, actor);
        count_ended(&self.states[actor], &mut self.going);
        self.cursor.go_on(&self.schedule, self.instants, &self.done);
    }

    // The actor gives its value to the ring.
    fn give<F: Fn(u32, i64, i64) -> i64 + Sync>(
        &mut self,
        host: &Host<F>,
        actor: usize,
        ring: usize,
    )
        requires serves { Serves F.pre F.post host.now }
        requires kinds { kinds_of (lent host.now) ≡ kinds_of self.old.operators }
        requires can { CanStep self.old actor }
        requires op { op_at (machine_of self.old).sys actor (done_of self.old.done actor) ≡ Gives ring }
        ensures { self.new ≡ stepped self.old actor }
    {
        let spec = &self.net.actors.list()[actor];
        let input = input_for(&self.inputs, &spec.kind);
        let value = give_value(spec, &self.states[actor], input, host);
        self.circles[ring].push(value);
        after_give(spec, &mut self.states[actor]);
        count_event(&mut self.done, actor);
        count_ended(&self.states[actor], &mut self.going);
        self.cursor.go_on(&self.schedule, self.instants, &self.done);
    }

    /// Does the actor's next operation, which is possible.
    pub fn step<F: Fn(u32, i64, i64) -> i64 + Sync>(&mut self, host: &Host<F>, actor: u32)
        requires serves { Serves F.pre F.post host.now }
        requires kinds { kinds_of (lent host.now) ≡ kinds_of self.old.operators }
        requires can { CanStep self.old actor }
        ensures { self.new ≡ stepped self.old actor }
    {
        match self.next(actor) {
            Move::Take(ring) => self.take(actor as usize, ring as usize),
            Move::Give(ring) => self.give(host, actor as usize, ring as usize),
            Move::Done => {}
        }
    }

    /// Whether every actor has done its list.
    pub fn finished(&self) -> bool
        ensures { IsTrue result ↔ IsOver self.now }
    {
        self.going == 0
    }

    /// An actor that can step, None exactly where every actor has done its list: nothing is ever stuck. It is the actor of the
    /// first event of the schedule's order that isn't done.
    pub fn pick(&self) -> Option<u32>
        ensures possible { IfSome result (λ a. CanStep self.now a) }
        ensures none { (result ≡ None) ↔ IsOver self.now }
    {
        self.cursor.next()
    }

    /// Does the events of these actors in turn, up to the first that isn't possible, and answers how many.
    pub fn run_picks<F: Fn(u32, i64, i64) -> i64 + Sync>(
        &mut self,
        host: &Host<F>,
        picks: &[u32],
    ) -> u64
        requires serves { Serves F.pre F.post host.now }
        requires kinds { kinds_of (lent host.now) ≡ kinds_of self.old.operators }
        ensures count { result ≡ run_length (machine_of self.old).sys (done_of self.old.done) picks.now }
        ensures done { self.new ≡ after_picks self.old (take result picks.now) }
    {
        // For the proof: a look inside tells what holds of every core.
        let _ = &self.net;
        for (done, actor) in picks.iter().enumerate() {
            if !self.can(*actor) {
                return done as u64;
            }
            self.step(host, *actor);
        }
        picks.len() as u64
    }

    // How many events a row of the schedule has.
    fn event_count(&self, row: u64) -> usize
        requires { row < length self.now.schedule.orders }
        ensures { result ≡ length (slice_index_or self.now.schedule.orders row []) }
    {
        self.schedule.events_of(row).len()
    }

    // The actor of an event of a row.
    fn event(&self, row: u64, i: usize) -> u32
        requires row { row < length self.now.schedule.orders }
        requires there { i < length (slice_index_or self.now.schedule.orders row []) }
        ensures { result ≡ slice_index (slice_index_or self.now.schedule.orders row []) i }
    {
        self.schedule.events_of(row)[i]
    }

    // Does the events of an instant in the schedule's order.
    fn run_instant<F: Fn(u32, i64, i64) -> i64 + Sync>(&mut self, host: &Host<F>, instant: u64)
        requires serves { Serves F.pre F.post host.now }
        requires kinds { kinds_of (lent host.now) ≡ kinds_of self.old.operators }
        requires instant { 1 ≤ instant }
        requires run { CanRun self.old (events_at self.old.schedule instant) }
        ensures { self.new ≡ after_picks self.old (events_at self.old.schedule instant) }
    {
        let row = self.schedule.row(instant);
        for i in 0..self.event_count(row) {
            let actor = self.event(row, i);
            self.step(host, actor);
        }
    }

    /// Does all events in the schedule's order, from a core without an event so far.
    pub fn run_static<F: Fn(u32, i64, i64) -> i64 + Sync>(&mut self, host: &Host<F>)
        requires serves { Serves F.pre F.post host.now }
        requires kinds { kinds_of (lent host.now) ≡ kinds_of self.old.operators }
        requires unbegun { IsUnbegun self.old }
        ensures done { self.new ≡ after_picks self.old (order_of self.old) }
        ensures finished { IsOver self.new }
    {
        let instants = self.instants;
        for before in 0..instants {
            self.run_instant(host, before + 1);
        }
    }

    /// What the output of this number took, oldest first: in every state a front of its stream, in the finished one the
    /// stream cut at the horizon (Kahn 1974).
    pub fn output(&self, number: u32) -> &[i64]
        requires { (a : ℕ) × (actor : Actor) × IsOutputOf self.now.net number a actor }
        ensures took { (a : ℕ) (actor : Actor) → IsOutputOf self.now.net number a actor → result.now ≡ (state_of self.now).took (first_ring actor) }
        ensures front { (a givers : ℕ) (actor : Actor) → IsOutputOf self.now.net number a actor → GiveBelow (plan_of self.now) givers →
            IsFront result.now (stream_of self.now givers (first_ring actor)) }
        ensures finished { (a givers : ℕ) (actor : Actor) → IsOutputOf self.now.net number a actor → GiveBelow (plan_of self.now) givers → IsOver self.now →
            result.now ≡ take (ones_to actor.firing self.now.instants) (stream_of self.now givers (first_ring actor)) }
    {
        self.trays[number as usize].list()
    }

    /// A core is always in a state that a run of its net's events reaches, namely the events that are done, in the schedule's
    /// order. In it each ring holds at most its size and one more, and what was given to it is a front of its giver's stream
    /// (Kahn 1974). The first event of the schedule's order that isn't done is possible. Events lead from the state of a core
    /// to that of the core after them, and every state with no fewer operations done is reached from there.
    pub fn is_reached(&self)
        ensures run { IsRun (machine_of self.now).sys none_done (between none_done (done_of self.now.done) (order_of self.now)) }
        ensures state { IsState (machine_of self.now) (state_of self.now) }
        ensures counts { (a : ℕ) → (state_of self.now).done a ≡ done_of self.now.done a }
        ensures most { (r : ℕ) (ring : RingSpec) → slice_get self.now.net.rings r ≡ Some ring → length (held (state_of self.now) r) ≤ ring.size + 1 }
        ensures fronts { (r givers : ℕ) → GiveBelow (plan_of self.now) givers → IsFront ((state_of self.now).gave r) (stream_of self.now givers r) }
        ensures next { (a : ℕ) → first_left (done_of self.now.done) (order_of self.now) ≡ Some a → CanStep self.now a }
        ensures events { (picks : List ℕ) → CanRun self.now picks → IsSame (state_of (after_picks self.now picks)) (events (machine_of self.now) (state_of self.now) picks) }
        ensures converse { (s : State) → IsState (machine_of self.now) s → ((a : ℕ) → done_of self.now.done a ≤ s.done a) →
            Reaches (machine_of self.now) (state_of self.now) (between (state_of self.now).done s.done (order_of self.now)) s }
    {
        // For the proof: a look inside tells what holds of every core.
        let _ = &self.net;
    }

    /// How runs go on from a core. There is a number of operations done for each actor, also after events, which count for their
    /// actors, and only actors have events. A run, and then a run from where it leads, are one run. A run that has done no more for
    /// any actor than another leads to the same core, or an actor that has done fewer can go on. Some run leads to the end.
    pub fn runs_go_on(&self)
        ensures counted { (picks : List ℕ) → length (after_picks self.now picks).done ≡ length self.now.net.actors }
        ensures counts { (picks : List ℕ) → CanRun self.now picks → (b : ℕ) → done_of (after_picks self.now picks).done b ≡ after (done_of self.now.done) picks b }
        ensures actors { (picks : List ℕ) → CanRun self.now picks → All (λ a. a < length self.now.net.actors) picks }
        ensures few { length self.now.net.actors ≤ limit_number limit.Actors }
        ensures joined { (picks more : List ℕ) → CanRun self.now picks → CanRun (after_picks self.now picks) more → CanRun self.now (picks ++ more) }
        ensures towards { (picks other : List ℕ) → CanRun self.now picks → CanRun self.now other → HasDoneAtMost (after_picks self.now picks) (after_picks self.now other).done →
            (after_picks self.now picks ≡ after_picks self.now other) ⊎ CanGoOn (after_picks self.now picks) (after_picks self.now other).done }
        ensures end { (picks : List ℕ) × CanRun self.now picks × IsOver (after_picks self.now picks) }
    {
        // For the proof: a look inside tells what holds of every core.
        let _ = &self.net;
    }

    /// What it was made of.
    pub fn into_parts(self) -> CoreParts
        ensures net { result.net ≡ self.net }
        ensures schedule { result.schedule ≡ self.schedule }
        ensures inputs { result.inputs ≡ self.inputs }
        ensures ops { result.ops ≡ self.operators }
        ensures instants { result.instants ≡ self.instants }
        ensures fixed { CanMakeCore result.net result.schedule result.inputs result.ops result.instants }
    {
        CoreParts {
            net: self.net,
            schedule: self.schedule,
            inputs: self.inputs,
            ops: self.ops,
            instants: self.instants,
        }
    }
}
