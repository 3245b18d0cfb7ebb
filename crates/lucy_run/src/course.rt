// A run from block to block.
ghost use Rattle.std.specs.Prelude.{ℕ, ◌≡◌, ◌≢◌, ◌≤◌, ◌<◌, ◌+◌, ◌^◌, ◌⊎◌, [], None, true, false, map, length, IfOk, OnOk, OnErr};
ghost use Rattle.lucy_word.specs.Bits.{ones_to};
ghost use Rattle.lucy_word.specs.Limits.{limit_number};
ghost use Rattle.lucy_word.specs.declared.limit.Limit.TheVariants as limit;
ghost use Rattle.lucy_host.specs.Host.{Serves, lent};
ghost use Rattle.lucy_host.specs.Operators.{kinds_of};
ghost use Rattle.lucy_place.specs.Proper.{HaveOperators};
ghost use Rattle.lucy_net.specs.Orders.{IsSound};
ghost use Rattle.lucy_net.specs.Schedules.{events_at};
ghost use Rattle.lucy_flat.specs.Clocked.{AreClocked};
ghost use Rattle.lucy_flat.specs.Flat.{IsFlat};
ghost use Rattle.lucy_kahn.specs.Spots.{main_of};
ghost use Rattle.lucy_kahn.specs.Turns.{params_in};
ghost use Rattle.lucy_lines.specs.Resuming.{AreMet};
ghost use Rattle.lucy_results.specs.Playing.{crew_for};
ghost use Rattle.lucy_run.specs.Paces.{IsPace, IsBlock};
ghost use Rattle.lucy_run.specs.Owes as owes;
ghost use Rattle.lucy_run.specs.Courses.{AreSilent, IsUnread, IsNextTarget, IsCourseBegun, IsCourseUnderWay, HasMore, HasStopped, GivesUpBehind, CourseGoesOn, EndsOver};
ghost use Rattle.lucy_run.specs.Played.{ReadsOn, CountsAllow, PlayerCanGoOn, PlayerHasGoneOn};

use crate::ending::Ending;
use crate::horizons::{ending_for, most_instants};
use crate::pace::Pace;
use lucy_clock::NodeClock;
use lucy_host::{Host, Inputs};
use lucy_lines::{FeedReader, InputSpec, OutputSpec, empty_lists, values_in_turn};
use lucy_net::{Net, Schedule};
use lucy_place::Placed;
use lucy_results::{Player, allows_more, horizon, param_words};
use lucy_text::Source;
use lucy_word::{Limit, Word};
use lucy_worker::Gate;
use std::alloc::{AllocError, Global};
use std::marker::Model;
use std::thread::Threads;

/// A run between blocks: what reads the items of main's inputs, and what runs the program from horizon to horizon.
#[derive(Drop)]
pub struct Course<'a> {
    // of main's inputs
    words: &'a [Word],
    // of main's results
    outputs: &'a [OutputSpec],
    reader: FeedReader,
    player: Player<'a>,
    // how many instants the run is to have, and how many a block
    given: Option<u64>,
    block: u64,
    // to which instant the last block was to go, and to which it went
    target: u64,
    horizon: u64,
}

impl<'a> Model for Course<'a> {
    ghost use Rattle.lucy_run.specs.Courses.{CourseView};

    ghost Value = { CourseView };

    ghost view = { λ c. record { words = c.words.now; outputs = c.outputs.now; reader = c.reader; player = c.player; given = c.given; block = c.block; target = c.target; horizon = c.horizon } };
}

// What reads the items of these inputs, and an empty list for each.
fn unread(alloc: Global, inputs: Vec<InputSpec>) -> Result<(FeedReader, Inputs), AllocError>
    requires { length inputs.items < 2 ^ 32 }
    ensures { IfOk result (λ r. IsUnread inputs.items r.0 r.1) }
{
    let none = empty_lists(alloc, inputs.len())?;
    let reader = FeedReader::new(alloc, inputs)?;
    Ok((reader, none))
}

// How many items of each input, of these words, so many instants need.
fn wanted_at(alloc: Global, words: &[Word], instants: u64) -> Result<Vec<u64>, AllocError>
    ensures { IfOk result (λ wanted. wanted.items ≡ map (λ word. ones_to word instants) words.now) }
{
    Ok(words.iter().map(|word| word.ones(instants)).collect(alloc)?)
}

// The last instant, up to the most, to which a word has no more ones than up to an instant.
fn still_to(word: &Word, from: u64, most: u64) -> u64
    requires later { from ≤ most }
    requires few { most ≤ limit_number limit.Instants }
    ensures from { from ≤ result }
    ensures most { result ≤ most }
    ensures still { (t : ℕ) → from ≤ t → t ≤ result → ones_to word.now t ≡ ones_to word.now from }
{
    if from == most {
        return from;
    }
    match word.index(word.ones(from) + 1) {
        Some(place) => most.min(place - 1),
        None => most,
    }
}

// The last instant, up to the most, to which no output has more items than up to an instant.
fn silent_to(outputs: &[OutputSpec], from: u64, most: u64) -> u64
    requires later { from ≤ most }
    requires few { most ≤ limit_number limit.Instants }
    ensures from { from ≤ result }
    ensures most { result ≤ most }
    ensures silent { AreSilent outputs.now from result }
{
    let mut last = most;
    'each: for output in outputs {
        last = still_to(&output.word, from, last);
    }
    last
}

// The most instants of several blocks that are run as one: as many as the block of a command to which none is given has.
const LONG_BLOCK: u64 = 4_096;

impl<'a> Course<'a> {
    /// A run before its first instant, by the workers of its pace, each on a thread of its own: actor `a` is in worker `a mod workers`.
    pub fn new<R: Threads + Sync, F: Fn(u32, i64, i64) -> i64 + Sync, G: Gate + Sync>(
        rt: &R,
        alloc: Global,
        placed: &'a Placed,
        clocks: &'a [NodeClock],
        net: Net,
        schedule: Schedule,
        inputs: Vec<InputSpec>,
        outputs: &'a [OutputSpec],
        host: &Host<F>,
        gate: &G,
        pace: Pace,
    ) -> Result<Course<'a>, AllocError>
        requires clocked { AreClocked placed.now.nodes clocks.now }
        requires flat { IsFlat placed.now.nodes clocks.now net }
        requires sound { IsSound net (events_at schedule) }
        requires serves { Serves F.pre F.post host.now }
        requires known { HaveOperators (length (lent host.now)) placed.now.nodes }
        requires inputs { length inputs.items ≡ params_in (main_of placed.now.nodes) }
        requires few { length inputs.items < 2 ^ 32 }
        requires pace { IsPace pace }
        ensures begun { IfOk result (IsCourseBegun (kinds_of (lent host.now)) placed.now.nodes clocks.now inputs.items outputs.now pace) }
        ensures crew { IfOk result (λ course. course.player.crew ≡ crew_for net pace.workers) }
    {
        let words = param_words(placed, clocks);
        let (reader, none) = unread(alloc, inputs)?;
        match Player::new(
            rt,
            alloc,
            placed,
            clocks,
            net,
            schedule,
            host,
            gate,
            none,
            0,
            pace.workers,
        ) {
            Ok(player) => Ok(Course {
                words,
                outputs,
                reader,
                player,
                given: pace.instants,
                block: pace.block,
                target: 0,
                horizon: 0,
            }),
            Err(error) => {
                drop(reader);
                Err(error)
            }
        }
    }

    /// How many instants were run.
    pub fn horizon(&self) -> u64
        ensures { result ≡ self.now.horizon }
    {
        self.horizon
    }

    /// Whether there is a block more: the last one went as far as it was to go, which isn't yet as far as the run is to go.
    pub fn goes_on(&self) -> bool
        ensures more { result ≡ true → HasMore self.now }
        ensures stopped { result ≡ false → HasStopped self.now }
    {
        self.horizon == self.target && self.target < most_instants(self.given)
    }

    // To which instant the next block is to go. Those before it in which no output has an item are run with it, as far as all together have
    // no more instants than a long block.
    fn next_target(&self) -> u64
        requires early { self.now.target ≤ owes.most_instants self.now.given }
        requires few { owes.most_instants self.now.given ≤ limit_number limit.Instants }
        requires block { IsBlock self.now.block }
        ensures goes { IsNextTarget self.now.outputs self.now.block (owes.most_instants self.now.given) self.now.target result }
        ensures ahead { self.now.target < owes.most_instants self.now.given → self.now.target < result }
    {
        let most = most_instants(self.given);
        let spare = LONG_BLOCK.saturating_sub(self.block);
        let silent = silent_to(self.outputs, self.target, most.min(self.target + spare));
        let skipped = (silent - self.target) / self.block * self.block;
        most.min(self.target + skipped + self.block)
    }

    // To which instant the items that were read allow, up to this one.
    fn allowed(&self, target: u64) -> u64
        requires { length self.now.reader.counts ≡ length self.now.words }
        ensures { CountsAllow self.now.words self.now.reader.counts target result }
    {
        horizon(self.words, self.reader.counts(), target)
    }

    // The last block was to go to this instant, and went to this one.
    fn stand_at(&mut self, target: u64, horizon: u64)
        ensures { self.new ≡ record self.old { target = target; horizon = horizon } }
    {
        self.target = target;
        self.horizon = horizon;
    }

    // Reads until there are the items that so many instants need, or reading stops.
    fn read<I: Source>(
        &mut self,
        alloc: Global,
        instants: u64,
        source: &mut I,
    ) -> Result<(), AllocError>
        requires { length self.old.words ≡ length self.old.reader.reader.inputs }
        ensures reads { OnOk result (ReadsOn self.old.words instants (I.seen source.old) (I.seen source.new) self.old.reader self.new.reader) }
        ensures gives_up { OnErr result (GivesUpBehind self.old.words self.old.target (I.seen source.old) (I.seen source.new) self.old.reader) }
        ensures enough { OnOk result ((self.new.reader.reader.ended ≡ true) ⊎ AreMet (map (λ word. ones_to word instants) self.old.words) self.new.reader.counts) }
        ensures rest { self.new ≡ record self.old { reader = self.new.reader } }
        ensures unread { self.old.words ≡ [] → source.new ≡ source.old }
        ensures count { (I.seen source.old).faults ≤ (I.seen source.new).faults }
    {
        values_in_turn();
        let wanted = wanted_at(alloc, self.words, instants)?;
        self.reader.read_to(alloc, &wanted, source)?;
        Ok(())
    }

    // Runs the program on to this horizon, with the items that were read. What the streams of main's results then have more.
    fn go_on<R: Threads + Sync, F: Fn(u32, i64, i64) -> i64 + Sync, G: Gate + Sync>(
        &mut self,
        rt: &R,
        alloc: Global,
        host: &Host<F>,
        gate: &G,
        horizon: u64,
    ) -> Result<Inputs, AllocError>
        requires serves { Serves F.pre F.post host.now }
        requires kinds { kinds_of (lent host.now) ≡ self.old.player.kinds }
        requires can { PlayerCanGoOn self.old.player self.old.reader.fresh horizon }
        ensures gone { IfOk result (λ lists. PlayerHasGoneOn self.old.reader self.old.player self.new.reader self.new.player horizon lists) }
        ensures rest { self.new ≡ record self.old { reader = self.new.reader; player = self.new.player } }
        ensures crew { self.new.player.crew ≡ self.old.player.crew }
    {
        self.player
            .go_on(rt, alloc, host, gate, self.reader.fresh(), horizon)?;
        self.reader.carry_away(alloc)?;
        self.player.outputs(alloc)
    }

    /// Reads the items that the next block needs, or all that there are, and runs the program as far as they allow. What the streams
    /// of main's results have more then: a list for each, in order.
    pub fn next_block<
        R: Threads + Sync,
        F: Fn(u32, i64, i64) -> i64 + Sync,
        G: Gate + Sync,
        I: Source,
    >(
        &mut self,
        rt: &R,
        alloc: Global,
        host: &Host<F>,
        gate: &G,
        source: &mut I,
    ) -> Result<Inputs, AllocError>
        requires serves { Serves F.pre F.post host.now }
        requires kinds { kinds_of (lent host.now) ≡ self.old.player.kinds }
        requires under_way { IsCourseUnderWay (I.seen source.old) self.old }
        requires more { HasMore self.old }
        ensures goes_on { IfOk result (CourseGoesOn (I.seen source.old) (I.seen source.new) self.old self.new) }
        ensures gives_up { OnErr result (GivesUpBehind self.old.words self.old.target (I.seen source.old) (I.seen source.new) self.old.reader) }
        ensures ahead { OnOk result (self.old.target < self.new.target) }
        ensures given { self.new.given ≡ self.old.given }
        ensures block { self.new.block ≡ self.old.block }
        ensures crew { self.new.player.crew ≡ self.old.player.crew }
        ensures unread { self.old.words ≡ [] → source.new ≡ source.old }
        ensures count { (I.seen source.old).faults ≤ (I.seen source.new).faults }
    {
        values_in_turn();
        let target = self.next_target();
        self.read(alloc, target, source)?;
        let horizon = self.allowed(target);
        let streams = self.go_on(rt, alloc, host, gate, horizon)?;
        self.stand_at(target, horizon);
        Ok(streams)
    }

    /// Reads the input on to its stop. How the run ends, which then is over.
    pub(crate) fn end<I: Source>(&mut self, source: &mut I) -> Ending
        requires under_way { IsCourseUnderWay (I.seen source.old) self.old }
        requires given { self.old.words ≡ [] → self.old.given ≢ None }
        ensures over { EndsOver (I.seen source.old) (I.seen source.new) self.old result }
        ensures unread { self.old.words ≡ [] → source.new ≡ source.old }
        ensures count { (I.seen source.old).faults ≤ (I.seen source.new).faults }
    {
        if self.words.is_empty() {
            return Ending::Done;
        }
        values_in_turn();
        self.reader.pass_rest(source);
        let more = allows_more(self.words, self.reader.counts(), Limit::Instants.number());
        ending_for(self.given, more, self.reader.fault())
    }

    /// Reads the input on to its stop. How the run ends.
    pub fn finish<I: Source>(mut self, source: &mut I) -> Ending
        requires under_way { IsCourseUnderWay (I.seen source.old) self }
        requires given { self.words ≡ [] → self.given ≢ None }
        ensures over { EndsOver (I.seen source.old) (I.seen source.new) self.entry result }
        ensures unread { self.entry.words ≡ [] → source.new ≡ source.old }
        ensures count { (I.seen source.old).faults ≤ (I.seen source.new).faults }
    {
        let ending = self.end(source);
        drop(self);
        ending
    }
}
