// Where a core stands in the schedule's order.
ghost use Rattle.std.specs.Prelude.{ℕ, ◌≡◌, ◌≤◌, ◌<◌, ◌+◌, [], List, Option, Some, None, false, length, drop, replicate, slice_get, slice_index_or, IsTrue, IfOk, IfSome};
ghost use Rattle.lucy_word.specs.Limits.{limit_number};
ghost use Rattle.lucy_word.specs.declared.limit.Limit.TheVariants as limit;
ghost use Rattle.lucy_stream.specs.Runs.{first_left};
ghost use Rattle.lucy_core.specs.Seen.{done_of, one_more, order_on};
ghost use Rattle.lucy_core.specs.Cursors.{row_at, StandsInOrder, HasPassed};

use lucy_net::Schedule;
use std::alloc::{AllocError, Global};

/// It goes over the schedule's events once, behind those that are done, so that the first one that isn't is at hand.
#[derive(Drop)]
pub(crate) struct Cursor {
    // its instant, 0 before the first one, the row of that, and the event there
    instant: u64,
    row: u64,
    index: usize,
    // how many events of each actor stand before it
    passed: Vec<u64>,
    // the actor of the first event that isn't done
    next: Option<u32>,
}

// The count of an actor that is there.
fn count_there(counts: &[u64], actor: u32) -> Option<u64>
    ensures { result ≡ slice_get counts.now actor }
{
    counts.get(actor as usize).copied()
}

// The count of an actor, 0 of a number that is no actor's.
fn count_at(counts: &[u64], actor: u32) -> u64
    ensures { result ≡ done_of counts.now actor }
{
    match count_there(counts, actor) {
        Some(count) => count,
        None => 0,
    }
}

// Counts an event of the actor as passed, if it is done.
fn pass(passed: &mut Vec<u64>, actor: u32, done: &[u64]) -> bool
    requires { length passed.old.items ≡ length done.now }
    ensures yes { IsTrue result → HasPassed passed.old.items passed.new.items done.now actor }
    ensures no { result ≡ false → (passed.new.items ≡ passed.old.items) × (done_of done.now actor ≤ done_of passed.old.items actor) }
{
    let before = count_at(passed, actor);
    if count_at(done, actor) <= before {
        return false;
    }
    passed[actor as usize] = before + 1;
    true
}

impl Cursor {
    /// Before so many instants, where nothing is done.
    pub fn new(
        alloc: Global,
        schedule: &Schedule,
        instants: u64,
        done: &[u64],
    ) -> Result<Cursor, AllocError>
        requires early { instants ≤ limit_number limit.Instants }
        requires none { (n : ℕ) × (done.now ≡ replicate n 0) }
        ensures within { IfOk result (StandsInOrder schedule.now instants done.now) }
        ensures next { IfOk result (λ c. c.next ≡ first_left (done_of done.now) (order_on schedule.now instants)) }
    {
        let passed = vec![in alloc; 0u64; done.len()]?;
        let row = schedule.row(1);
        let mut cursor = Cursor {
            instant: 0,
            row,
            index: schedule.events_of(row).len(),
            passed,
            next: None,
        };
        cursor.go_on(schedule, instants, done);
        Ok(cursor)
    }

    /// The actor of the first event that isn't done.
    pub fn next(&self) -> Option<u32>
        ensures { result ≡ self.now.next }
    {
        self.next
    }

    // Goes on to the next instant.
    fn turn(&mut self, schedule: &Schedule)
        requires { self.old.instant < limit_number limit.Instants }
        ensures instant { self.new.instant ≡ self.old.instant + 1 }
        ensures within { (instants : ℕ) (done : List ℕ) → self.old.instant < instants → drop self.old.index (row_at schedule.now self.old) ≡ [] → StandsInOrder schedule.now instants done self.old →
            StandsInOrder schedule.now instants done self.new }
    {
        self.instant += 1;
        self.row = schedule.row(self.instant);
        self.index = 0;
    }

    // Goes over the events of the row that are done.
    fn pass_row(&mut self, schedule: &Schedule, done: &[u64])
        requires row { self.old.row < length schedule.now.orders }
        requires count { length self.old.passed.items ≡ length done.now }
        ensures instant { self.new.instant ≡ self.old.instant }
        ensures within { (instants : ℕ) → StandsInOrder schedule.now instants done.now self.old → StandsInOrder schedule.now instants done.now self.new }
        ensures some { (instants : ℕ) → StandsInOrder schedule.now instants done.now self.old → IfSome self.new.next (λ a. first_left (done_of done.now) (order_on schedule.now instants) ≡ Some a) }
        ensures none { self.new.next ≡ None → drop self.new.index (row_at schedule.now self.new) ≡ [] }
    {
        let events = schedule.events_of(self.row);
        'each: for index in self.index..events.len() {
            let actor = events[index];
            if !pass(&mut self.passed, actor, done) {
                self.next = Some(actor);
                return;
            }
            self.index = index + 1;
        }
        self.next = None;
    }

    /// Goes over the events that are done.
    pub fn go_on(&mut self, schedule: &Schedule, instants: u64, done: &[u64])
        requires early { instants ≤ limit_number limit.Instants }
        requires within { StandsInOrder schedule.now instants done.now self.old }
        ensures within { StandsInOrder schedule.now instants done.now self.new }
        ensures next { self.new.next ≡ first_left (done_of done.now) (order_on schedule.now instants) }
    {
        self.pass_row(schedule, done);
        'instants: while self.next.is_none() && self.instant < instants {
            self.turn(schedule);
            self.pass_row(schedule, done);
        }
    }
}
