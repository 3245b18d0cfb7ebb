// The figures of a run.
ghost use Rattle.std.specs.Prelude.{ℤ, ◌≡◌, ◌≤◌, ◌<◌, ◌+◌, ◌^◌, List, ◌++◌, IfOk, length, string_bytes};
ghost use Rattle.lucy_word.specs.Limits.{limit_number};
ghost use Rattle.lucy_word.specs.declared.limit.Limit.TheVariants as limit;
ghost use Rattle.lucy_make.specs.Figures as spec;

use lucy_net::{Net, RingSpec};
use std::alloc::{AllocError, Global};

/// How many actors, rings and slots of rings a net has.
#[derive(Clone, Copy)]
pub(crate) struct Counts {
    pub actors: usize,
    pub rings: usize,
    pub slots: u64,
}

/// How many values there are so far, and their sum in 64 bits.
#[derive(Clone, Copy)]
pub(crate) struct Tally {
    pub count: u64,
    pub sum: i64,
}

// The sum of values, in 64 bits, behind those that have the sum before.
fn sum_on(before: i64, values: &[i64]) -> i64
    ensures { (prior : List ℤ) → before ≡ spec.sum_of prior → result ≡ spec.sum_of (prior ++ values.now) }
{
    let mut sum = before;
    'each: for value in values {
        sum = sum.wrapping_add(*value);
    }
    sum
}

impl Tally {
    /// Counts more values behind those so far.
    pub(crate) fn add(&mut self, values: &[i64])
        requires { self.old.count + length values.now < 2 ^ 64 }
        ensures count { self.new.count ≡ self.old.count + length values.now }
        ensures sum { (prior : List ℤ) → self.old.sum ≡ spec.sum_of prior → self.new.sum ≡ spec.sum_of (prior ++ values.now) }
    {
        self.count += values.len() as u64;
        self.sum = sum_on(self.sum, values);
    }
}

// The slots of rings, of which each has one more than its size.
fn slots_of(rings: &[RingSpec]) -> u64
    requires { spec.net_slots rings.now ≤ limit_number limit.Slots }
    ensures { result ≡ spec.net_slots rings.now }
{
    let mut slots = 0;
    'each: for ring in rings {
        slots += ring.size + 1;
    }
    slots
}

/// Those of this net, which has at most 1,048,576 slots.
pub(crate) fn counts_of(net: &Net) -> Counts
    requires { spec.net_slots net.now.rings ≤ limit_number limit.Slots }
    ensures actors { result.actors ≡ length net.now.actors }
    ensures rings { result.rings ≡ length net.now.rings }
    ensures slots { result.slots ≡ spec.net_slots net.now.rings }
{
    Counts {
        actors: net.actors.list().len(),
        rings: net.rings.list().len(),
        slots: slots_of(net.rings.list()),
    }
}

// The lines of a program of so many stages whose net has these counts.
fn net_lines(alloc: Global, stages: u64, counts: Counts) -> Result<String, AllocError>
    ensures { IfOk result (λ s. string_bytes s ≡ spec.net_lines stages counts.actors counts.rings counts.slots) }
{
    let Counts {
        actors,
        rings,
        slots,
    } = counts;
    format!(in alloc; "stages {stages}\nactors {actors}\nrings {rings}\nslots {slots}\n")
}

// The lines of a run of so many instants, with this tally of its outputs.
fn run_lines(alloc: Global, instants: u64, tally: Tally) -> Result<String, AllocError>
    ensures { IfOk result (λ s. string_bytes s ≡ spec.run_lines instants tally.count tally.sum) }
{
    let Tally {
        count: outputs,
        sum,
    } = tally;
    format!(in alloc; "instants {instants}\noutputs {outputs}\nsum {sum}\n")
}

/// The seven lines of a run of so many stages and instants, by a net of these counts, that prints values of this tally.
pub(crate) fn print(
    alloc: Global,
    stages: u64,
    counts: Counts,
    instants: u64,
    tally: Tally,
) -> Result<Vec<u8>, AllocError>
    ensures { IfOk result (λ v. v.items ≡ spec.net_lines stages counts.actors counts.rings counts.slots ++ spec.run_lines instants tally.count tally.sum) }
{
    let run = run_lines(alloc, instants, tally)?;
    let mut lines = net_lines(alloc, stages, counts)?.into_bytes();
    lines.extend_from_slice(run.as_bytes())?;
    Ok(lines)
}
