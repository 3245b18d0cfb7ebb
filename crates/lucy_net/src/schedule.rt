// The schedule of a net.
ghost use Rattle.std.specs.Prelude.{◌≡◌, ◌<◌, ◌≤◌, [], length, slice_index_or, IfOk, IfErr, MatchResult};
ghost use Rattle.lucy_net.specs.Proper.{IsProper};
ghost use Rattle.lucy_net.specs.Schedules.{Timetable, row_of, events_at, IsScheduleOf, RefusesTimetable, TellSame};
ghost use Rattle.lucy_net.specs.declared.error.CauseFault.TheVariants as fault;

use crate::agenda::agenda_of;
use crate::count::operations_in;
use crate::error::CauseFault;
use crate::lengths::lengths_of;
use crate::net::Net;
use crate::play::play_all;
use crate::words::net_words_are_stored;
use lucy_word::Limit;
use std::alloc::Global;
use std::marker::Model;

/// The events of each instant in a possible order. Past the prefix they come again with the period.
#[derive(Drop)]
pub struct Schedule {
    prefix: u64,
    period: u64,
    orders: Vec<Vec<u32>>,
}

impl Model for Schedule {
    ghost use Rattle.std.specs.Prelude.{◌≡◌, ◌+◌, ◌<◌, ◌≤◌, length};
    ghost use Rattle.lucy_word.specs.Limits.{limit_number};
    ghost use Rattle.lucy_word.specs.declared.limit.Limit.TheVariants as limit;
    ghost use Rattle.lucy_net.specs.Schedules.{Timetable};
    ghost use Rattle.lucy_net.specs.Faults.{rows_of};

    ghost Value = { Timetable };

    ghost view = { λ s. record { prefix = s.prefix; period = s.period; orders = rows_of s.orders.items } };

    ghost invariant = { λ s. (0 < s.period) × (length s.orders.items ≡ s.prefix + s.period) × (s.prefix + s.period ≤ limit_number limit.Schedule) };
}

/// The schedule of a net: the greatest prefix length of its words and the least common multiple of their period lengths, and
/// for these instants the events in a possible order.
///
/// `Limit(Schedule)` comes where these are more than 1,048,576 instants, else `Limit(Events)` where they have more than
/// 4,194,304 events, else `Cycle` where an item reaches itself.
pub fn schedule_of(alloc: Global, net: &Net) -> Result<Schedule, CauseFault>
    requires { IsProper net.now }
    ensures ok { IfOk result (IsScheduleOf net.now) }
    ensures refused { IfErr result (RefusesTimetable net.now) }
    ensures scheduled { (s : Timetable) → IsScheduleOf net.now s → MatchResult result (λ got. (got.prefix ≡ s.prefix) × (got.period ≡ s.period)) (λ e. e ≡ fault.OutOfMemory) }
    ensures only { (e : CauseFault) → RefusesTimetable net.now e → MatchResult result (λ _. e ≡ fault.OutOfMemory) (TellSame e) }
{
    net_words_are_stored(net);
    let Some(lengths) = lengths_of(net) else {
        return Err(CauseFault::Limit(Limit::Schedule));
    };
    let instants = lengths.prefix + lengths.period;
    if operations_in(net, instants) > Limit::Events.number() {
        return Err(CauseFault::Limit(Limit::Events));
    }
    let agenda = agenda_of(alloc, net, instants)?;
    let orders = play_all(alloc, net, &agenda)?;
    Ok(Schedule {
        prefix: lengths.prefix,
        period: lengths.period,
        orders,
    })
}

impl Schedule {
    /// The lengths of the prefix and of the period, in instants.
    pub fn lengths(&self) -> (u64, u64)
        ensures prefix { result.0 ≡ self.now.prefix }
        ensures period { result.1 ≡ self.now.period }
    {
        (self.prefix, self.period)
    }

    /// The row of an instant, which is at least 1. Past the prefix the rows come again with the period.
    pub fn row(&self, instant: u64) -> u64
        requires { 1 ≤ instant }
        ensures is { result ≡ row_of self.now instant }
        ensures there { result < length self.now.orders }
    {
        if instant <= self.prefix {
            instant - 1
        } else {
            self.prefix + (instant - self.prefix - 1) % self.period
        }
    }

    /// The actors of the events of a row, in a possible order. Rows count from 0.
    pub fn events_of(&self, row: u64) -> &[u32]
        requires { row < length self.now.orders }
        ensures { result.now ≡ slice_index_or self.now.orders row [] }
    {
        &self.orders[row as usize]
    }

    /// The actors of the events of an instant, which is at least 1, in a possible order.
    pub fn events(&self, instant: u64) -> &[u32]
        requires { 1 ≤ instant }
        ensures { result.now ≡ events_at self.now instant }
    {
        self.events_of(self.row(instant))
    }
}
