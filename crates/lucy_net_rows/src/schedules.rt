// Nets and their schedules.
ghost use Rattle.std.specs.Prelude.{◌≤◌};

use crate::page::Page;
use lucy_net::{Net, Schedule};

// The instants of longer schedules are not shown, nor are the events of each actor where there are more.
const MOST_INSTANTS: u64 = 8;

const MOST_ACTORS: usize = 10;

// How many slots the rings of a net have: the size of each and one more.
fn slots_of(net: &Net) -> u64 {
    let mut slots = 0u64;
    for ring in net.rings.list() {
        slots = slots.saturating_add(ring.size).saturating_add(1);
    }
    slots
}

// How many events the first instants have, so many.
fn events_to(schedule: &Schedule, instants: u64) -> u64 {
    let mut count = 0u64;
    for before in 0..instants {
        count = count.saturating_add(schedule.events(before + 1).len() as u64);
    }
    count
}

// Shows how many events an instant has, and of few actors how many each of them has.
fn show_instant(page: &mut Page, actors: usize, instant: u64, events: &[u32]) {
    page.put(format_args!("instant {instant}: events {}", events.len()));
    if actors <= MOST_ACTORS {
        page.put(", by actor");
        for actor in 0..actors {
            let mut count = 0usize;
            for event in events {
                count = count.saturating_add((*event as usize == actor) as usize);
            }
            page.put(format_args!(" {count}"));
        }
    }
    page.put("\n");
}

/// Shows the size of a net and what is determined of its schedule, up to the end of its second period.
pub(crate) fn show(page: &mut Page, net: &Net, schedule: &Schedule) {
    let actors = net.actors.list().len();
    let rings = net.rings.list().len();
    page.put(format_args!("actors {actors}, rings {rings}, slots {}\n", slots_of(net)));
    let (prefix, period) = schedule.lengths();
    let once = prefix.saturating_add(period);
    page.put(format_args!(
        "prefix {prefix}, period {period}, events {}\n",
        events_to(schedule, once)
    ));
    let twice = once.saturating_add(period);
    if twice <= MOST_INSTANTS {
        for before in 0..twice {
            show_instant(page, actors, before + 1, schedule.events(before + 1));
        }
    }
}
