// Rows of accepted programs.
ghost use Rattle.std.specs.Prelude.{List, ℕ};
ghost use Rattle.lucy_host.specs.Host.{Serves, lent};
ghost use Rattle.lucy_program.specs.declared.options.Options.{Options as Clocking};
ghost use Rattle.lucy_program.specs.Accepting.{IsAccepted};
ghost use Rattle.lucy_front.specs.Refusals.{IsTellable};

use crate::page::Page;
use crate::ready::{core_of, count_actors};
use crate::row::Row;
use crate::{cores, handed, rounds, schedules};
use lucy_front::{Refusal, accept, refusal_text};
use lucy_host::Host;
use lucy_program::{Accepted, Options, accepted_programs_are_clocked};
use std::alloc::Global;
use std::str;
use std::thread::Threads;

// Clocks that aren't written are inferred.
const OPTIONS: Options = Options {
    scale: 1,
    lead: 1,
    written_only: false,
};

// Shows the text of a refusal.
fn show_refusal(page: &mut Page, alloc: Global, refusal: &Refusal)
    requires { IsTellable refusal.now }
{
    match refusal_text(alloc, refusal) {
        Ok(text) => page.put(str::from_utf8(&text).unwrap_or("not a text\n")),
        Err(_) => page.put("no memory\n"),
    }
}

// Shows what comes of the net of an accepted program.
fn show_accepted<R: AllocGlobal + Threads + Sync, F: Fn(u32, i64, i64) -> i64 + Sync>(
    rt: &R,
    page: &mut Page,
    host: &Host<F>,
    kind: &str,
    row: &Row,
    accepted: Accepted,
)
    requires serves { Serves F.pre F.post host.now }
    requires accepted { (text : List ℕ) × (o : Clocking) × IsAccepted (lent host.now) o text accepted }
{
    let alloc = rt.alloc();
    // For the proof: these are laws of accepted programs.
    accepted_programs_are_clocked();
    let actors = count_actors(&accepted.net);
    let Accepted {
        placed,
        clocks,
        net,
        schedule,
        ..
    } = accepted;
    match core_of(
        alloc,
        &placed,
        &clocks,
        net,
        schedule,
        host.ops(),
        &row.items,
    ) {
        Ok(mut core) => match kind {
            "workers" => rounds::show(rt, page, host, &row.numbers, &placed, &clocks, core, actors),
            "hand" => handed::show(page, alloc, host, core, actors),
            _ => cores::show(
                page,
                host,
                kind,
                &row.numbers,
                &placed,
                &clocks,
                &mut core,
                actors,
            ),
        },
        Err(_) => page.put("no memory\n"),
    };
}

/// Shows what comes of the program of a row, or why it is refused.
pub(crate) fn show<R: AllocGlobal + Threads + Sync, F: Fn(u32, i64, i64) -> i64 + Sync>(
    rt: &R,
    page: &mut Page,
    host: &Host<F>,
    kind: &str,
    row: &Row,
)
    requires { Serves F.pre F.post host.now }
{
    match accept(rt.alloc(), row.text.as_bytes(), host.ops(), &OPTIONS) {
        Ok(accepted) if kind == "schedule" => {
            schedules::show(page, &accepted.net, &accepted.schedule);
        }
        Ok(accepted) => show_accepted(rt, page, host, kind, row, accepted),
        Err(refusal) => show_refusal(page, rt.alloc(), &refusal),
    }
}
