// Rows of a runner of a net that is made by hand: its input is put out, by workers on threads. Shown is whether in each round two
// workers are there at the same time, and what is put out by 1, 2, 3 and 64 workers, in one piece and in blocks of one instant.
ghost use Rattle.std.specs.Prelude.{◌≡◌, ◌+◌, ◌<◌, ◌≤◌, length};
ghost use Rattle.lucy_word.specs.Limits.{limit_number};
ghost use Rattle.lucy_word.specs.declared.limit.Limit.TheVariants as lim;
ghost use Rattle.lucy_host.specs.Host.{Serves, lent};
ghost use Rattle.lucy_net_rows.specs.Echo.{IsEcho};

use crate::echo;
use crate::page::Page;
use crate::pair::Pair;
use lucy_host::Host;
use lucy_runner::Runner;
use lucy_word::Word;
use lucy_worker::OpenGate;
use std::thread::Threads;

// What comes in, one item an instant.
const ITEMS: [u32; 3] = [5, 6, 7];

// Each item is given and taken.
const EVENTS: u32 = 6;

// By how many workers, and how many items come at first, before they come one by one.
const RUNS: [(u32, usize); 6] = [(1, 3), (2, 3), (3, 3), (64, 3), (1, 1), (2, 1)];

// Makes rounds until all is done, of which there are no more than events, since each moves something. Shows whether each of two workers
// that wait for each other comes to the gate once a round, whether one looked for the other in vain, and what is put out.
fn show_rounds<R: Threads + Sync, F: Fn(u32, i64, i64) -> i64 + Sync>(
    rt: &R,
    page: &mut Page,
    host: &Host<F>,
    runner: &mut Runner,
)
    requires serves { Serves F.pre F.post host.now }
    requires echo { IsEcho (lent host.now) runner.old.seen }
{
    let gate = Pair::new();
    let mut rounds = 0u64;
    'rounds: for _ in 0..EVENTS {
        if runner.finished() {
            break;
        }
        let _ = runner.round(rt, host, &gate);
        rounds = rounds.saturating_add(1);
    }
    let once = gate.passes(0) == rounds && gate.passes(1) == rounds;
    page.put(format_args!(
        "two workers that wait for each other: each once a round {once}, late {}\nthen",
        gate.is_late()
    ));
    page.put_numbers(runner.output(0));
    page.put("\n");
}

// Shows what so many workers put out: of the items that came, so many, and then of each that is still to come.
fn show_blocks<R: AllocGlobal + Threads + Sync, F: Fn(u32, i64, i64) -> i64 + Sync>(
    rt: &R,
    page: &mut Page,
    host: &Host<F>,
    runner: &mut Runner,
    workers: u32,
    came: u64,
    later: &[u32],
)
    requires serves { Serves F.pre F.post host.now }
    requires echo { IsEcho (lent host.now) runner.old.seen }
    requires came { runner.old.seen.instants ≡ came }
    requires few { came + length later.now ≤ limit_number lim.Instants }
{
    runner.go(rt, host, &OpenGate);
    page.put(format_args!("by {workers}"));
    if !later.is_empty() {
        page.put(format_args!(", instant {came}"));
    }
    page.put_list(runner.output(0));
    let mut instants = came;
    'later: for item in later {
        match echo::grow(rt.alloc(), runner, host.ops(), *item, instants) {
            Ok(()) => instants += 1,
            Err(_) => return page.put("no memory\n"),
        }
        runner.go(rt, host, &OpenGate);
        page.put(format_args!("instant {instants}"));
        page.put_list(runner.output(0));
    }
}

// Shows a run of so many workers, to which so many items come at first; or one of workers that wait for each other.
fn show_run<R: AllocGlobal + Threads + Sync, F: Fn(u32, i64, i64) -> i64 + Sync>(
    rt: &R,
    page: &mut Page,
    host: &Host<F>,
    word: &Word,
    workers: u32,
    first: usize,
    wait: bool,
)
    requires serves { Serves F.pre F.post host.now }
    requires workers { (1 ≤ workers) × (workers ≤ 64) }
{
    let (first, later) = ITEMS.split_at(first.min(3));
    match echo::runner(rt.alloc(), host.ops(), word, first, workers) {
        Ok(mut runner) => {
            if wait {
                show_rounds(rt, page, host, &mut runner);
            } else {
                let came = first.len() as u64;
                show_blocks(rt, page, host, &mut runner, workers, came, later);
            }
        }
        Err(_) => page.put("no memory\n"),
    }
}

/// Shows them.
pub(crate) fn show<R: AllocGlobal + Threads + Sync, F: Fn(u32, i64, i64) -> i64 + Sync>(
    rt: &R,
    page: &mut Page,
    host: &Host<F>,
)
    requires { Serves F.pre F.post host.now }
{
    match Word::read(rt.alloc(), b"(1)") {
        Ok(word) => {
            show_run(rt, page, host, &word, 2, 3, true);
            for (workers, first) in &RUNS {
                show_run(
                    rt,
                    page,
                    host,
                    &word,
                    (*workers).clamp(1, 64),
                    *first,
                    false,
                );
            }
        }
        Err(_) => page.put("no memory\n"),
    }
}
