//! Calls of the crates below that no command shows by itself: what they give is printed.
//!
//! `data/` has the texts that are cut into tokens, each on a line, those that are counted, as `FRONT|PART|COUNT|BACK`, and
//! what is done to rings of two slots, a ring on each line. `stdout` has what the definitions say of them.
#![tactic(auto)]

mod cutting;
mod devices;
mod limits;
mod printing;
mod rings;
mod threads;

use std::{fs, io};

fn main(rt: HostRuntime) -> io::Result<()> {
    for line in fs::read_to_string(&rt, "tokens")?.lines() {
        cutting::show(&rt, line)?;
    }
    for line in fs::read_to_string(&rt, "counted")?.lines() {
        cutting::count(&rt, line)?;
    }
    for line in fs::read_to_string(&rt, "rings")?.lines() {
        rings::show(&rt, line)?;
    }
    threads::show(&rt)?;
    printing::show(&rt)?;
    devices::show(&rt)?;
    limits::show(&rt)
}
