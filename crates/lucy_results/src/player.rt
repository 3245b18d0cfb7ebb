// A program that is run from horizon to horizon.
ghost use Rattle.std.specs.Prelude.{◌≡◌, ◌≤◌, length, IfOk, OnErr};

use crate::workers::{homes_of, outputs, run_core};
use lucy_clock::NodeClock;
use lucy_core::Core;
use lucy_host::{Host, Inputs};
use lucy_net::{Net, Schedule};
use lucy_place::Placed;
use lucy_runner::Runner;
use lucy_worker::Gate;
use std::alloc::{AllocError, Global};
use std::marker::Model;
use std::thread::Threads;

/// A program whose flat net was run to a horizon, and whose rings and actors live on to the next one.
#[derive(Drop)]
pub struct Player<'a> {
    placed: &'a Placed,
    clocks: &'a [NodeClock],
    runner: Runner,
}

impl<'a> Model for Player<'a> {
    ghost use Rattle.lucy_results.specs.Playing.{PlayerView, played, IsPlayed};

    ghost Value = { PlayerView };

    ghost view = { λ p. played p.placed.now.nodes p.clocks.now p.runner };

    ghost invariant = { λ p. IsPlayed p.placed.now.nodes p.clocks.now p.runner };
}

impl<'a> Player<'a> {
    ghost use Rattle.lucy_word.specs.Limits.{limit_number};
    ghost use Rattle.lucy_word.specs.declared.limit.Limit.TheVariants as limit;
    ghost use Rattle.lucy_host.specs.Host.{Serves, lent};
    ghost use Rattle.lucy_host.specs.Operators.{kinds_of};
    ghost use Rattle.lucy_place.specs.Proper.{HaveOperators};
    ghost use Rattle.lucy_kahn.specs.Spots.{main_of};
    ghost use Rattle.lucy_kahn.specs.Horizons.{Suffice};
    ghost use Rattle.lucy_kahn.specs.Turns.{params_in};
    ghost use Rattle.lucy_net.specs.Orders.{IsSound};
    ghost use Rattle.lucy_net.specs.Schedules.{events_at};
    ghost use Rattle.lucy_flat.specs.Flat.{IsFlat};
    ghost use Rattle.lucy_results.specs.Streams.{param_words, later_streams};
    ghost use Rattle.lucy_runner.specs.Views.{most_workers};
    ghost use Rattle.lucy_results.specs.Playing.{joined, crew_for};

    /// Runs a program from the beginning to a horizon of at most 1,048,576 instants, by its flat net, whose actors are moved by 1 to
    /// 64 workers, each on a thread of its own. Actor `a` is in worker `a mod workers`. There is an input for each parameter of
    /// main, with the items of so many instants, and the operators of the host that the program names are among those of this one.
    pub fn new<R: Threads + Sync, F: Fn(u32, i64, i64) -> i64 + Sync, G: Gate + Sync>(
        rt: &R,
        alloc: Global,
        placed: &'a Placed,
        clocks: &'a [NodeClock],
        net: Net,
        schedule: Schedule,
        host: &Host<F>,
        gate: &G,
        inputs: Inputs,
        instants: u64,
        workers: u32,
    ) -> Result<Player<'a>, AllocError>
        requires flat { IsFlat placed.now.nodes clocks.now net }
        requires sound { IsSound net (events_at schedule) }
        requires serves { Serves F.pre F.post host.now }
        requires known { HaveOperators (length (lent host.now)) placed.now.nodes }
        requires inputs { params_in (main_of placed.now.nodes) ≡ length inputs }
        requires suffice { Suffice (param_words placed.now.nodes clocks.now) inputs instants }
        requires early { instants ≤ limit_number limit.Instants }
        requires workers { (1 ≤ workers) × (workers ≤ most_workers) }
        ensures { IfOk result (λ player. player
            ≡ record { nodes = placed.now.nodes; clocks = clocks.now; kinds = kinds_of (lent host.now); inputs = inputs; instants = instants; before = 0; crew = crew_for net workers }) }
    {
        // For the proof: this call tells that the nodes are proper.
        let _ = placed.nodes();
        let homes = homes_of(alloc, net.actors.list().len(), workers)?;
        let core = Core::new(alloc, net, schedule, inputs, host.ops(), instants)?;
        let runner = run_core(rt, alloc, placed, clocks, core, host, gate, workers, &homes)?;
        Ok(Player {
            placed,
            clocks,
            runner,
        })
    }

    /// Runs the program on to a later horizon, of at most 1,048,576 instants, with the items that follow those of each input. The
    /// outputs' items so far count as carried away. Memory is taken before anything is done, so a refusal changes nothing.
    pub fn go_on<R: Threads + Sync, F: Fn(u32, i64, i64) -> i64 + Sync, G: Gate + Sync>(
        &mut self,
        rt: &R,
        alloc: Global,
        host: &Host<F>,
        gate: &G,
        added: &Inputs,
        instants: u64,
    ) -> Result<(), AllocError>
        requires serves { Serves F.pre F.post host.now }
        requires kinds { kinds_of (lent host.now) ≡ self.old.kinds }
        requires later { self.old.instants ≤ instants }
        requires early { instants ≤ limit_number limit.Instants }
        requires inputs { length added.now ≡ length self.old.inputs }
        requires suffice { Suffice (param_words self.old.nodes self.old.clocks) (joined self.old.inputs added.now) instants }
        ensures ok { IfOk result (λ _. self.new ≡ record self.old { inputs = joined self.old.inputs added.now; instants = instants; before = self.old.instants }) }
        ensures refused { OnErr result (self.new ≡ self.old) }
    {
        // For the proof: this call tells that the nodes are proper.
        let _ = self.placed.nodes();
        self.runner.more(alloc, added, instants)?;
        self.runner.go(rt, host, gate);
        Ok(())
    }

    /// What the output streams have past the horizon before: a list for each result of main, in order.
    pub fn outputs(&self, alloc: Global) -> Result<Inputs, AllocError>
        ensures { IfOk result (λ lists. lists ≡ later_streams self.now.kinds self.now.inputs self.now.nodes self.now.clocks self.now.before self.now.instants) }
    {
        outputs(alloc, self.placed, self.clocks, &self.runner)
    }
}
