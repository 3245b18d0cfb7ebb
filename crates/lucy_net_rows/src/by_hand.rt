// Two workers whose rounds are made by hand: one has the actors of even numbers, the other those of odd ones.
ghost use Rattle.std.specs.Prelude.{◌≡◌, ◌≤◌, [], All, IsTrue, OnOk, length};
ghost use Rattle.lucy_host.specs.Host.{Serves, lent};
ghost use Rattle.lucy_net.specs.Proper.{IsProper};
ghost use Rattle.lucy_worker.specs.Turns.{IsServed};
ghost use Rattle.lucy_worker.specs.News.{IsNew, ends_by, most_ends};
ghost use Rattle.lucy_net_rows.specs.ByHand.{IsLinked, AreLinked, AreApart, AreJoined, HasMetByHand};

use crate::complete::are_complete;
use crate::page::Page;
use crate::parity::{Link, first_parts, join_all};
use lucy_host::Host;
use lucy_net::{ActorKind, Net, proper_nets_are_plugged};
use lucy_worker::{OpenGate, Part, Worker, ends_are_kept, meet_between};
use std::alloc::{AllocError, Global};
use std::marker::Model;

/// The two workers, and where the ends of each ring are. Contracts see how many rings there are.
#[derive(Drop)]
pub(crate) struct ByHand {
    even: Worker,
    odd: Worker,
    links: Vec<Link>,
}

impl Model for ByHand {
    ghost use Rattle.std.specs.Prelude.{ℕ, length};
    ghost use Rattle.lucy_net_rows.specs.ByHand.{AreLinked, AreApart};

    ghost Value = { ℕ };

    ghost view = { λ h. length h.links.items };

    ghost invariant = { λ h. AreLinked h.even.parts h.odd.parts h.links.items × AreApart h.links.items };
}

impl ByHand {
    /// Two workers of a net's actors, for so many instants. The input has these items.
    pub(crate) fn new(
        alloc: Global,
        net: &Net,
        items: &[i64],
        instants: u64,
    ) -> Result<ByHand, AllocError>
        requires { IsProper net.now }
    {
        let mut even = Vec::new(alloc);
        let mut odd = Vec::new(alloc);
        let mut links = Vec::new(alloc);
        match fill(alloc, net, items, instants, &mut even, &mut odd, &mut links) {
            Ok(()) => Ok(ByHand {
                even: Worker::new(0, even),
                odd: Worker::new(1, odd),
                links,
            }),
            Err(_) => Err(AllocError),
        }
    }

    /// A round: a turn of the worker of even actors, one of that of odd actors, and then a meeting of the two ends of each ring. Answers
    /// the numbers of moves: none, where the host lacks an operator.
    pub(crate) fn round<F: Fn(u32, i64, i64) -> i64 + Sync>(&mut self, host: &Host<F>) -> (u64, u64)
        requires { Serves F.pre F.post host.now }
    {
        let count = host.ops().count();
        if !are_served(self.even.parts(), count) || !are_served(self.odd.parts(), count) {
            return (0, 0);
        }
        let links = self.links.as_slice();
        make_round(&mut self.even, &mut self.odd, links, host)
    }

    /// Whether every actor has done its list of operations.
    pub(crate) fn done(&self) -> bool {
        self.even.done() && self.odd.done()
    }

    /// How many operations the actor of a number has done. It neither samples nor merges, so each of its firings has one for each of its
    /// rings.
    pub(crate) fn done_by(&self, actor: u32) -> u64 {
        let worker = if actor % 2 == 0 {
            &self.even
        } else {
            &self.odd
        };
        match worker.parts().get((actor / 2) as usize) {
            Some(part) => {
                let rings = part.takers.len() as u64 + part.givers.len() as u64;
                let whole = part.state.fired.saturating_mul(rings);
                whole.saturating_add(u64::from(part.state.step))
            }
            None => 0,
        }
    }

    /// Shows what the output took, oldest first.
    pub(crate) fn show_output(&self, page: &mut Page) {
        show_output_in(page, self.even.parts());
        show_output_in(page, self.odd.parts());
    }
}

// Shows what the outputs among these took.
fn show_output_in(page: &mut Page, parts: &[Part]) {
    for part in parts {
        if let ActorKind::Output(number) = part.actor.kind {
            page.put(format_args!("output {number}"));
            page.put_list(&part.output);
        }
    }
}

// Fills empty lists with the parts of two workers, and with where the ends of their rings are.
fn fill(
    alloc: Global,
    net: &Net,
    items: &[i64],
    instants: u64,
    even: &mut Vec<Part>,
    odd: &mut Vec<Part>,
    links: &mut Vec<Link>,
) -> Result<(), AllocError>
    requires proper { IsProper net.now }
    requires none { (even.old.items ≡ []) × (odd.old.items ≡ []) × (links.old.items ≡ []) }
    ensures joined { OnOk result (AreJoined even.new.items odd.new.items links.new.items) }
    ensures new { OnOk result (All IsNew even.new.items × All IsNew odd.new.items) }
    ensures few { OnOk result ((ends_by even.new.items ≤ most_ends) × (ends_by odd.new.items ≤ most_ends)) }
{
    proper_nets_are_plugged();
    first_parts(alloc, net.actors.list(), items, instants, even, odd)?;
    join_all(alloc, net.rings.list(), even, odd, links)?;
    if are_complete(even) && are_complete(odd) {
        Ok(())
    } else {
        Err(AllocError)
    }
}

// Whether the operators of actors are among the first, so many of them.
fn are_served(parts: &[Part], count: u32) -> bool
    ensures { IsTrue result → All (IsServed count) parts.now }
{
    for part in parts {
        match part.actor.kind {
            ActorKind::Host(op) if op >= count => return false,
            _ => {}
        }
    }
    true
}

// A turn of each of two workers, and then a meeting of the two ends of each ring.
fn make_round<F: Fn(u32, i64, i64) -> i64 + Sync>(
    even: &mut Worker,
    odd: &mut Worker,
    links: &[Link],
    host: &Host<F>,
) -> (u64, u64)
    requires serves { Serves F.pre F.post host.now }
    requires served { All (IsServed (length (lent host.now))) even.old.parts × All (IsServed (length (lent host.now))) odd.old.parts }
    requires linked { AreLinked even.old.parts odd.old.parts links.now }
    requires apart { AreApart links.now }
    ensures { AreLinked even.new.parts odd.new.parts links.now }
{
    ends_are_kept();
    let of_even = even.advance(host, &OpenGate);
    let of_odd = odd.advance(host, &OpenGate);
    meet_all(even, odd, links);
    (of_even, of_odd)
}

// Lets the two ends of each ring meet.
fn meet_all(even: &mut Worker, odd: &mut Worker, links: &[Link])
    requires linked { AreLinked even.old.parts odd.old.parts links.now }
    requires apart { AreApart links.now }
    ensures { AreLinked even.new.parts odd.new.parts links.now }
{
    ends_are_kept();
    for link in links {
        meet_at(even, odd, *link);
    }
}

// Lets the two ends of a ring meet.
fn meet_at(even: &mut Worker, odd: &mut Worker, link: Link)
    requires { IsLinked even.old.parts odd.old.parts link }
    ensures { HasMetByHand even.old.parts odd.old.parts link even.new.parts odd.new.parts }
{
    ends_are_kept();
    let (giver, taker) = (link.giver.place, link.taker.place);
    if link.giver.odd {
        if link.taker.odd {
            odd.meet_own(giver, taker);
        } else {
            meet_between(odd, giver, even, taker);
        }
    } else if link.taker.odd {
        meet_between(even, giver, odd, taker);
    } else {
        even.meet_own(giver, taker);
    }
}
