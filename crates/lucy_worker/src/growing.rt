// More room and more to do for a part.
ghost use Rattle.std.specs.Prelude.{ℕ, ◌≡◌, ◌+◌, ◌<◌, ◌≤◌, ◌^◌, ◌++◌, List, [], ℤ, length, vec_capacity, OnOk};
ghost use Rattle.lucy_word.specs.Bits.{ones_to};
ghost use Rattle.lucy_net.specs.Plans.{form_of};
ghost use Rattle.lucy_net.specs.Cursors.{IsCursor, HasCursor};
ghost use Rattle.lucy_net.specs.States.{IsUsable, IsActorState};
ghost use Rattle.lucy_worker.specs.Growing.{HasSpared, HasSpare, CanExtend, IsExtended};
ghost use Rattle.lucy_worker.specs.Readiness.{IsReady};

use crate::part::Part;
use lucy_net::{Actor, ActorKind, ActorState};
use lucy_word::Word;
use std::alloc::AllocError;

impl Part {
    // Makes room for so many more items of the input and of the output.
    pub(crate) fn reserve(&mut self, items: u64, room: u64) -> Result<(), AllocError>
        ensures spared { HasSpared self.old self.new }
        ensures ok { OnOk result (HasSpare items room self.new) }
    {
        self.input.reserve(items as usize)?;
        self.output.reserve(room as usize)?;
        Ok(())
    }

    // Takes up these items, and the firings of so many instants.
    pub(crate) fn extend(&mut self, items: &[i64], instants: u64)
        requires ready { IsReady self.old }
        requires can { CanExtend self.old items.now instants }
        ensures { IsExtended self.old items.now instants self.new }
    {
        let quota = self.actor.firing.ones(instants);
        raise(&self.actor, &mut self.state, quota);
        append(&mut self.input, items);
        empty(&mut self.output);
    }
}

// Gives an actor that is done more firings to do, if there are any. An actor without rings stays at its end.
fn raise(actor: &Actor, state: &mut ActorState, quota: u64)
    requires usable { IsUsable actor.now }
    requires few { quota < 2 ^ 63 }
    requires done { state.old.quota ≤ state.old.fired }
    requires more { state.old.fired ≤ quota }
    ensures quota { state.new.quota ≡ quota }
    ensures fired { state.old.fired ≤ state.new.fired }
    ensures state { (before instants n : ℕ) (took : List (List ℤ)) → quota ≡ ones_to actor.now.firing instants → IsActorState actor.now before n took state.old →
        IsActorState actor.now instants n took state.new }
{
    if quota == state.quota {
        return;
    }
    let rings = actor.takes.list().len() as u64 + actor.gives.list().len() as u64;
    state.cursor = cursor_after(&actor.kind, state.fired);
    state.fired = fired_on(rings, state.fired, quota);
    state.quota = quota;
}

// An actor without rings has nothing to do in a firing, and does them all at once.
fn fired_on(rings: u64, fired: u64, quota: u64) -> u64
    requires { fired ≤ quota }
    ensures none { rings ≡ 0 → result ≡ quota }
    ensures some { 0 < rings → result ≡ fired }
    ensures further { fired ≤ result }
{
    if rings == 0 { quota } else { fired }
}

// Where the bit of the firing after so many others stands among the bits of the word that an actor of this kind reads.
fn cursor_after(kind: &ActorKind, fired: u64) -> u64
    requires { fired < 2 ^ 63 }
    ensures { HasCursor (form_of kind.now) fired result }
{
    match kind {
        ActorKind::When(word) => bit_after(word, fired),
        ActorKind::Merge(word) => bit_after(word, fired),
        _ => 1,
    }
}

fn bit_after(word: &Word, fired: u64) -> u64
    requires { fired < 2 ^ 63 }
    ensures { IsCursor word.now fired result }
{
    let (prefix, period) = word.lengths();
    if fired < prefix + period {
        fired + 1
    } else {
        prefix + (fired - prefix) % period + 1
    }
}

fn append(list: &mut Vec<i64>, more: &[i64])
    requires { length list.old.items + length more.now ≤ vec_capacity list.old }
    ensures { list.new.items ≡ list.old.items ++ more.now }
{
    match list.extend_from_slice(more) {
        Ok(()) => (),
        Err(_) => unreachable!(),
    }
}

fn empty(list: &mut Vec<i64>)
    ensures none { list.new.items ≡ [] }
    ensures room { vec_capacity list.old ≤ vec_capacity list.new }
{
    list.clear();
}
