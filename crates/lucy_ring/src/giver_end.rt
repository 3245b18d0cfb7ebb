ghost use Rattle.std.specs.Prelude.{◌≡◌, ◌+◌, ◌≤◌, ◌++◌, length, vec_len, vec_capacity};
ghost use Rattle.rtrb.specs.Ring.{sent, producer_capacity, received, known_items, SameConsumer};
ghost use Rattle.lucy_word.specs.Limits.{limit_number};
ghost use Rattle.lucy_word.specs.declared.limit.Limit.TheVariants as limit;

use rtrb::{Consumer, Producer};

// The end that gives, with all that it counts.
#[derive(Drop)]
pub(crate) struct GiverEnd {
    // Carries the items.
    pub(crate) items: Producer<i64>,
    // Brings one number back for each item taken, since no producer is told which slots were freed.
    pub(crate) numbers: Consumer<u8>,
    // The slots known to be free.
    free: u32,
    // How many items the taker held at the last meeting.
    held: u32,
    // The items that `items` had no slot for.
    pub(crate) side: Vec<i64>,
    // How many items were pushed, and how many numbers popped, since the last meeting.
    pushed: u64,
    fetched: u64,
    ghost bounds: { (1 ≤ producer_capacity items) × (producer_capacity items ≤ limit_number limit.Slots) × (held ≤ producer_capacity items) },
    ghost past: { (pushed ≤ length (sent items)) × (fetched ≤ length (received numbers)) },
    ghost room: { (vec_len side + free ≤ producer_capacity items) × (producer_capacity items ≤ vec_capacity side) },
    ghost counted: { held + pushed + vec_len side + free ≡ producer_capacity items + fetched },
}

impl GiverEnd {
    ghost use Rattle.std.specs.Prelude.{◌≡◌, ◌+◌, ◌<◌, ◌≤◌, [], ◌∷◌, ◌++◌, length, vec_len, vec_capacity, IfErr, OnOk, OnErr, IsOk, IsTrue, IsFalse};
    ghost use Rattle.rtrb.specs.Ring.{sent, producer_capacity, received, IsPair, SameProducer, SameConsumer};
    ghost use Rattle.lucy_word.specs.Limits.{limit_number};
    ghost use Rattle.lucy_word.specs.declared.limit.Limit.TheVariants as limit;
    ghost use Rattle.lucy_ring.specs.Ring.{given, known_slots, ring_of_giver, giver_view};
    ghost use Rattle.lucy_ring.specs.Views.{most_between};

    pub(crate) fn new(items: Producer<i64>, numbers: Consumer<u8>, side: Vec<i64>) -> GiverEnd
        requires capacity { (1 ≤ producer_capacity items) × (producer_capacity items ≤ limit_number limit.Slots) }
        requires side { (side.items ≡ []) × (vec_capacity side ≡ producer_capacity items) }
        ensures parts { (result.items ≡ items) × (result.numbers ≡ numbers) × (result.side ≡ side) }
        ensures counts { (result.free ≡ producer_capacity items) × (result.held ≡ 0) × (result.pushed ≡ 0) × (result.fetched ≡ 0) }
    {
        let free = items.capacity() as u32;
        GiverEnd {
            items,
            numbers,
            free,
            held: 0,
            side,
            pushed: 0,
            fetched: 0,
        }
    }

    #[inline(always)]
    pub(crate) fn give(&mut self, item: i64) -> Result<(), i64>
        requires few { length (given self.old) < most_between }
        ensures ring { ring_of_giver self.new ≡ ring_of_giver self.old }
        ensures given { OnOk result (given self.new ≡ given self.old ++ item ∷ []) }
        ensures slots { OnOk result (known_slots self.old ≤ known_slots self.new + 1) }
        ensures handed_back { IfErr result (λ e. e ≡ item) }
        ensures unchanged { OnErr result (giver_view self.new ≡ giver_view self.old) }
        ensures succeeds { 0 < known_slots self.old → IsOk result }
    {
        if self.free == 0 {
            self.fetch();
        }
        if self.free == 0 {
            return Err(item);
        }
        self.put(item);
        Ok(())
    }

    // Takes a number that came back, if there is one. Once an item is in the side list the count grows no more, so that
    // the list has room enough.
    #[inline(always)]
    #[tactic(auto, using(crate::proofs::Names::giver_keeps))]
    fn fetch(&mut self)
        requires none { known_slots self.old ≡ 0 }
        requires few { length (given self.old) < most_between }
        ensures ring { ring_of_giver self.new ≡ ring_of_giver self.old }
        ensures given { given self.new ≡ given self.old }
    {
        if self.side.is_empty() && self.numbers.pop().is_ok() {
            self.free = 1;
            self.fetched += 1;
        }
    }

    #[inline(always)]
    fn put(&mut self, item: i64)
        requires some { 0 < known_slots self.old }
        requires few { length (given self.old) < most_between }
        ensures ring { ring_of_giver self.new ≡ ring_of_giver self.old }
        ensures given { given self.new ≡ given self.old ++ item ∷ [] }
        ensures slots { known_slots self.old ≡ known_slots self.new + 1 }
    {
        if self.side.is_empty() && self.send(item) {
            return;
        }
        self.keep(item);
    }

    // Pushes the item, or answers false where no slot is found. The side list is empty, so that the item is the last one.
    #[inline(always)]
    fn send(&mut self, item: i64) -> bool
        requires some { 0 < known_slots self.old }
        requires few { length (given self.old) < most_between }
        requires none { self.old.side.items ≡ [] }
        ensures ring { ring_of_giver self.new ≡ ring_of_giver self.old }
        ensures given { IsTrue result → given self.new ≡ given self.old ++ item ∷ [] }
        ensures slots { IsTrue result → known_slots self.old ≡ known_slots self.new + 1 }
        ensures left { IsFalse result → (given self.new ≡ given self.old) × (known_slots self.new ≡ known_slots self.old) }
    {
        if self.items.push(item).is_err() {
            return false;
        }
        self.pushed += 1;
        self.free -= 1;
        true
    }

    // Puts the item into the side list.
    #[inline(always)]
    fn keep(&mut self, item: i64)
        requires some { 0 < known_slots self.old }
        ensures ring { ring_of_giver self.new ≡ ring_of_giver self.old }
        ensures given { given self.new ≡ given self.old ++ item ∷ [] }
        ensures slots { known_slots self.old ≡ known_slots self.new + 1 }
    {
        match self.side.push(item) {
            Ok(()) => self.free -= 1,
            Err(_) => unreachable!(),
        }
    }

    // Whether nothing was given since the last meeting, and no number fetched.
    pub(crate) fn is_still(&self) -> bool
        ensures { IsTrue result → (self.now.pushed ≡ 0) × (self.now.fetched ≡ 0) × (self.now.side.items ≡ []) }
    {
        self.pushed == 0 && self.fetched == 0 && self.side.is_empty()
    }

    // Throws away the numbers that came back, and counts anew from what the taker holds.
    pub(crate) fn renew(&mut self, numbers: &mut Producer<u8>, held: u32)
        requires pair { IsPair numbers.old self.old.numbers }
        requires held { held ≤ producer_capacity self.old.items }
        ensures items { self.new.items ≡ self.old.items }
        ensures numbers { SameConsumer self.old.numbers self.new.numbers × SameProducer numbers.old numbers.new }
        ensures sent { (sent numbers.new ≡ sent numbers.old) × (length (received self.new.numbers) ≡ length (sent numbers.new)) }
        ensures counts { (self.new.held ≡ held) × (self.new.free + held ≡ producer_capacity self.old.items) × (self.new.pushed ≡ 0) × (self.new.fetched ≡ 0) }
        ensures side { self.new.side.items ≡ [] }
    {
        let count = self.numbers.slots_beside(numbers);
        discard(&mut self.numbers, count);
        self.side.clear();
        self.held = held;
        self.free = self.items.capacity() as u32 - held;
        self.pushed = 0;
        self.fetched = 0;
    }
}

fn discard(numbers: &mut Consumer<u8>, count: usize)
    requires { length (known_items numbers.old) ≡ count }
    ensures ring { SameConsumer numbers.old numbers.new }
    ensures all { received numbers.new ≡ received numbers.old ++ known_items numbers.old }
{
    for _ in 0..count {
        numbers.pop_known();
    }
}
